//! A key with its value. What a list of slots stands for is in specs/Slots.antt.

ghost use Rattle.std.specs.Prelude.{◌≡◌, ◌≢◌, IfSome, IfNone};
ghost use Rattle.monoid_kit.specs.Items.{IsIn, AllElements};
ghost use Rattle.key_map.specs.Slots.{key_of, KeysAscend};

/// A key, and the value that a map keeps for it.
#[derive(Drop)]
pub struct Slot<E> {
    pub key: u32,
    pub elem: E,
}

// The slot with this key, found by halves.
pub(crate) fn find_slot<E>(slots: &[Slot<E>], key: u32) -> Option<&Slot<E>>
    requires { KeysAscend slots.now }
    ensures found { IfSome result (λ slot. IsIn slot.now slots.now × (slot.now.key ≡ key)) }
    ensures absent { IfNone result (AllElements (λ other. other ≢ key) key_of slots.now) }
{
    match slots.binary_search_by_key(&key, |slot| slot.key) {
        Ok(place) => Some(&slots[place]),
        Err(_) => None,
    }
}
