//! An index of the first declarations of names.

ghost use Rattle.std.specs.Prelude.{◌≡◌, ℕ, ◌+◌, ◌&&◌, List, IfOk, OnOk, is_some, Some, None};
ghost use Rattle.std.specs.Prelude.{if◌then◌else◌, nat_eq};
ghost use Rattle.std.specs.Option.{option_or};
ghost use Rattle.std.specs.Str.{bytes_eq};
ghost use Rattle.gta_types.specs.Index.{known_at};

use crate::declaring::NameKind;
use gta_text::Name;
use std::alloc::{AllocError, Global};
use std::collections::BTreeMap;

/// What a name was first declared as, and the line that does so.
#[derive(Clone, Copy)]
pub(crate) struct Found {
    pub(crate) kind: NameKind,
    pub(crate) line: u32,
}

/// A name on a line.
#[derive(Clone, Copy)]
pub(crate) struct Place<'a> {
    pub(crate) line: u32,
    pub(crate) name: &'a Name,
}

/// The first declarations, in the order of scopes and names, so that a look-up takes few steps however names are
/// chosen. Each list of names within a line, such as the elements of a table, has a scope of its own.
#[derive(Drop)]
pub(crate) struct Names<'a> {
    pub(crate) first: BTreeMap<(u64, &'a [u8]), Found>,
}

impl<'a> Names<'a> {
    /// An index of no names.
    pub(crate) fn new(alloc: Global) -> Names<'a>
        ensures { (s : ℕ) (x : List ℕ) → known_at result s x ≡ None }
    {
        Names {
            first: BTreeMap::new(alloc),
        }
    }

    /// What the index has at a name in a scope.
    pub(crate) fn look(&self, scope: u64, name: &'a [u8]) -> Option<Found>
        ensures { result ≡ known_at self.now scope name.now }
    {
        self.first.get(&(scope, name)).copied()
    }

    /// Adds a name where the index has none in its scope, and tells whether it had one.
    pub(crate) fn add(
        &mut self,
        scope: u64,
        name: &'a [u8],
        found: Found,
    ) -> Result<bool, AllocError>
        ensures again { IfOk result (λ again. again ≡ is_some (known_at self.old scope name.now)) }
        ensures added { OnOk result ((s : ℕ) (x : List ℕ) → known_at self.new s x
            ≡ option_or (known_at self.old s x)
            (if nat_eq s scope && bytes_eq x name.now then Some found else None)) }
    {
        // One search for a new name. A name that is there gets back what it had.
        match self.first.insert((scope, name), found)? {
            None => Ok(false),
            Some(earlier) => {
                self.first.insert((scope, name), earlier)?;
                Ok(true)
            }
        }
    }
}
