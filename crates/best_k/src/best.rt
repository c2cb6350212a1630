//! A list of entries.
ghost use Rattle.std.specs.Prelude.{◌≡◌};

use crate::entry::Entry;
use first_k::Firsts;
use std::marker::Model;

/// The best entries, the best one first, seen as their list.
#[derive(Debug, Drop)]
pub struct Best<W> {
    pub(crate) firsts: Firsts<Entry<W>>,
}

impl<W> Model for Best<W> {
    ghost use Rattle.std.specs.Prelude.{List};
    ghost use Rattle.best_k.specs.declared.entry.Entry.{Entry};

    ghost Value = { List (Entry W) };

    ghost view = { λ best. best.firsts };
}

impl<W> Best<W> {
    /// The entries. Takes no memory.
    pub fn entries(&self) -> &[Entry<W>]
        ensures { result.now ≡ self.now }
    {
        self.firsts.items()
    }

    /// The list of these entries, in this order. Takes no memory.
    pub fn of(entries: Vec<Entry<W>>) -> Best<W>
        ensures { result ≡ entries.items }
    {
        Best {
            firsts: Firsts::of(entries),
        }
    }

    /// The entries, in their order. Takes no memory.
    pub fn into_entries(self) -> Vec<Entry<W>>
        ensures { result.items ≡ self }
    {
        self.firsts.into_items()
    }
}
