//! The first declarations of a specification, and the first name that is declared twice.

ghost use Rattle.std.specs.Prelude.{◌≡◌, map, IfOk, option_map, Some, None, if◌then◌else◌};
ghost use Rattle.std.specs.Option.{option_or};
ghost use Rattle.gta_types.specs.Names.{declared_twice};
ghost use Rattle.gta_types.specs.Index.{declaration, declared_place, place, IsIndex};

use crate::declaring::Declared;
use crate::names::{Names, Place};
use std::alloc::{AllocError, Global};

/// The first declarations, and where a name is first declared again.
#[derive(Drop)]
pub(crate) struct Index<'a> {
    pub(crate) names: Names<'a>,
    pub(crate) twice: Option<Place<'a>>,
}

/// The index of these declarations, in one pass.
pub(crate) fn index_of<'a>(alloc: Global, all: &[Declared<'a>]) -> Result<Index<'a>, AllocError>
    ensures names { IfOk result (λ index. IsIndex index.names (map declaration all.now)) }
    ensures twice { IfOk result (λ index. option_map place index.twice
        ≡ option_map declared_place (declared_twice (map declaration all.now))) }
{
    let mut names = Names::new(alloc);
    let mut twice = None;
    for d in all {
        let again = names.add(d.scope(), d.name.bytes(), d.found())?;
        twice = first_place(twice, again, d);
    }
    Ok(Index { names, twice })
}

/// The place that is there, or else the place of a name that is declared again.
fn first_place<'a>(twice: Option<Place<'a>>, again: bool, d: &Declared<'a>) -> Option<Place<'a>>
    ensures { option_map place result ≡ option_or (option_map place twice.entry)
        (if again then Some (declared_place (declaration d.now)) else None) }
{
    match twice {
        Some(place) => Some(place),
        None if again => Some(Place {
            line: d.line,
            name: d.name,
        }),
        None => None,
    }
}
