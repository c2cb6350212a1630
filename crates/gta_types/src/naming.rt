//! The faults of the names: unknown ones, and those declared twice.

ghost use Rattle.std.specs.Prelude.{map};
ghost use Rattle.outcome_kit.specs.Outcome.{Passes};
ghost use Rattle.gta_spec.specs.Parts.{part_tree};
ghost use Rattle.gta_types.specs.Faults.{fault_in, name_fault};
ghost use Rattle.gta_types.specs.Ready.{Ascend};

use crate::declaring::declared_in;
use crate::fault::CheckFault;
use crate::index::index_of;
use crate::uses::unknown_in;
use gta_spec::Part;
use gta_text::Name;
use std::alloc::Global;

/// Looks for the first fault of the names: all uses before the names declared twice.
pub(crate) fn check_names(alloc: Global, parts: &[Part]) -> Result<(), CheckFault>
    requires ascend { Ascend 0 (map part_tree parts.now) }
    ensures tells { Passes fault_in (name_fault (map part_tree parts.now)) result }
{
    let all = declared_in(alloc, parts)?;
    let index = index_of(alloc, all.as_slice())?;
    if let Some(place) = unknown_in(&index.names, parts) {
        let name = Name::of(alloc, place.name.bytes())?;
        return Err(CheckFault::Unknown {
            line: place.line,
            name,
        });
    }
    if let Some(place) = index.twice {
        let name = Name::of(alloc, place.name.bytes())?;
        return Err(CheckFault::Twice {
            line: place.line,
            name,
        });
    }
    Ok(())
}
