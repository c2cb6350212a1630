//! The candidates that pass, one by one.

ghost use Rattle.std.specs.Prelude.{◌≡◌, ◌<◌, IfOk, IsErrOf, OnOk, false, true};
ghost use Rattle.gta_checked.specs.PlainRows.{plain_rows};
ghost use Rattle.gta_meaning.specs.declared.listing.ListFault.TheVariants.{Memory};
ghost use Rattle.gta_meaning.specs.declared.listing.ListFault.TheVariants as faults;
ghost use Rattle.gta_meaning.specs.InRange.{HasColumnsOf};
ghost use Rattle.gta_meaning.specs.Kept.{kept};
ghost use Rattle.gta_meaning.specs.Listed.{is_too_many, marks_of};

use crate::candidate::{Candidate, label_count};
use crate::elements::accepted_elements;
use crate::numbered::candidate_at;
use crate::passing::passes_by;
use gta_checked::{Checked, Rows};
use shape_gen::sizes;
use std::alloc::{AllocError, AllocFailed, Global};

/// Why candidates are not listed.
#[derive(Clone, Copy, PartialEq, Eq, Debug)]
pub enum ListFault {
    /// More are generated, or they have more marks together, than is allowed.
    TooMany,
    /// Memory was wanting.
    Memory,
}

impl From<AllocError> for ListFault {
    ghost from_gives = { λ _ fault. fault ≡ Memory };

    fn from(_: AllocError) -> ListFault {
        ListFault::Memory
    }
}

impl<T: Drop> From<AllocFailed<T>> for ListFault {
    ghost from_gives = { λ _ fault. fault ≡ Memory };

    fn from(_: AllocFailed<T>) -> ListFault {
        ListFault::Memory
    }
}

/// The candidates that pass, in the order of their list. One is made at a time, and dropped where it doesn't pass.
/// Where more than `most` are generated, or those have more than `most_marks` marks, none is made.
pub fn list_kept(
    alloc: Global,
    checked: &Checked,
    rows: &Rows,
    most: u64,
    most_marks: u64,
) -> Result<Vec<Candidate>, ListFault>
    requires columns { HasColumnsOf checked.now (plain_rows rows.now) }
    requires most_is_counted { most < 18446744073709551615 }
    requires most_marks_are_counted { most_marks < 18446744073709551615 }
    ensures kept { IfOk result (λ list. marks_of list.items ≡ kept checked.now (plain_rows rows.now)) }
    ensures few { OnOk result (is_too_many checked.now (plain_rows rows.now) most most_marks ≡ false) }
    ensures too_many { IsErrOf result faults.TooMany
        → is_too_many checked.now (plain_rows rows.now) most most_marks ≡ true }
{
    let shape = *checked.shape();
    let labels = label_count(checked);
    let extent = sizes(shape, rows.count, labels);
    if extent.candidates > most || extent.marks > most_marks {
        return Err(ListFault::TooMany);
    }
    // Made once, since lists of accepted elements may be long, and candidates many.
    let accepted = accepted_elements(alloc, checked)?;
    let mut list = Vec::new(alloc);
    for number in 0..extent.candidates {
        let candidate = candidate_at(alloc, shape, rows.count, labels, extent.candidates, number)?;
        if passes_by(checked, rows, &accepted, &candidate) {
            list.push(candidate)?;
        }
    }
    Ok(list)
}
