//! Printing the expression of a line `keep`. What is printed is in specs/Canonical.antt, and
//! specs/Places.antt says which place each of ours is.
ghost use Rattle.std.specs.Prelude.{◌≡◌, [], ◌++◌, OnOk};
ghost use Rattle.gta_spec.specs.Keep.{encloses_both, encloses_either};
ghost use Rattle.gta_spec.specs.Parts.{Keep, keep_tree};
ghost use Rattle.gta_canonical.specs.Canonical.{line_text, open_front, close_front, keep_front, kind_front};
ghost use Rattle.gta_canonical.specs.Places.{place_of};

use crate::printing::{put_behind, put_spaced};
use gta_spec::KeepPart;
use std::alloc::AllocError;

/// Where an expression stands: as a whole or before an `or`; behind an `or` or before an `and`; or
/// behind an `and` or a `not`.
#[derive(Clone, Copy)]
pub(crate) enum Place {
    Whole,
    Conjunct,
    Operand,
}

fn encloses_both(place: Place) -> bool
    ensures { result ≡ encloses_both (place_of place) }
{
    match place {
        Place::Whole | Place::Conjunct => false,
        Place::Operand => true,
    }
}

fn encloses_either(place: Place) -> bool
    ensures { result ≡ encloses_either (place_of place) }
{
    match place {
        Place::Whole => false,
        Place::Conjunct | Place::Operand => true,
    }
}

fn put_open(out: &mut Vec<u8>, enclosed: bool, glued: bool) -> Result<(), AllocError>
    ensures { OnOk result
        (out.new.items ≡ out.old.items ++ line_text (open_front enclosed glued [])) }
{
    if enclosed {
        put_behind(out, glued, b"(")
    } else {
        Ok(())
    }
}

fn put_close(out: &mut Vec<u8>, enclosed: bool) -> Result<(), AllocError>
    ensures { OnOk result (out.new.items ≡ out.old.items ++ line_text (close_front enclosed [])) }
{
    if enclosed {
        out.push(b')')?;
    }
    Ok(())
}

/// The expression as it stands at the place, behind a space or not.
fn put_keep(out: &mut Vec<u8>, place: Place, glued: bool, keep: &KeepPart) -> Result<(), AllocError>
    ensures { OnOk result (out.new.items ≡ out.old.items
        ++ line_text (keep_front (place_of place) glued (keep_tree keep.now) [])) }
{
    match keep {
        KeepPart::Test(name) => put_behind(out, glued, name.bytes()),
        KeepPart::Not(inner) => {
            put_behind(out, glued, b"not")?;
            put_keep(out, Place::Operand, false, inner)
        }
        KeepPart::Both(left, right) => {
            let enclosed = encloses_both(place);
            put_open(out, enclosed, glued)?;
            put_keep(out, Place::Conjunct, enclosed | glued, left)?;
            put_spaced(out, b"and")?;
            put_keep(out, Place::Operand, false, right)?;
            put_close(out, enclosed)
        }
        KeepPart::Either(left, right) => {
            let enclosed = encloses_either(place);
            put_open(out, enclosed, glued)?;
            put_keep(out, Place::Whole, enclosed | glued, left)?;
            put_spaced(out, b"or")?;
            put_keep(out, Place::Conjunct, false, right)?;
            put_close(out, enclosed)
        }
    }
}

pub(crate) fn put_keep_line(out: &mut Vec<u8>, keep: &KeepPart) -> Result<(), AllocError>
    ensures { OnOk result (out.new.items ≡ out.old.items
        ++ line_text (kind_front (Keep (keep_tree keep.now)) [])) }
{
    out.extend_from_slice(b"keep")?;
    put_keep(out, Place::Whole, false, keep)
}
