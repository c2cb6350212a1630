//! Printing the parts of a line. What is printed is in specs/Canonical.antt; each function adds
//! what the definition of its name with `_front` says.
ghost use Rattle.std.specs.Prelude.{◌≡◌, ℕ, [], ◌∷◌, ◌++◌, map, IfOk, OnOk, decimal, string_bytes};
ghost use Rattle.std.specs.Prelude.{if◌then◌else◌};
ghost use Rattle.std.specs.Fmt.{signed_decimal};
ghost use Rattle.gta_canonical.specs.Canonical.{line_text, fronts, name_front, names_front, num_front};
ghost use Rattle.gta_canonical.specs.Canonical.{item_front, cmp_text, atom_front, and_front, if_front};

use gta_spec::{AtomPart, Cmp, ColumnItem};
use gta_text::Name;
use std::alloc::{AllocError, Global};

/// A space and the text.
pub(crate) fn put_spaced(out: &mut Vec<u8>, text: &[u8]) -> Result<(), AllocError>
    ensures { OnOk result (out.new.items ≡ out.old.items ++ 32 ∷ text.now) }
{
    out.push(b' ')?;
    out.extend_from_slice(text)
}

/// The text, behind a space or not.
pub(crate) fn put_behind(out: &mut Vec<u8>, glued: bool, text: &[u8]) -> Result<(), AllocError>
    ensures { OnOk result
        (out.new.items ≡ out.old.items ++ ((if glued then [] else 32 ∷ []) ++ text.now)) }
{
    if glued {
        out.extend_from_slice(text)
    } else {
        put_spaced(out, text)
    }
}

pub(crate) fn put_digits(alloc: Global, out: &mut Vec<u8>, number: u64) -> Result<(), AllocError>
    ensures { OnOk result (out.new.items ≡ out.old.items ++ decimal number) }
{
    let text = format!(in alloc; "{number}")?;
    out.extend_from_slice(text.as_bytes())
}

pub(crate) fn put_number(alloc: Global, out: &mut Vec<u8>, number: u64) -> Result<(), AllocError>
    ensures { OnOk result (out.new.items ≡ out.old.items ++ 32 ∷ decimal number) }
{
    out.push(b' ')?;
    put_digits(alloc, out, number)
}

#[tactic(auto, using(crate::proofs::Fronts::num_text))]
pub(crate) fn put_num(alloc: Global, out: &mut Vec<u8>, number: i64) -> Result<(), AllocError>
    ensures { OnOk result (out.new.items ≡ out.old.items ++ line_text (num_front number [])) }
{
    let text = format!(in alloc; "{number}")?;
    put_spaced(out, text.as_bytes())
}

pub(crate) fn put_names(out: &mut Vec<u8>, names: &[Name]) -> Result<(), AllocError>
    ensures { OnOk result (out.new.items ≡ out.old.items ++ line_text (names_front names.now [])) }
{
    for name in names {
        put_name(out, name)?;
    }
    Ok(())
}

pub(crate) fn put_name(out: &mut Vec<u8>, name: &Name) -> Result<(), AllocError>
    ensures { OnOk result (out.new.items ≡ out.old.items ++ line_text (name_front name.now [])) }
{
    put_spaced(out, name.bytes())
}

fn put_item(out: &mut Vec<u8>, item: &ColumnItem) -> Result<(), AllocError>
    ensures { OnOk result (out.new.items ≡ out.old.items ++ line_text (item_front item.now [])) }
{
    put_spaced(out, item.name.bytes())?;
    if let Some(header) = &item.header {
        out.extend_from_slice(b"=\"")?;
        out.extend_from_slice(header.bytes())?;
        out.push(b'"')?;
    }
    Ok(())
}

pub(crate) fn put_items(out: &mut Vec<u8>, items: &[ColumnItem]) -> Result<(), AllocError>
    ensures { OnOk result
        (out.new.items ≡ out.old.items ++ line_text (fronts item_front items.now [])) }
{
    for item in items {
        put_item(out, item)?;
    }
    Ok(())
}

pub(crate) fn put_cmp(out: &mut Vec<u8>, cmp: Cmp) -> Result<(), AllocError>
    ensures { OnOk result (out.new.items ≡ out.old.items ++ 32 ∷ cmp_text cmp) }
{
    match cmp {
        Cmp::AtMost => put_spaced(out, b"<="),
        Cmp::AtLeast => put_spaced(out, b">="),
        Cmp::Equal => put_spaced(out, b"="),
    }
}

fn put_atom(alloc: Global, out: &mut Vec<u8>, atom: &AtomPart) -> Result<(), AllocError>
    ensures { OnOk result (out.new.items ≡ out.old.items ++ line_text (atom_front atom.now [])) }
{
    match atom {
        AtomPart::Label(label) => {
            put_spaced(out, b"label")?;
            put_spaced(out, label.bytes())
        }
        AtomPart::Column { name, cmp, number } => {
            put_spaced(out, name.bytes())?;
            put_cmp(out, *cmp)?;
            put_num(alloc, out, *number)
        }
    }
}

fn put_and(alloc: Global, out: &mut Vec<u8>, atom: &AtomPart) -> Result<(), AllocError>
    ensures { OnOk result (out.new.items ≡ out.old.items ++ line_text (and_front atom.now [])) }
{
    put_spaced(out, b"and")?;
    put_atom(alloc, out, atom)
}

fn put_more_atoms(alloc: Global, out: &mut Vec<u8>, atoms: &[AtomPart]) -> Result<(), AllocError>
    ensures { OnOk result
        (out.new.items ≡ out.old.items ++ line_text (fronts and_front atoms.now [])) }
{
    for atom in atoms {
        put_and(alloc, out, atom)?;
    }
    Ok(())
}

#[tactic(auto, using(crate::proofs::Fronts::atom_splits))]
pub(crate) fn put_if(alloc: Global, out: &mut Vec<u8>, atoms: &[AtomPart]) -> Result<(), AllocError>
    ensures { OnOk result (out.new.items ≡ out.old.items ++ line_text (if_front atoms.now [])) }
{
    let Some((first, others)) = atoms.split_first() else {
        return Ok(());
    };
    put_spaced(out, b"if")?;
    put_atom(alloc, out, first)?;
    put_more_atoms(alloc, out, others)
}
