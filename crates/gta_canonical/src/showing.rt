//! Printing a specification. The canonical text is in specs/Canonical.antt.
ghost use Rattle.std.specs.Prelude.{length, ◌≡◌, ◌++◌, map, flat_map, IfOk, OnOk};
ghost use Rattle.gta_spec.specs.Parts.{part_tree, spec_tree};
ghost use Rattle.gta_spec.specs.WellFormed.{IsWellFormed};
ghost use Rattle.gta_canonical.specs.Canonical.{canonical, part_text, shown_as};
ghost use Rattle.gta_spec.specs.SpecText.{SpecText};

use crate::part_printing::put_part;
use crate::printing::put_digits;
use gta_spec::{Part, Spec};
use std::alloc::{AllocError, Global};

/// The canonical text of the specification: `gta` and its version, each part on a line of its own, and `rows`.
/// Refuses only for want of memory.
pub fn show_spec(alloc: Global, spec: &Spec) -> Result<Vec<u8>, AllocError>
    requires { IsWellFormed (spec_tree spec.now) }
    ensures text { IfOk result (λ text. text.items ≡ canonical (spec_tree spec.now)) }
    // The text is the same specification, its parts on the lines from the second on.
    ensures reads_back { IfOk result
        (λ text. SpecText text.items (shown_as (spec_tree spec.now)) (length text.items)) }
{
    text_of(alloc, spec)
}

fn text_of(alloc: Global, spec: &Spec) -> Result<Vec<u8>, AllocError>
    ensures { IfOk result (λ text. text.items ≡ canonical (spec_tree spec.now)) }
{
    let mut text = Vec::new(alloc);
    text.extend_from_slice(b"gta ")?;
    put_digits(alloc, &mut text, u64::from(spec.version))?;
    text.push(b'\n')?;
    put_parts(alloc, &mut text, &spec.parts)?;
    text.extend_from_slice(b"rows\n")?;
    Ok(text)
}

fn put_parts(alloc: Global, out: &mut Vec<u8>, parts: &[Part]) -> Result<(), AllocError>
    ensures { OnOk result
        (out.new.items ≡ out.old.items ++ flat_map part_text (map part_tree parts.now)) }
{
    for part in parts {
        put_part(alloc, out, part)?;
    }
    Ok(())
}
