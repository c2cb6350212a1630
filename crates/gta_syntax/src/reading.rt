//! Reading a specification. The refusals in their order are in specs/Refused.antt, and as a
//! function in specs/Refusals.antt; which specification a text is, is in gta_spec.
ghost use Rattle.std.specs.Prelude.{◌≡◌, ◌≢◌, ℕ, ◌≤◌, length, map, Ok, Err, IfOk, IsErrOf};
ghost use Rattle.outcome_kit.specs.Outcome.{Tells};
ghost use Rattle.gta_text.specs.Text.{line_view};
ghost use Rattle.gta_text.specs.declared.lines.TheConstants.{INPUT_BOUND};
ghost use Rattle.gta_spec.specs.Parts.{part_tree, SpecTree, spec_tree};
ghost use Rattle.gta_spec.specs.Symbols.{symbol_of};
ghost use Rattle.gta_spec.specs.Versions.{version_named};
ghost use Rattle.gta_syntax.specs.Sources.{symbols_in};
ghost use Rattle.gta_syntax.specs.Rules.{part_at};
ghost use Rattle.gta_spec.specs.SpecText.{SpecText, version_in, first_version, is_past, has_past};
ghost use Rattle.gta_spec.specs.WellFormed.{IsWellFormed};
ghost use Rattle.gta_syntax.specs.Refused.{IsRefused};
ghost use Rattle.gta_syntax.specs.declared.fault.SpecFault.{SpecFault};
ghost use Rattle.gta_syntax.specs.declared.fault.SpecFault.TheVariants.{Memory};
ghost use Rattle.gta_syntax.specs.Refusals.{first_past, the_part, parts_from, read_tree};
ghost use Rattle.gta_syntax.specs.Refusals.{fault_in, spec_of};

use crate::fault::{LineFault, SpecFault};
use crate::line_rules::part_at;
use crate::source::Source;
use crate::symbols::value_of;
use gta_spec::{Part, Spec};
use gta_text::{INPUT_BOUND, Line, NUMBER_BOUND, Token, TokenKind, first_tokens, lines_of};
use std::alloc::{AllocError, Global};

/// A specification, and where the bytes after its line `rows` begin.
#[derive(Debug, Drop)]
pub struct Read {
    pub spec: Spec,
    pub rows_at: u32,
}

/// The specification that the bytes begin with, up to its line `rows`.
pub fn read_spec(alloc: Global, bytes: &[u8]) -> Result<Read, SpecFault>
    requires { length bytes.now ≤ INPUT_BOUND }
    // What is read is the text's specification.
    ensures found { IfOk result (λ read. SpecText bytes.now (spec_tree read.spec) read.rows_at) }
    ensures well_formed { IfOk result (λ read. IsWellFormed (spec_tree read.spec)) }
    // A text that is a specification is read, unless memory runs out.
    ensures only { (spec : SpecTree) (place : ℕ) → SpecText bytes.now spec place
        → Tells fault_in read_tree (Ok (record { spec = spec; rows_at = place })) result }

    // Each refusal comes where it stands, and only there.
    ensures refused { (fault : SpecFault) → IsErrOf result fault → fault ≢ Memory
        → IsRefused bytes.now fault }
    ensures refuses { (fault : SpecFault) → IsRefused bytes.now fault
        → Tells fault_in read_tree (Err fault) result }

    // The same by a function of the bytes.
    ensures tells { Tells fault_in read_tree (spec_of bytes.now) result }
{
    answer_of(alloc, bytes)
}

#[tactic(auto, unfolding(crate::specs::Refusals::spec_of))]
fn answer_of(alloc: Global, bytes: &[u8]) -> Result<Read, SpecFault>
    requires { length bytes.now ≤ INPUT_BOUND }
    ensures { Tells fault_in read_tree (spec_of bytes.now) result }
{
    let lines = lines_of(alloc, bytes)?;
    let Some((first, others)) = lines.lines.split_first() else {
        return Err(SpecFault::Version { line: 1 });
    };
    let Some(version) = version_in(bytes, &first.tokens) else {
        return Err(SpecFault::Version { line: first.number });
    };
    let source = Source { bytes, version };
    let parts = parts_of(alloc, source, others)?;
    if let Some(line) = first_past(source, others) {
        return Err(SpecFault::Number { line });
    }
    let Some(rows_at) = lines.rows_at else {
        return Err(SpecFault::NoRows);
    };
    let spec = Spec { version, parts };
    Ok(Read { spec, rows_at })
}

/// The version that the first line with tokens names, whatever bytes the lines hold. Refuses only for want of memory.
#[tactic(auto, unfolding(gta_spec::specs::SpecText::first_version))]
pub fn first_version(alloc: Global, bytes: &[u8]) -> Result<Option<u8>, AllocError>
    requires { length bytes.now ≤ INPUT_BOUND }
    ensures { IfOk result (λ version. version ≡ first_version bytes.now) }
{
    let tokens = first_tokens(alloc, bytes)?;
    Ok(version_in(bytes, &tokens))
}

/// The version that the tokens name.
fn version_in(bytes: &[u8], tokens: &[Token]) -> Option<u8>
    ensures { result ≡ version_in bytes.now tokens.now }
{
    match tokens {
        [word, digits]
            if word.kind == TokenKind::Word
                && word.text(bytes) == b"gta".as_slice()
                && digits.kind == TokenKind::Digits => { version_named(digits.text(bytes)) }
        _ => None,
    }
}

fn version_named(digits: &[u8]) -> Option<u8>
    ensures { result ≡ version_named digits.now }
{
    if digits == b"1".as_slice() {
        Some(1)
    } else if digits == b"2".as_slice() {
        Some(2)
    } else if digits == b"3".as_slice() {
        Some(3)
    } else {
        None
    }
}

/// The parts of the lines; `Grammar` names the first line that has none.
fn parts_of(alloc: Global, source: Source<'_>, lines: &[Line]) -> Result<Vec<Part>, SpecFault>
    ensures { Tells fault_in (λ parts. map part_tree parts.items)
        (parts_from source.entry.version source.entry.bytes.now (map line_view lines.now)) result }
{
    let mut parts = Vec::new(alloc);
    for line in lines {
        let part = part_of(alloc, source, line)?;
        parts.push(part)?;
    }
    Ok(parts)
}

fn part_of(alloc: Global, source: Source<'_>, line: &Line) -> Result<Part, SpecFault>
    ensures { Tells fault_in part_tree
        (the_part line.now.number
        (part_at source.entry.version (symbols_in source.entry line.now.tokens.items))) result }
{
    let number = line.number;
    match part_at(alloc, source, &line.tokens) {
        Ok(kind) => Ok(Part { line: number, kind }),
        Err(LineFault::Grammar) => Err(SpecFault::Grammar { line: number }),
        Err(LineFault::Memory) => Err(SpecFault::Memory),
    }
}

/// The number of the first line that has a number past the bound.
fn first_past(source: Source<'_>, lines: &[Line]) -> Option<u32>
    ensures { result ≡ first_past source.entry.version source.entry.bytes.now (map line_view lines.now) }
{
    for line in lines {
        if has_past(source, &line.tokens) {
            return Some(line.number);
        }
    }
    None
}

fn has_past(source: Source<'_>, tokens: &[Token]) -> bool
    ensures { result ≡ has_past source.entry.version source.entry.bytes.now tokens.now }
{
    tokens.iter().any(|token| is_past(source, token))
}

fn is_past(source: Source<'_>, token: &Token) -> bool
    ensures { result ≡ is_past (symbol_of source.entry.version source.entry.bytes.now token.now) }
{
    match token.kind {
        TokenKind::Digits => value_of(token.text(source.bytes)) > NUMBER_BOUND,
        _ => false,
    }
}
