//! Reading names, numbers, columns and conditions: each function gives what the definition of its
//! name in specs/Rules.antt gives.
ghost use Rattle.std.specs.Prelude.{◌≡◌, ℕ, length, codes};
ghost use Rattle.gta_syntax.specs.Sources.{symbols_in};
ghost use Rattle.gta_syntax.specs.Rules.{Gives, many, list_at, begins_name, begins_word, name_at};
ghost use Rattle.gta_syntax.specs.Rules.{names_at, num_at, item_at, cmp_at, atom_at, and_at};
ghost use Rattle.gta_syntax.specs.Rules.{cond_at, if_at};

use crate::fault::LineFault;
use crate::source::Source;
use crate::symbols::{
    begins_name, begins_word, digits_at, name_at, sign, sign_at, text_at, word, word_at,
};
use gta_spec::{AtomPart, Cmp, ColumnItem};
use gta_text::{Name, Token};
use std::alloc::Global;

#[tactic(auto, unfolding(crate::specs::Rules::list_at))]
pub(crate) fn names_at<'t>(
    alloc: Global,
    source: Source<'_>,
    tokens: &'t [Token],
) -> Result<(Vec<Name>, &'t [Token]), LineFault>
    ensures { Gives (λ x. (x.0.items, symbols_in source.entry x.1.now)) result
        (names_at (symbols_in source.entry tokens.now)) }
{
    let (first, rest) = name_at(alloc, source, tokens)?;
    let (mut names, rest) = more_names(alloc, source, rest)?;
    names.insert(0, first)?;
    Ok((names, rest))
}

fn more_names<'t>(
    alloc: Global,
    source: Source<'_>,
    tokens: &'t [Token],
) -> Result<(Vec<Name>, &'t [Token]), LineFault>
    ensures { Gives (λ x. (x.0.items, symbols_in source.entry x.1.now)) result
        (many begins_name name_at (length tokens.now) (symbols_in source.entry tokens.now)) }
{
    let mut names = Vec::new(alloc);
    let mut rest = tokens;
    for _ in 0..tokens.len() {
        if !begins_name(source, rest) {
            return Ok((names, rest));
        }
        let (name, after) = name_at(alloc, source, rest)?;
        names.push(name)?;
        rest = after;
    }
    Ok((names, rest))
}

#[tactic(auto, unfolding(crate::specs::Rules::num_at))]
pub(crate) fn num_at<'t>(
    source: Source<'_>,
    tokens: &'t [Token],
) -> Result<(i64, &'t [Token]), LineFault>
    ensures { Gives (λ x. (x.0, symbols_in source.entry x.1.now)) result
        (num_at (symbols_in source.entry tokens.now)) }
{
    if let Some(rest) = sign(source, b"-", tokens) {
        let (number, rest) = digits_at(source, rest)?;
        return Ok((-(number as i64), rest));
    }
    let (number, rest) = digits_at(source, tokens)?;
    Ok((number as i64, rest))
}

#[tactic(auto, unfolding(crate::specs::Rules::item_at))]
fn item_at<'t>(
    alloc: Global,
    source: Source<'_>,
    tokens: &'t [Token],
) -> Result<(ColumnItem, &'t [Token]), LineFault>
    ensures { Gives (λ x. (x.0, symbols_in source.entry x.1.now)) result
        (item_at (symbols_in source.entry tokens.now)) }
{
    let (name, rest) = name_at(alloc, source, tokens)?;
    if let Some(after) = sign(source, b"=", rest) {
        let (text, after) = text_at(alloc, source, after)?;
        let header = Some(text);
        return Ok((ColumnItem { name, header }, after));
    }
    let header = None;
    Ok((ColumnItem { name, header }, rest))
}

#[tactic(auto, unfolding(crate::specs::Rules::list_at))]
pub(crate) fn items_at<'t>(
    alloc: Global,
    source: Source<'_>,
    tokens: &'t [Token],
) -> Result<(Vec<ColumnItem>, &'t [Token]), LineFault>
    ensures { Gives (λ x. (x.0.items, symbols_in source.entry x.1.now)) result
        (list_at item_at begins_name item_at (symbols_in source.entry tokens.now)) }
{
    let (first, rest) = item_at(alloc, source, tokens)?;
    let (mut items, rest) = more_items(alloc, source, rest)?;
    items.insert(0, first)?;
    Ok((items, rest))
}

fn more_items<'t>(
    alloc: Global,
    source: Source<'_>,
    tokens: &'t [Token],
) -> Result<(Vec<ColumnItem>, &'t [Token]), LineFault>
    ensures { Gives (λ x. (x.0.items, symbols_in source.entry x.1.now)) result
        (many begins_name item_at (length tokens.now) (symbols_in source.entry tokens.now)) }
{
    let mut items = Vec::new(alloc);
    let mut rest = tokens;
    for _ in 0..tokens.len() {
        if !begins_name(source, rest) {
            return Ok((items, rest));
        }
        let (item, after) = item_at(alloc, source, rest)?;
        items.push(item)?;
        rest = after;
    }
    Ok((items, rest))
}

#[tactic(auto, unfolding(crate::specs::Rules::cmp_at))]
pub(crate) fn cmp_at<'t>(
    source: Source<'_>,
    tokens: &'t [Token],
) -> Result<(Cmp, &'t [Token]), LineFault>
    ensures { Gives (λ x. (x.0, symbols_in source.entry x.1.now)) result
        (cmp_at (symbols_in source.entry tokens.now)) }
{
    if let Some(rest) = sign(source, b"<=", tokens) {
        return Ok((Cmp::AtMost, rest));
    }
    if let Some(rest) = sign(source, b">=", tokens) {
        return Ok((Cmp::AtLeast, rest));
    }
    let rest = sign_at(source, b"=", tokens)?;
    Ok((Cmp::Equal, rest))
}

#[tactic(auto, unfolding(crate::specs::Rules::atom_at))]
fn atom_at<'t>(
    alloc: Global,
    source: Source<'_>,
    tokens: &'t [Token],
) -> Result<(AtomPart, &'t [Token]), LineFault>
    ensures { Gives (λ x. (x.0, symbols_in source.entry x.1.now)) result
        (atom_at (symbols_in source.entry tokens.now)) }
{
    if let Some(rest) = word(source, b"label", tokens) {
        let (label, rest) = name_at(alloc, source, rest)?;
        return Ok((AtomPart::Label(label), rest));
    }
    let (name, rest) = name_at(alloc, source, tokens)?;
    let (cmp, rest) = cmp_at(source, rest)?;
    let (number, rest) = num_at(source, rest)?;
    Ok((AtomPart::Column { name, cmp, number }, rest))
}

#[tactic(auto, unfolding(crate::specs::Rules::and_at))]
fn and_at<'t>(
    alloc: Global,
    source: Source<'_>,
    tokens: &'t [Token],
) -> Result<(AtomPart, &'t [Token]), LineFault>
    ensures { Gives (λ x. (x.0, symbols_in source.entry x.1.now)) result
        (and_at (symbols_in source.entry tokens.now)) }
{
    let rest = word_at(source, b"and", tokens)?;
    atom_at(alloc, source, rest)
}

#[tactic(auto, unfolding(crate::specs::Rules::list_at))]
fn cond_at<'t>(
    alloc: Global,
    source: Source<'_>,
    tokens: &'t [Token],
) -> Result<(Vec<AtomPart>, &'t [Token]), LineFault>
    ensures { Gives (λ x. (x.0.items, symbols_in source.entry x.1.now)) result
        (cond_at (symbols_in source.entry tokens.now)) }
{
    let (first, rest) = atom_at(alloc, source, tokens)?;
    let (mut atoms, rest) = more_atoms(alloc, source, rest)?;
    atoms.insert(0, first)?;
    Ok((atoms, rest))
}

fn more_atoms<'t>(
    alloc: Global,
    source: Source<'_>,
    tokens: &'t [Token],
) -> Result<(Vec<AtomPart>, &'t [Token]), LineFault>
    ensures { Gives (λ x. (x.0.items, symbols_in source.entry x.1.now)) result
        (many (begins_word (codes "and")) and_at (length tokens.now)
        (symbols_in source.entry tokens.now)) }
{
    let mut atoms = Vec::new(alloc);
    let mut rest = tokens;
    for _ in 0..tokens.len() {
        if !begins_word(source, b"and", rest) {
            return Ok((atoms, rest));
        }
        let (atom, after) = and_at(alloc, source, rest)?;
        atoms.push(atom)?;
        rest = after;
    }
    Ok((atoms, rest))
}

#[tactic(auto, unfolding(crate::specs::Rules::if_at))]
pub(crate) fn if_at<'t>(
    alloc: Global,
    source: Source<'_>,
    tokens: &'t [Token],
) -> Result<(Vec<AtomPart>, &'t [Token]), LineFault>
    ensures { Gives (λ x. (x.0.items, symbols_in source.entry x.1.now)) result
        (if_at (symbols_in source.entry tokens.now)) }
{
    match word(source, b"if", tokens) {
        Some(rest) => cond_at(alloc, source, rest),
        None => Ok((Vec::new(alloc), tokens)),
    }
}
