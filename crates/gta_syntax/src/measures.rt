//! Reading the cases of measures and the picks of folds and runs: each function gives what the
//! definition of its name in specs/Rules.antt gives.
ghost use Rattle.std.specs.Prelude.{◌≡◌, ℕ, length, map, codes};
ghost use Rattle.gta_spec.specs.Parts.{case_tree, pick_tree};
ghost use Rattle.gta_syntax.specs.Sources.{symbols_in};
ghost use Rattle.gta_syntax.specs.Rules.{Gives, many, list_at, begins_sign, begins_next_term};
ghost use Rattle.gta_syntax.specs.Rules.{term_at, first_term_at, next_term_at, form_at, case_at};
ghost use Rattle.gta_syntax.specs.Rules.{next_case_at, cases_at, pick_at, next_pick_at, picks_at};

use crate::fault::LineFault;
use crate::rules::if_at;
use crate::source::Source;
use crate::symbols::{begins_sign, name_at, number, sign, sign_at};
use gta_spec::{CasePart, PickPart, TermPart};
use gta_text::Token;
use std::alloc::Global;

#[tactic(auto, unfolding(crate::specs::Rules::term_at))]
fn term_at<'t>(
    alloc: Global,
    source: Source<'_>,
    minus: bool,
    tokens: &'t [Token],
) -> Result<(TermPart, &'t [Token]), LineFault>
    ensures { Gives (λ x. (x.0, symbols_in source.entry x.1.now)) result
        (term_at minus (symbols_in source.entry tokens.now)) }
{
    if let Some((value, rest)) = number(source, tokens) {
        let number = Some(value);
        if let Some(after) = sign(source, b"*", rest) {
            let (column, after) = name_at(alloc, source, after)?;
            let name = Some(column);
            return Ok((
                TermPart {
                    minus,
                    number,
                    name,
                },
                after,
            ));
        }
        let name = None;
        return Ok((
            TermPart {
                minus,
                number,
                name,
            },
            rest,
        ));
    }
    let (column, rest) = name_at(alloc, source, tokens)?;
    let name = Some(column);
    let number = None;
    Ok((
        TermPart {
            minus,
            number,
            name,
        },
        rest,
    ))
}

#[tactic(auto, unfolding(crate::specs::Rules::first_term_at))]
fn first_term_at<'t>(
    alloc: Global,
    source: Source<'_>,
    tokens: &'t [Token],
) -> Result<(TermPart, &'t [Token]), LineFault>
    ensures { Gives (λ x. (x.0, symbols_in source.entry x.1.now)) result
        (first_term_at (symbols_in source.entry tokens.now)) }
{
    match sign(source, b"-", tokens) {
        Some(rest) => term_at(alloc, source, true, rest),
        None => term_at(alloc, source, false, tokens),
    }
}

#[tactic(auto, unfolding(crate::specs::Rules::next_term_at))]
fn next_term_at<'t>(
    alloc: Global,
    source: Source<'_>,
    tokens: &'t [Token],
) -> Result<(TermPart, &'t [Token]), LineFault>
    ensures { Gives (λ x. (x.0, symbols_in source.entry x.1.now)) result
        (next_term_at (symbols_in source.entry tokens.now)) }
{
    if let Some(rest) = sign(source, b"+", tokens) {
        return term_at(alloc, source, false, rest);
    }
    let rest = sign_at(source, b"-", tokens)?;
    term_at(alloc, source, true, rest)
}

fn begins_next_term(source: Source<'_>, tokens: &[Token]) -> bool
    ensures { result ≡ begins_next_term (symbols_in source.entry tokens.now) }
{
    begins_sign(source, b"+", tokens) || begins_sign(source, b"-", tokens)
}

#[tactic(auto, unfolding(crate::specs::Rules::list_at))]
fn form_at<'t>(
    alloc: Global,
    source: Source<'_>,
    tokens: &'t [Token],
) -> Result<(Vec<TermPart>, &'t [Token]), LineFault>
    ensures { Gives (λ x. (x.0.items, symbols_in source.entry x.1.now)) result
        (form_at (symbols_in source.entry tokens.now)) }
{
    let (first, rest) = first_term_at(alloc, source, tokens)?;
    let (mut terms, rest) = more_terms(alloc, source, rest)?;
    terms.insert(0, first)?;
    Ok((terms, rest))
}

fn more_terms<'t>(
    alloc: Global,
    source: Source<'_>,
    tokens: &'t [Token],
) -> Result<(Vec<TermPart>, &'t [Token]), LineFault>
    ensures { Gives (λ x. (x.0.items, symbols_in source.entry x.1.now)) result
        (many begins_next_term next_term_at (length tokens.now) (symbols_in source.entry tokens.now)) }
{
    let mut terms = Vec::new(alloc);
    let mut rest = tokens;
    for _ in 0..tokens.len() {
        if !begins_next_term(source, rest) {
            return Ok((terms, rest));
        }
        let (term, after) = next_term_at(alloc, source, rest)?;
        terms.push(term)?;
        rest = after;
    }
    Ok((terms, rest))
}

#[tactic(auto, unfolding(crate::specs::Rules::case_at))]
fn case_at<'t>(
    alloc: Global,
    source: Source<'_>,
    tokens: &'t [Token],
) -> Result<(CasePart, &'t [Token]), LineFault>
    ensures { Gives (λ x. (case_tree x.0, symbols_in source.entry x.1.now)) result
        (case_at (symbols_in source.entry tokens.now)) }
{
    let (form, rest) = form_at(alloc, source, tokens)?;
    let (cond, rest) = if_at(alloc, source, rest)?;
    Ok((CasePart { form, cond }, rest))
}

#[tactic(auto, unfolding(crate::specs::Rules::next_case_at))]
fn next_case_at<'t>(
    alloc: Global,
    source: Source<'_>,
    tokens: &'t [Token],
) -> Result<(CasePart, &'t [Token]), LineFault>
    ensures { Gives (λ x. (case_tree x.0, symbols_in source.entry x.1.now)) result
        (next_case_at (symbols_in source.entry tokens.now)) }
{
    let rest = sign_at(source, b";", tokens)?;
    case_at(alloc, source, rest)
}

#[tactic(auto, unfolding(crate::specs::Rules::list_at))]
pub(crate) fn cases_at<'t>(
    alloc: Global,
    source: Source<'_>,
    tokens: &'t [Token],
) -> Result<(Vec<CasePart>, &'t [Token]), LineFault>
    ensures { Gives (λ x. (map case_tree x.0.items, symbols_in source.entry x.1.now)) result
        (cases_at (symbols_in source.entry tokens.now)) }
{
    let (first, rest) = case_at(alloc, source, tokens)?;
    let (mut cases, rest) = more_cases(alloc, source, rest)?;
    cases.insert(0, first)?;
    Ok((cases, rest))
}

fn more_cases<'t>(
    alloc: Global,
    source: Source<'_>,
    tokens: &'t [Token],
) -> Result<(Vec<CasePart>, &'t [Token]), LineFault>
    ensures { Gives (λ x. (map case_tree x.0.items, symbols_in source.entry x.1.now)) result
        (many (begins_sign (codes ";")) next_case_at (length tokens.now)
        (symbols_in source.entry tokens.now)) }
{
    let mut cases = Vec::new(alloc);
    let mut rest = tokens;
    for _ in 0..tokens.len() {
        if !begins_sign(source, b";", rest) {
            return Ok((cases, rest));
        }
        let (case, after) = next_case_at(alloc, source, rest)?;
        cases.push(case)?;
        rest = after;
    }
    Ok((cases, rest))
}

#[tactic(auto, unfolding(crate::specs::Rules::pick_at))]
fn pick_at<'t>(
    alloc: Global,
    source: Source<'_>,
    tokens: &'t [Token],
) -> Result<(PickPart, &'t [Token]), LineFault>
    ensures { Gives (λ x. (pick_tree x.0, symbols_in source.entry x.1.now)) result
        (pick_at (symbols_in source.entry tokens.now)) }
{
    let (element, rest) = name_at(alloc, source, tokens)?;
    let (cond, rest) = if_at(alloc, source, rest)?;
    Ok((PickPart { element, cond }, rest))
}

#[tactic(auto, unfolding(crate::specs::Rules::next_pick_at))]
fn next_pick_at<'t>(
    alloc: Global,
    source: Source<'_>,
    tokens: &'t [Token],
) -> Result<(PickPart, &'t [Token]), LineFault>
    ensures { Gives (λ x. (pick_tree x.0, symbols_in source.entry x.1.now)) result
        (next_pick_at (symbols_in source.entry tokens.now)) }
{
    let rest = sign_at(source, b";", tokens)?;
    pick_at(alloc, source, rest)
}

#[tactic(auto, unfolding(crate::specs::Rules::list_at))]
pub(crate) fn picks_at<'t>(
    alloc: Global,
    source: Source<'_>,
    tokens: &'t [Token],
) -> Result<(Vec<PickPart>, &'t [Token]), LineFault>
    ensures { Gives (λ x. (map pick_tree x.0.items, symbols_in source.entry x.1.now)) result
        (picks_at (symbols_in source.entry tokens.now)) }
{
    let (first, rest) = pick_at(alloc, source, tokens)?;
    let (mut picks, rest) = more_picks(alloc, source, rest)?;
    picks.insert(0, first)?;
    Ok((picks, rest))
}

fn more_picks<'t>(
    alloc: Global,
    source: Source<'_>,
    tokens: &'t [Token],
) -> Result<(Vec<PickPart>, &'t [Token]), LineFault>
    ensures { Gives (λ x. (map pick_tree x.0.items, symbols_in source.entry x.1.now)) result
        (many (begins_sign (codes ";")) next_pick_at (length tokens.now)
        (symbols_in source.entry tokens.now)) }
{
    let mut picks = Vec::new(alloc);
    let mut rest = tokens;
    for _ in 0..tokens.len() {
        if !begins_sign(source, b";", rest) {
            return Ok((picks, rest));
        }
        let (pick, after) = next_pick_at(alloc, source, rest)?;
        picks.push(pick)?;
        rest = after;
    }
    Ok((picks, rest))
}
