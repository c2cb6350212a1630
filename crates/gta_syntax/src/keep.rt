//! Reading the expression of a line `keep`: each function gives what the definition of its name in
//! specs/Rules.antt gives. The depth counts down at each `not` and each pair of parentheses.
ghost use Rattle.std.specs.Prelude.{◌≡◌, IfOk};
ghost use Rattle.gta_spec.specs.Keep as keeps;
ghost use Rattle.gta_spec.specs.Grammar.{names_among};
ghost use Rattle.gta_spec.specs.Parts.{keep_tree};
ghost use Rattle.gta_syntax.specs.Sources.{symbols_in};
ghost use Rattle.gta_syntax.specs.Rules.{Gives, and_lit_with, conj_with, or_conj_with, expr_with, lit_at, keep_at};

use crate::fault::LineFault;
use crate::source::Source;
use crate::symbols::{
    begins_later, begins_name, begins_word, later, later_at, name_at, sign, sign_at, word_at,
};
use gta_spec::{KEPT_NAME_LIMIT, KeepPart, NESTING_LIMIT};
use gta_text::Token;
use std::alloc::{AllocError, Global};

/// The whole expression. Its names are counted before anything is built.
#[tactic(auto, unfolding(crate::specs::Rules::keep_at))]
pub(crate) fn keep_at<'t>(
    alloc: Global,
    source: Source<'_>,
    tokens: &'t [Token],
) -> Result<(KeepPart, &'t [Token]), LineFault>
    ensures { Gives (λ x. (keep_tree x.0, symbols_in source.entry x.1.now)) result
        (keep_at (symbols_in source.entry tokens.now)) }
{
    if names_among(source, tokens) > KEPT_NAME_LIMIT {
        return Err(LineFault::Grammar);
    }
    expr_at(alloc, source, NESTING_LIMIT, tokens)
}

/// How many of the tokens are names.
fn names_among(source: Source<'_>, tokens: &[Token]) -> usize
    ensures { result ≡ names_among (symbols_in source.entry tokens.now) }
{
    let mut names = 0;
    let mut rest = tokens;
    for _ in 0..tokens.len() {
        if begins_name(source, rest) {
            names += 1;
        }
        rest = rest.split_at(1).1;
    }
    names
}

#[cycle(keep)]
#[tactic(auto, unfolding(crate::specs::Rules::expr_with))]
fn expr_at<'t>(
    alloc: Global,
    source: Source<'_>,
    depth: usize,
    tokens: &'t [Token],
) -> Result<(KeepPart, &'t [Token]), LineFault>
    ensures { Gives (λ x. (keep_tree x.0, symbols_in source.entry x.1.now)) result
        (expr_with (lit_at depth) (symbols_in source.entry tokens.now)) }
{
    let (mut expr, mut rest) = conj_at(alloc, source, depth, tokens)?;
    for _ in 0..rest.len() {
        if !begins_later(source, b"or", rest) {
            return Ok((expr, rest));
        }
        let (next, after) = or_conj_at(alloc, source, depth, rest)?;
        expr = either(alloc, expr, next)?;
        rest = after;
    }
    Ok((expr, rest))
}

#[cycle(keep)]
#[tactic(auto, unfolding(crate::specs::Rules::or_conj_with))]
fn or_conj_at<'t>(
    alloc: Global,
    source: Source<'_>,
    depth: usize,
    tokens: &'t [Token],
) -> Result<(KeepPart, &'t [Token]), LineFault>
    ensures { Gives (λ x. (keep_tree x.0, symbols_in source.entry x.1.now)) result
        (or_conj_with (lit_at depth) (symbols_in source.entry tokens.now)) }
{
    let rest = later_at(source, b"or", tokens)?;
    conj_at(alloc, source, depth, rest)
}

#[cycle(keep)]
#[tactic(auto, unfolding(crate::specs::Rules::conj_with))]
fn conj_at<'t>(
    alloc: Global,
    source: Source<'_>,
    depth: usize,
    tokens: &'t [Token],
) -> Result<(KeepPart, &'t [Token]), LineFault>
    ensures { Gives (λ x. (keep_tree x.0, symbols_in source.entry x.1.now)) result
        (conj_with (lit_at depth) (symbols_in source.entry tokens.now)) }
{
    let (mut conj, mut rest) = lit_at(alloc, source, depth, tokens)?;
    for _ in 0..rest.len() {
        if !begins_word(source, b"and", rest) {
            return Ok((conj, rest));
        }
        let (next, after) = and_lit_at(alloc, source, depth, rest)?;
        conj = both(alloc, conj, next)?;
        rest = after;
    }
    Ok((conj, rest))
}

#[cycle(keep)]
#[tactic(auto, unfolding(crate::specs::Rules::and_lit_with))]
fn and_lit_at<'t>(
    alloc: Global,
    source: Source<'_>,
    depth: usize,
    tokens: &'t [Token],
) -> Result<(KeepPart, &'t [Token]), LineFault>
    ensures { Gives (λ x. (keep_tree x.0, symbols_in source.entry x.1.now)) result
        (and_lit_with (lit_at depth) (symbols_in source.entry tokens.now)) }
{
    let rest = word_at(source, b"and", tokens)?;
    lit_at(alloc, source, depth, rest)
}

#[cycle(keep)]
fn lit_at<'t>(
    alloc: Global,
    source: Source<'_>,
    depth: usize,
    tokens: &'t [Token],
) -> Result<(KeepPart, &'t [Token]), LineFault>
    ensures { Gives (λ x. (keep_tree x.0, symbols_in source.entry x.1.now)) result
        (lit_at depth (symbols_in source.entry tokens.now)) }
{
    if let Some(rest) = later(source, b"not", tokens) {
        if depth == 0 {
            return Err(LineFault::Grammar);
        }
        let (part, rest) = lit_at(alloc, source, depth - 1, rest)?;
        return Ok((negation(alloc, part)?, rest));
    }
    if let Some(rest) = sign(source, b"(", tokens) {
        if depth == 0 {
            return Err(LineFault::Grammar);
        }
        let (part, rest) = expr_at(alloc, source, depth - 1, rest)?;
        let rest = sign_at(source, b")", rest)?;
        return Ok((part, rest));
    }
    let (name, rest) = name_at(alloc, source, tokens)?;
    Ok((KeepPart::Test(name), rest))
}

fn negation(alloc: Global, part: KeepPart) -> Result<KeepPart, AllocError>
    ensures { IfOk result (λ keep. keep_tree keep ≡ keeps.Not (keep_tree part)) }
{
    Ok(KeepPart::Not(Box::new(alloc, part)?))
}

fn both(alloc: Global, left: KeepPart, right: KeepPart) -> Result<KeepPart, AllocError>
    ensures { IfOk result (λ keep. keep_tree keep ≡ keeps.Both (keep_tree left) (keep_tree right)) }
{
    let left = Box::new(alloc, left)?;
    let right = Box::new(alloc, right)?;
    Ok(KeepPart::Both(left, right))
}

fn either(alloc: Global, left: KeepPart, right: KeepPart) -> Result<KeepPart, AllocError>
    ensures { IfOk result (λ keep. keep_tree keep ≡ keeps.Either (keep_tree left) (keep_tree right)) }
{
    let left = Box::new(alloc, left)?;
    let right = Box::new(alloc, right)?;
    Ok(KeepPart::Either(left, right))
}
