//! Reading what is asked for, and its ranks: each function gives what the definition of its name in
//! specs/Rules.antt gives.
ghost use Rattle.std.specs.Prelude.{◌≡◌, length, ◌∷◌, codes, IfOk};
ghost use Rattle.gta_syntax.specs.Sources.{symbols_in};
ghost use Rattle.gta_syntax.specs.Rules.{Gives, many, begins_later, end_at, first_rank_at, next_rank_at};
ghost use Rattle.gta_syntax.specs.Rules.{ranks_at, goal_of, best_of, best_at, goal_at};

use crate::fault::LineFault;
use crate::source::Source;
use crate::symbols::{begins_later, digits_at, later_at, name_at, word, word_at};
use gta_spec::{GoalPart, RANK_LIMIT, RankPart};
use gta_text::Token;
use sqlite_items::Items;
use std::alloc::{AllocError, Global};

/// Whether the greatest is asked for, or the least.
#[tactic(auto, unfolding(crate::specs::Rules::end_at))]
fn end_at<'t>(source: Source<'_>, tokens: &'t [Token]) -> Result<(bool, &'t [Token]), LineFault>
    ensures { Gives (λ x. (x.0, symbols_in source.entry x.1.now)) result
        (end_at (symbols_in source.entry tokens.now)) }
{
    if let Some(rest) = word(source, b"max", tokens) {
        return Ok((true, rest));
    }
    let rest = word_at(source, b"min", tokens)?;
    Ok((false, rest))
}

#[tactic(auto, unfolding(crate::specs::Rules::first_rank_at))]
fn first_rank_at<'t>(
    alloc: Global,
    source: Source<'_>,
    tokens: &'t [Token],
) -> Result<(RankPart, &'t [Token]), LineFault>
    ensures { Gives (λ x. (x.0, symbols_in source.entry x.1.now)) result
        (first_rank_at (symbols_in source.entry tokens.now)) }
{
    let (greatest, rest) = end_at(source, tokens)?;
    let (name, rest) = name_at(alloc, source, rest)?;
    Ok((RankPart { greatest, name }, rest))
}

#[tactic(auto, unfolding(crate::specs::Rules::next_rank_at))]
fn next_rank_at<'t>(
    alloc: Global,
    source: Source<'_>,
    tokens: &'t [Token],
) -> Result<(RankPart, &'t [Token]), LineFault>
    ensures { Gives (λ x. (x.0, symbols_in source.entry x.1.now)) result
        (next_rank_at (symbols_in source.entry tokens.now)) }
{
    let rest = later_at(source, b"then", tokens)?;
    first_rank_at(alloc, source, rest)
}

fn more_ranks<'t>(
    alloc: Global,
    source: Source<'_>,
    tokens: &'t [Token],
) -> Result<(Vec<RankPart>, &'t [Token]), LineFault>
    ensures { Gives (λ x. (x.0.items, symbols_in source.entry x.1.now)) result
        (many (begins_later (codes "then")) next_rank_at (length tokens.now)
        (symbols_in source.entry tokens.now)) }
{
    let mut ranks = Vec::new(alloc);
    let mut rest = tokens;
    for _ in 0..tokens.len() {
        if !begins_later(source, b"then", rest) {
            return Ok((ranks, rest));
        }
        let (rank, after) = next_rank_at(alloc, source, rest)?;
        ranks.push(rank)?;
        rest = after;
    }
    Ok((ranks, rest))
}

/// The first rank and the others.
#[tactic(auto, unfolding(crate::specs::Rules::ranks_at))]
fn ranks_at<'t>(
    alloc: Global,
    source: Source<'_>,
    tokens: &'t [Token],
) -> Result<((RankPart, Vec<RankPart>), &'t [Token]), LineFault>
    ensures { Gives (λ x. ((x.0.0, x.0.1.items), symbols_in source.entry x.1.now)) result
        (ranks_at (symbols_in source.entry tokens.now)) }
{
    let (first, rest) = first_rank_at(alloc, source, tokens)?;
    let (others, rest) = more_ranks(alloc, source, rest)?;
    if others.len() >= RANK_LIMIT {
        return Err(LineFault::Grammar);
    }
    Ok(((first, others), rest))
}

/// The ranks as one list.
fn keys_of(first: RankPart, others: Vec<RankPart>) -> Result<Items<RankPart>, AllocError>
    ensures { IfOk result (λ keys. keys ≡ first ∷ others.items) }
{
    let mut keys = others;
    keys.insert(0, first)?;
    Ok(Items::from_vec(keys))
}

fn goal_of(first: RankPart, others: Vec<RankPart>) -> Result<GoalPart, AllocError>
    ensures { IfOk result (λ goal. goal ≡ goal_of first others.items) }
{
    if others.is_empty() {
        let name = first.name;
        return Ok(if first.greatest {
            GoalPart::Max(name)
        } else {
            GoalPart::Min(name)
        });
    }
    let keys = keys_of(first, others)?;
    let k = None;
    Ok(GoalPart::Ranked { k, keys })
}

fn best_of(number: u64, first: RankPart, others: Vec<RankPart>) -> Result<GoalPart, AllocError>
    ensures { IfOk result (λ goal. goal ≡ best_of number first others.items) }
{
    if others.is_empty() {
        let RankPart { greatest, name } = first;
        return Ok(GoalPart::Best {
            k: number,
            greatest,
            name,
        });
    }
    let keys = keys_of(first, others)?;
    let k = Some(number);
    Ok(GoalPart::Ranked { k, keys })
}

#[tactic(auto, unfolding(crate::specs::Rules::best_at))]
fn best_at<'t>(
    alloc: Global,
    source: Source<'_>,
    tokens: &'t [Token],
) -> Result<(GoalPart, &'t [Token]), LineFault>
    ensures { Gives (λ x. (x.0, symbols_in source.entry x.1.now)) result
        (best_at (symbols_in source.entry tokens.now)) }
{
    let (number, rest) = digits_at(source, tokens)?;
    let ((first, others), rest) = ranks_at(alloc, source, rest)?;
    Ok((best_of(number, first, others)?, rest))
}

#[tactic(auto, unfolding(crate::specs::Rules::goal_at))]
pub(crate) fn goal_at<'t>(
    alloc: Global,
    source: Source<'_>,
    tokens: &'t [Token],
) -> Result<(GoalPart, &'t [Token]), LineFault>
    ensures { Gives (λ x. (x.0, symbols_in source.entry x.1.now)) result
        (goal_at (symbols_in source.entry tokens.now)) }
{
    if let Some(rest) = word(source, b"count", tokens) {
        return Ok((GoalPart::Count, rest));
    }
    if let Some(rest) = word(source, b"any", tokens) {
        return Ok((GoalPart::Any, rest));
    }
    if let Some(rest) = word(source, b"best", tokens) {
        return best_at(alloc, source, rest);
    }
    let ((first, others), rest) = ranks_at(alloc, source, tokens)?;
    Ok((goal_of(first, others)?, rest))
}
