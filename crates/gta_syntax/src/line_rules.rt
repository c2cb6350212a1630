//! Reading a whole line: each function gives what the definition of its name in specs/Rules.antt
//! gives.
ghost use Rattle.std.specs.Prelude.{◌≡◌, codes, map};
ghost use Rattle.gta_spec.specs.Parts.{pick_tree, test_tree, kind_tree};
ghost use Rattle.gta_syntax.specs.Sources.{symbols_in};
ghost use Rattle.gta_syntax.specs.Rules.{Gives, check_at, by_at, fold_at, run_at, test_at, shape_at};
ghost use Rattle.gta_syntax.specs.Rules.{measure_at, table_at, times_at, automaton_at, step_at, named_at};
ghost use Rattle.gta_syntax.specs.Rules.{test_line_at, later_line_at, line_at, part_at};

use crate::fault::LineFault;
use crate::goals::goal_at;
use crate::keep::keep_at;
use crate::measures::{cases_at, picks_at};
use crate::rules::{cmp_at, items_at, names_at, num_at};
use crate::source::Source;
use crate::symbols::{digits_at, later, later_at, name_at, sign_at, word, word_at, word_of_name};
use gta_spec::{
    AutomatonPart, Check, MeasurePart, PartKind, PickPart, StepPart, TablePart, TestPart, TimesPart,
};
use gta_text::{Name, Token};
use shape_gen::Shape;
use std::alloc::Global;

#[tactic(auto, unfolding(crate::specs::Rules::check_at))]
fn check_at<'t>(source: Source<'_>, tokens: &'t [Token]) -> Result<(Check, &'t [Token]), LineFault>
    ensures { Gives (λ x. (x.0, symbols_in source.entry x.1.now)) result
        (check_at (symbols_in source.entry tokens.now)) }
{
    if let Some(rest) = word(source, b"mod", tokens) {
        let (modulus, rest) = digits_at(source, rest)?;
        let rest = sign_at(source, b"=", rest)?;
        let (residue, rest) = digits_at(source, rest)?;
        return Ok((Check::Mod { modulus, residue }, rest));
    }
    let (cmp, rest) = cmp_at(source, tokens)?;
    let (number, rest) = num_at(source, rest)?;
    Ok((Check::Compare { cmp, number }, rest))
}

/// The picks, and the names that are accepted.
#[tactic(auto, unfolding(crate::specs::Rules::by_at))]
fn by_at<'t>(
    alloc: Global,
    source: Source<'_>,
    tokens: &'t [Token],
) -> Result<((Vec<PickPart>, Vec<Name>), &'t [Token]), LineFault>
    ensures { Gives (λ x. ((map pick_tree x.0.0.items, x.0.1.items), symbols_in source.entry x.1.now)) result
        (by_at (symbols_in source.entry tokens.now)) }
{
    let rest = word_at(source, b"by", tokens)?;
    let (picks, rest) = picks_at(alloc, source, rest)?;
    let rest = word_at(source, b"accept", rest)?;
    let (accept, rest) = names_at(alloc, source, rest)?;
    Ok(((picks, accept), rest))
}

#[tactic(auto, unfolding(crate::specs::Rules::fold_at))]
fn fold_at<'t>(
    alloc: Global,
    source: Source<'_>,
    tokens: &'t [Token],
) -> Result<(TestPart, &'t [Token]), LineFault>
    ensures { Gives (λ x. (test_tree x.0, symbols_in source.entry x.1.now)) result
        (fold_at (symbols_in source.entry tokens.now)) }
{
    let (table, rest) = name_at(alloc, source, tokens)?;
    let ((picks, accept), rest) = by_at(alloc, source, rest)?;
    Ok((
        TestPart::Fold {
            table,
            picks,
            accept,
        },
        rest,
    ))
}

#[tactic(auto, unfolding(crate::specs::Rules::run_at))]
fn run_at<'t>(
    alloc: Global,
    source: Source<'_>,
    tokens: &'t [Token],
) -> Result<(TestPart, &'t [Token]), LineFault>
    ensures { Gives (λ x. (test_tree x.0, symbols_in source.entry x.1.now)) result
        (run_at (symbols_in source.entry tokens.now)) }
{
    let (automaton, rest) = name_at(alloc, source, tokens)?;
    let ((picks, accept), rest) = by_at(alloc, source, rest)?;
    Ok((
        TestPart::Run {
            automaton,
            picks,
            accept,
        },
        rest,
    ))
}

#[tactic(auto, unfolding(crate::specs::Rules::test_at))]
fn test_at<'t>(
    alloc: Global,
    source: Source<'_>,
    tokens: &'t [Token],
) -> Result<(TestPart, &'t [Token]), LineFault>
    ensures { Gives (λ x. (test_tree x.0, symbols_in source.entry x.1.now)) result
        (test_at (symbols_in source.entry tokens.now)) }
{
    if let Some(rest) = word(source, b"sum", tokens) {
        let (name, rest) = name_at(alloc, source, rest)?;
        let (check, rest) = check_at(source, rest)?;
        return Ok((TestPart::Sum { name, check }, rest));
    }
    if let Some(rest) = word(source, b"length", tokens) {
        let (check, rest) = check_at(source, rest)?;
        return Ok((TestPart::Length { check }, rest));
    }
    if let Some(rest) = later(source, b"run", tokens) {
        return run_at(alloc, source, rest);
    }
    let rest = word_at(source, b"fold", tokens)?;
    fold_at(alloc, source, rest)
}

#[tactic(auto, unfolding(crate::specs::Rules::shape_at))]
fn shape_at<'t>(source: Source<'_>, tokens: &'t [Token]) -> Result<(Shape, &'t [Token]), LineFault>
    ensures { Gives (λ x. (x.0, symbols_in source.entry x.1.now)) result
        (shape_at (symbols_in source.entry tokens.now)) }
{
    if let Some(rest) = word(source, b"sublists", tokens) {
        return Ok((Shape::Sublists, rest));
    }
    if let Some(rest) = word(source, b"segments", tokens) {
        return Ok((Shape::Segments, rest));
    }
    if let Some(rest) = word(source, b"prefixes", tokens) {
        return Ok((Shape::Prefixes, rest));
    }
    if let Some(rest) = word(source, b"suffixes", tokens) {
        return Ok((Shape::Suffixes, rest));
    }
    let rest = word_at(source, b"assign", tokens)?;
    Ok((Shape::Assign, rest))
}

#[tactic(auto, unfolding(crate::specs::Rules::measure_at))]
fn measure_at<'t>(
    alloc: Global,
    source: Source<'_>,
    tokens: &'t [Token],
) -> Result<(PartKind, &'t [Token]), LineFault>
    ensures { Gives (λ x. (kind_tree x.0, symbols_in source.entry x.1.now)) result
        (measure_at (symbols_in source.entry tokens.now)) }
{
    let (name, rest) = name_at(alloc, source, tokens)?;
    let rest = sign_at(source, b"=", rest)?;
    let (cases, rest) = cases_at(alloc, source, rest)?;
    Ok((PartKind::Measure(MeasurePart { name, cases }), rest))
}

#[tactic(auto, unfolding(crate::specs::Rules::table_at))]
fn table_at<'t>(
    alloc: Global,
    source: Source<'_>,
    tokens: &'t [Token],
) -> Result<(PartKind, &'t [Token]), LineFault>
    ensures { Gives (λ x. (kind_tree x.0, symbols_in source.entry x.1.now)) result
        (table_at (symbols_in source.entry tokens.now)) }
{
    let (name, rest) = name_at(alloc, source, tokens)?;
    let rest = word_at(source, b"unit", rest)?;
    let (unit, rest) = name_at(alloc, source, rest)?;
    let rest = word_at(source, b"elements", rest)?;
    let (elements, rest) = names_at(alloc, source, rest)?;
    Ok((
        PartKind::Table(TablePart {
            name,
            unit,
            elements,
        }),
        rest,
    ))
}

#[tactic(auto, unfolding(crate::specs::Rules::times_at))]
fn times_at<'t>(
    alloc: Global,
    source: Source<'_>,
    tokens: &'t [Token],
) -> Result<(PartKind, &'t [Token]), LineFault>
    ensures { Gives (λ x. (kind_tree x.0, symbols_in source.entry x.1.now)) result
        (times_at (symbols_in source.entry tokens.now)) }
{
    let (table, rest) = name_at(alloc, source, tokens)?;
    let (element, rest) = name_at(alloc, source, rest)?;
    let rest = sign_at(source, b"=", rest)?;
    let (products, rest) = names_at(alloc, source, rest)?;
    Ok((
        PartKind::Times(TimesPart {
            table,
            element,
            products,
        }),
        rest,
    ))
}

#[tactic(auto, unfolding(crate::specs::Rules::automaton_at))]
fn automaton_at<'t>(
    alloc: Global,
    source: Source<'_>,
    tokens: &'t [Token],
) -> Result<(PartKind, &'t [Token]), LineFault>
    ensures { Gives (λ x. (kind_tree x.0, symbols_in source.entry x.1.now)) result
        (automaton_at (symbols_in source.entry tokens.now)) }
{
    let (name, rest) = name_at(alloc, source, tokens)?;
    let rest = later_at(source, b"states", rest)?;
    let (states, rest) = names_at(alloc, source, rest)?;
    let rest = later_at(source, b"start", rest)?;
    let (start, rest) = name_at(alloc, source, rest)?;
    let rest = later_at(source, b"letters", rest)?;
    let (letters, rest) = names_at(alloc, source, rest)?;
    Ok((
        PartKind::Automaton(AutomatonPart {
            name,
            states,
            start,
            letters,
        }),
        rest,
    ))
}

#[tactic(auto, unfolding(crate::specs::Rules::step_at))]
fn step_at<'t>(
    alloc: Global,
    source: Source<'_>,
    tokens: &'t [Token],
) -> Result<(PartKind, &'t [Token]), LineFault>
    ensures { Gives (λ x. (kind_tree x.0, symbols_in source.entry x.1.now)) result
        (step_at (symbols_in source.entry tokens.now)) }
{
    let (automaton, rest) = name_at(alloc, source, tokens)?;
    let (letter, rest) = name_at(alloc, source, rest)?;
    let rest = sign_at(source, b"=", rest)?;
    let (targets, rest) = names_at(alloc, source, rest)?;
    Ok((
        PartKind::Step(StepPart {
            automaton,
            letter,
            targets,
        }),
        rest,
    ))
}

/// The test behind its name, from version 2 on.
#[tactic(auto, unfolding(crate::specs::Rules::named_at))]
fn named_at<'t>(
    alloc: Global,
    source: Source<'_>,
    name: &[u8],
    tokens: &'t [Token],
) -> Result<(PartKind, &'t [Token]), LineFault>
    ensures { Gives (λ x. (kind_tree x.0, symbols_in source.entry x.1.now)) result
        (named_at source.entry.version name.now (symbols_in source.entry tokens.now)) }
{
    if source.version < 2 {
        return Err(LineFault::Grammar);
    }
    let rest = sign_at(source, b"=", tokens)?;
    let (test, rest) = test_at(alloc, source, rest)?;
    let name = Name::of(alloc, name)?;
    Ok((PartKind::Named { name, test }, rest))
}

#[tactic(auto, unfolding(crate::specs::Rules::test_line_at))]
fn test_line_at<'t>(
    alloc: Global,
    source: Source<'_>,
    tokens: &'t [Token],
) -> Result<(PartKind, &'t [Token]), LineFault>
    ensures { Gives (λ x. (kind_tree x.0, symbols_in source.entry x.1.now)) result
        (test_line_at source.entry.version (symbols_in source.entry tokens.now)) }
{
    if let Some((name, rest)) = word_of_name(source, tokens) {
        return named_at(alloc, source, name, rest);
    }
    let (test, rest) = test_at(alloc, source, tokens)?;
    Ok((PartKind::Test(test), rest))
}

/// A line whose first word version 1 doesn't reserve.
#[tactic(auto, unfolding(crate::specs::Rules::later_line_at))]
fn later_line_at<'t>(
    alloc: Global,
    source: Source<'_>,
    tokens: &'t [Token],
) -> Result<(PartKind, &'t [Token]), LineFault>
    ensures { Gives (λ x. (kind_tree x.0, symbols_in source.entry x.1.now)) result
        (later_line_at (symbols_in source.entry tokens.now)) }
{
    if let Some(rest) = later(source, b"keep", tokens) {
        let (keep, rest) = keep_at(alloc, source, rest)?;
        return Ok((PartKind::Keep(keep), rest));
    }
    if let Some(rest) = later(source, b"automaton", tokens) {
        return automaton_at(alloc, source, rest);
    }
    let rest = later_at(source, b"step", tokens)?;
    step_at(alloc, source, rest)
}

#[tactic(auto, unfolding(crate::specs::Rules::line_at))]
fn line_at<'t>(
    alloc: Global,
    source: Source<'_>,
    tokens: &'t [Token],
) -> Result<(PartKind, &'t [Token]), LineFault>
    ensures { Gives (λ x. (kind_tree x.0, symbols_in source.entry x.1.now)) result
        (line_at source.entry.version (symbols_in source.entry tokens.now)) }
{
    if let Some(rest) = word(source, b"columns", tokens) {
        let (items, rest) = items_at(alloc, source, rest)?;
        return Ok((PartKind::Columns(items), rest));
    }
    if let Some(rest) = word(source, b"labels", tokens) {
        let (names, rest) = names_at(alloc, source, rest)?;
        return Ok((PartKind::Labels(names), rest));
    }
    if let Some(rest) = word(source, b"measure", tokens) {
        return measure_at(alloc, source, rest);
    }
    if let Some(rest) = word(source, b"table", tokens) {
        return table_at(alloc, source, rest);
    }
    if let Some(rest) = word(source, b"times", tokens) {
        return times_at(alloc, source, rest);
    }
    if let Some(rest) = word(source, b"generate", tokens) {
        let (shape, rest) = shape_at(source, rest)?;
        return Ok((PartKind::Generate(shape), rest));
    }
    if let Some(rest) = word(source, b"test", tokens) {
        return test_line_at(alloc, source, rest);
    }
    if let Some(rest) = word(source, b"aggregate", tokens) {
        let (goal, rest) = goal_at(alloc, source, rest)?;
        return Ok((PartKind::Aggregate(goal), rest));
    }
    later_line_at(alloc, source, tokens)
}

/// The part that the whole line says.
#[tactic(auto, unfolding(crate::specs::Rules::part_at))]
pub(crate) fn part_at(
    alloc: Global,
    source: Source<'_>,
    tokens: &[Token],
) -> Result<PartKind, LineFault>
    ensures { Gives kind_tree result (part_at source.entry.version (symbols_in source.entry tokens.now)) }
{
    let (part, rest) = line_at(alloc, source, tokens)?;
    if !rest.is_empty() {
        return Err(LineFault::Grammar);
    }
    Ok(part)
}
