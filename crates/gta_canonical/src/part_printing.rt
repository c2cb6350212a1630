//! Printing measures, tests and whole lines. What is printed is in specs/Canonical.antt; each
//! function adds what the definition of its name with `_front` says.
ghost use Rattle.std.specs.Prelude.{◌≡◌, ℕ, Bool, [], ◌∷◌, ◌++◌, map, flat_map, IfOk, OnOk, codes};
ghost use Rattle.std.specs.Prelude.{decimal, Option, if◌then◌else◌};
ghost use Rattle.gta_spec.specs.Parts.{case_tree, automaton_tree, step_tree, pick_tree, test_tree};
ghost use Rattle.gta_spec.specs.Parts.{kind_tree, part_tree, Automaton, Step};
ghost use Rattle.gta_spec.specs.Symbols.{Word};
ghost use Rattle.gta_canonical.specs.Canonical.{spaced, line_text, fronts, names_front};
ghost use Rattle.gta_canonical.specs.Canonical.{quantity_front, first_term_front, next_term_front};
ghost use Rattle.gta_canonical.specs.Canonical.{form_front, case_front, next_case_front, cases_front};
ghost use Rattle.gta_canonical.specs.Canonical.{pick_front, next_pick_front, picks_front};
ghost use Rattle.gta_canonical.specs.Canonical.{check_front, test_front, goal_front, kind_front};
ghost use Rattle.gta_canonical.specs.Canonical.{shape_word, end_word, part_text};
ghost use Rattle.gta_canonical.specs.Canonical.{rank_front, next_rank_front, ranks_front, best_front};

use crate::keep_printing::put_keep_line;
use crate::printing::{
    put_behind, put_cmp, put_digits, put_if, put_items, put_name, put_names, put_num, put_number,
    put_spaced,
};
use gta_spec::{
    AutomatonPart, CasePart, Check, GoalPart, Part, PartKind, PickPart, RankPart, StepPart,
    TermPart, TestPart,
};
use gta_text::Name;
use shape_gen::Shape;
use std::alloc::{AllocError, Global};

/// A number, a name or their product, behind a space or not.
fn put_quantity(
    alloc: Global,
    out: &mut Vec<u8>,
    glued: bool,
    term: &TermPart,
) -> Result<(), AllocError>
    ensures { OnOk result (out.new.items ≡ out.old.items
        ++ line_text (quantity_front glued term.now.number term.now.name [])) }
{
    match (&term.number, &term.name) {
        (None, None) => Ok(()),
        (None, Some(name)) => put_behind(out, glued, name.bytes()),
        (Some(number), None) => put_number_behind(alloc, out, glued, *number),
        (Some(number), Some(name)) => {
            put_number_behind(alloc, out, glued, *number)?;
            out.push(b'*')?;
            out.extend_from_slice(name.bytes())
        }
    }
}

fn put_number_behind(
    alloc: Global,
    out: &mut Vec<u8>,
    glued: bool,
    number: u64,
) -> Result<(), AllocError>
    ensures { OnOk result
        (out.new.items ≡ out.old.items ++ ((if glued then [] else 32 ∷ []) ++ decimal number)) }
{
    if glued {
        put_digits(alloc, out, number)
    } else {
        put_number(alloc, out, number)
    }
}

fn put_first_term(alloc: Global, out: &mut Vec<u8>, term: &TermPart) -> Result<(), AllocError>
    ensures { OnOk result
        (out.new.items ≡ out.old.items ++ line_text (first_term_front term.now [])) }
{
    if term.minus {
        put_spaced(out, b"-")?;
    }
    put_quantity(alloc, out, term.minus, term)
}

fn put_next_term(alloc: Global, out: &mut Vec<u8>, term: &TermPart) -> Result<(), AllocError>
    ensures { OnOk result
        (out.new.items ≡ out.old.items ++ line_text (next_term_front term.now [])) }
{
    if !term.minus {
        put_spaced(out, b"+")?;
    } else {
        put_spaced(out, b"-")?;
    }
    put_quantity(alloc, out, false, term)
}

fn put_more_terms(alloc: Global, out: &mut Vec<u8>, terms: &[TermPart]) -> Result<(), AllocError>
    ensures { OnOk result
        (out.new.items ≡ out.old.items ++ line_text (fronts next_term_front terms.now [])) }
{
    for term in terms {
        put_next_term(alloc, out, term)?;
    }
    Ok(())
}

#[tactic(auto, using(crate::proofs::Fronts::first_term_splits))]
fn put_form(alloc: Global, out: &mut Vec<u8>, terms: &[TermPart]) -> Result<(), AllocError>
    ensures { OnOk result (out.new.items ≡ out.old.items ++ line_text (form_front terms.now [])) }
{
    let Some((first, others)) = terms.split_first() else {
        return Ok(());
    };
    put_first_term(alloc, out, first)?;
    put_more_terms(alloc, out, others)
}

fn put_case(alloc: Global, out: &mut Vec<u8>, case: &CasePart) -> Result<(), AllocError>
    ensures { OnOk result
        (out.new.items ≡ out.old.items ++ line_text (case_front (case_tree case.now) [])) }
{
    put_form(alloc, out, &case.form)?;
    put_if(alloc, out, &case.cond)
}

fn put_next_case(alloc: Global, out: &mut Vec<u8>, case: &CasePart) -> Result<(), AllocError>
    ensures { OnOk result
        (out.new.items ≡ out.old.items ++ line_text (next_case_front (case_tree case.now) [])) }
{
    put_spaced(out, b";")?;
    put_case(alloc, out, case)
}

fn put_more_cases(alloc: Global, out: &mut Vec<u8>, cases: &[CasePart]) -> Result<(), AllocError>
    ensures { OnOk result (out.new.items ≡ out.old.items
        ++ line_text (fronts next_case_front (map case_tree cases.now) [])) }
{
    for case in cases {
        put_next_case(alloc, out, case)?;
    }
    Ok(())
}

fn put_cases(alloc: Global, out: &mut Vec<u8>, cases: &[CasePart]) -> Result<(), AllocError>
    ensures { OnOk result
        (out.new.items ≡ out.old.items ++ line_text (cases_front (map case_tree cases.now) [])) }
{
    let Some((first, others)) = cases.split_first() else {
        return Ok(());
    };
    put_case(alloc, out, first)?;
    put_more_cases(alloc, out, others)
}

fn put_pick(alloc: Global, out: &mut Vec<u8>, pick: &PickPart) -> Result<(), AllocError>
    ensures { OnOk result
        (out.new.items ≡ out.old.items ++ line_text (pick_front (pick_tree pick.now) [])) }
{
    put_spaced(out, pick.element.bytes())?;
    put_if(alloc, out, &pick.cond)
}

fn put_next_pick(alloc: Global, out: &mut Vec<u8>, pick: &PickPart) -> Result<(), AllocError>
    ensures { OnOk result
        (out.new.items ≡ out.old.items ++ line_text (next_pick_front (pick_tree pick.now) [])) }
{
    put_spaced(out, b";")?;
    put_pick(alloc, out, pick)
}

fn put_more_picks(alloc: Global, out: &mut Vec<u8>, picks: &[PickPart]) -> Result<(), AllocError>
    ensures { OnOk result (out.new.items ≡ out.old.items
        ++ line_text (fronts next_pick_front (map pick_tree picks.now) [])) }
{
    for pick in picks {
        put_next_pick(alloc, out, pick)?;
    }
    Ok(())
}

fn put_picks(alloc: Global, out: &mut Vec<u8>, picks: &[PickPart]) -> Result<(), AllocError>
    ensures { OnOk result
        (out.new.items ≡ out.old.items ++ line_text (picks_front (map pick_tree picks.now) [])) }
{
    let Some((first, others)) = picks.split_first() else {
        return Ok(());
    };
    put_pick(alloc, out, first)?;
    put_more_picks(alloc, out, others)
}

fn put_check(alloc: Global, out: &mut Vec<u8>, check: &Check) -> Result<(), AllocError>
    ensures { OnOk result (out.new.items ≡ out.old.items ++ line_text (check_front check.now [])) }
{
    match check {
        Check::Compare { cmp, number } => {
            put_cmp(out, *cmp)?;
            put_num(alloc, out, *number)
        }
        Check::Mod { modulus, residue } => {
            put_spaced(out, b"mod")?;
            put_number(alloc, out, *modulus)?;
            put_spaced(out, b"=")?;
            put_number(alloc, out, *residue)
        }
    }
}

fn put_test(alloc: Global, out: &mut Vec<u8>, test: &TestPart) -> Result<(), AllocError>
    ensures { OnOk result
        (out.new.items ≡ out.old.items ++ line_text (test_front (test_tree test.now) [])) }
{
    match test {
        TestPart::Sum { name, check } => {
            put_spaced(out, b"sum")?;
            put_name(out, name)?;
            put_check(alloc, out, check)
        }
        TestPart::Length { check } => {
            put_spaced(out, b"length")?;
            put_check(alloc, out, check)
        }
        TestPart::Fold {
            table,
            picks,
            accept,
        } => {
            put_spaced(out, b"fold")?;
            put_picked(alloc, out, table, picks, accept)
        }
        TestPart::Run {
            automaton,
            picks,
            accept,
        } => {
            put_spaced(out, b"run")?;
            put_picked(alloc, out, automaton, picks, accept)
        }
    }
}

/// What a fold and a run have in common: the name, the picks, and what is accepted.
fn put_picked(
    alloc: Global,
    out: &mut Vec<u8>,
    name: &Name,
    picks: &[PickPart],
    accept: &[Name],
) -> Result<(), AllocError>
    ensures { OnOk result (out.new.items ≡ out.old.items
        ++ line_text (spaced (Word name.now) ∷ spaced (Word (codes "by"))
        ∷ picks_front (map pick_tree picks.now)
        (spaced (Word (codes "accept")) ∷ names_front accept.now []))) }
{
    put_name(out, name)?;
    put_spaced(out, b"by")?;
    put_picks(alloc, out, picks)?;
    put_listed(out, b"accept", accept)
}

/// The word, and then the names.
fn put_listed(out: &mut Vec<u8>, word: &[u8], names: &[Name]) -> Result<(), AllocError>
    ensures { OnOk result (out.new.items ≡ out.old.items
        ++ line_text (spaced (Word word.now) ∷ names_front names.now [])) }
{
    put_spaced(out, word)?;
    put_names(out, names)
}

fn put_shape(out: &mut Vec<u8>, shape: Shape) -> Result<(), AllocError>
    ensures { OnOk result (out.new.items ≡ out.old.items ++ 32 ∷ shape_word shape) }
{
    match shape {
        Shape::Sublists => put_spaced(out, b"sublists"),
        Shape::Assign => put_spaced(out, b"assign"),
        Shape::Prefixes => put_spaced(out, b"prefixes"),
        Shape::Suffixes => put_spaced(out, b"suffixes"),
        Shape::Segments => put_spaced(out, b"segments"),
    }
}

fn put_end(out: &mut Vec<u8>, greatest: bool) -> Result<(), AllocError>
    ensures { OnOk result (out.new.items ≡ out.old.items ++ 32 ∷ end_word greatest) }
{
    if greatest {
        put_spaced(out, b"max")
    } else {
        put_spaced(out, b"min")
    }
}

fn put_rank(out: &mut Vec<u8>, rank: &RankPart) -> Result<(), AllocError>
    ensures { OnOk result (out.new.items ≡ out.old.items ++ line_text (rank_front rank.now [])) }
{
    put_end(out, rank.greatest)?;
    put_name(out, &rank.name)
}

fn put_next_rank(out: &mut Vec<u8>, rank: &RankPart) -> Result<(), AllocError>
    ensures { OnOk result
        (out.new.items ≡ out.old.items ++ line_text (next_rank_front rank.now [])) }
{
    put_spaced(out, b"then")?;
    put_rank(out, rank)
}

fn put_more_ranks(out: &mut Vec<u8>, ranks: &[RankPart]) -> Result<(), AllocError>
    ensures { OnOk result
        (out.new.items ≡ out.old.items ++ line_text (fronts next_rank_front ranks.now [])) }
{
    for rank in ranks {
        put_next_rank(out, rank)?;
    }
    Ok(())
}

#[tactic(auto, using(crate::proofs::Fronts::rank_splits))]
fn put_ranks(out: &mut Vec<u8>, ranks: &[RankPart]) -> Result<(), AllocError>
    ensures { OnOk result (out.new.items ≡ out.old.items ++ line_text (ranks_front ranks.now [])) }
{
    let Some((first, others)) = ranks.split_first() else {
        return Ok(());
    };
    put_rank(out, first)?;
    put_more_ranks(out, others)
}

/// `best` and the number, where there is one.
fn put_best(alloc: Global, out: &mut Vec<u8>, k: Option<u64>) -> Result<(), AllocError>
    ensures { OnOk result (out.new.items ≡ out.old.items ++ line_text (best_front k [])) }
{
    let Some(k) = k else {
        return Ok(());
    };
    put_spaced(out, b"best")?;
    put_number(alloc, out, k)
}

#[tactic(auto, using(crate::proofs::Fronts::best_splits))]
fn put_goal(alloc: Global, out: &mut Vec<u8>, goal: &GoalPart) -> Result<(), AllocError>
    ensures { OnOk result (out.new.items ≡ out.old.items ++ line_text (goal_front goal.now [])) }
{
    match goal {
        GoalPart::Count => put_spaced(out, b"count"),
        GoalPart::Any => put_spaced(out, b"any"),
        GoalPart::Max(name) => {
            put_end(out, true)?;
            put_name(out, name)
        }
        GoalPart::Min(name) => {
            put_end(out, false)?;
            put_name(out, name)
        }
        GoalPart::Best { k, greatest, name } => {
            put_spaced(out, b"best")?;
            put_number(alloc, out, *k)?;
            put_end(out, *greatest)?;
            put_name(out, name)
        }
        GoalPart::Ranked { k, keys } => {
            put_best(alloc, out, *k)?;
            put_ranks(out, keys.as_slice())
        }
    }
}

fn put_united(out: &mut Vec<u8>, table: &Name, unit: &Name) -> Result<(), AllocError>
    ensures { OnOk result (out.new.items ≡ out.old.items ++ line_text
        (spaced (Word table.now) ∷ spaced (Word (codes "unit")) ∷ spaced (Word unit.now) ∷ [])) }
{
    put_name(out, table)?;
    put_spaced(out, b"unit")?;
    put_name(out, unit)
}

fn put_kind(alloc: Global, out: &mut Vec<u8>, kind: &PartKind) -> Result<(), AllocError>
    ensures { OnOk result
        (out.new.items ≡ out.old.items ++ line_text (kind_front (kind_tree kind.now) [])) }
{
    match kind {
        PartKind::Columns(items) => {
            out.extend_from_slice(b"columns")?;
            put_items(out, items)
        }
        PartKind::Labels(names) => {
            out.extend_from_slice(b"labels")?;
            put_names(out, names)
        }
        PartKind::Measure(part) => {
            out.extend_from_slice(b"measure")?;
            put_name(out, &part.name)?;
            put_spaced(out, b"=")?;
            put_cases(alloc, out, &part.cases)
        }
        PartKind::Table(part) => {
            out.extend_from_slice(b"table")?;
            put_united(out, &part.name, &part.unit)?;
            put_listed(out, b"elements", &part.elements)
        }
        PartKind::Times(part) => {
            out.extend_from_slice(b"times")?;
            put_name(out, &part.table)?;
            put_name(out, &part.element)?;
            put_spaced(out, b"=")?;
            put_names(out, &part.products)
        }
        PartKind::Automaton(part) => put_automaton(out, part),
        PartKind::Step(part) => put_step(out, part),
        PartKind::Generate(shape) => {
            out.extend_from_slice(b"generate")?;
            put_shape(out, *shape)
        }
        PartKind::Test(test) => {
            out.extend_from_slice(b"test")?;
            put_test(alloc, out, test)
        }
        PartKind::Named { name, test } => {
            out.extend_from_slice(b"test")?;
            put_name(out, name)?;
            put_spaced(out, b"=")?;
            put_test(alloc, out, test)
        }
        PartKind::Keep(keep) => put_keep_line(out, keep),
        PartKind::Aggregate(goal) => {
            out.extend_from_slice(b"aggregate")?;
            put_goal(alloc, out, goal)
        }
    }
}

fn put_automaton(out: &mut Vec<u8>, part: &AutomatonPart) -> Result<(), AllocError>
    ensures { OnOk result (out.new.items ≡ out.old.items
        ++ line_text (kind_front (Automaton (automaton_tree part.now)) [])) }
{
    out.extend_from_slice(b"automaton")?;
    put_name(out, &part.name)?;
    put_listed(out, b"states", &part.states)?;
    put_spaced(out, b"start")?;
    put_name(out, &part.start)?;
    put_listed(out, b"letters", &part.letters)
}

fn put_step(out: &mut Vec<u8>, part: &StepPart) -> Result<(), AllocError>
    ensures { OnOk result (out.new.items ≡ out.old.items
        ++ line_text (kind_front (Step (step_tree part.now)) [])) }
{
    out.extend_from_slice(b"step")?;
    put_name(out, &part.automaton)?;
    put_name(out, &part.letter)?;
    put_spaced(out, b"=")?;
    put_names(out, &part.targets)
}

/// The part on a line of its own.
pub(crate) fn put_part(alloc: Global, out: &mut Vec<u8>, part: &Part) -> Result<(), AllocError>
    ensures { OnOk result (out.new.items ≡ out.old.items ++ part_text (part_tree part.now)) }
{
    put_kind(alloc, out, &part.kind)?;
    out.push(b'\n')?;
    Ok(())
}
