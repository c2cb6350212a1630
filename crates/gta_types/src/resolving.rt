//! Names replaced by their numbers.

ghost use Rattle.std.specs.Prelude.{◌≡◌, ℕ, ◌<◌, ◌≤◌, ◌^◌, List, length, map, option_map, IfOk, IfSome, false};
ghost use Rattle.std.specs.List.{range_with_len};
ghost use Rattle.monoid_kit.specs.declared.table.TheConstants.{GREATEST_TABLE};
ghost use Rattle.auto_monoid.specs.declared.auto.TheConstants.{LETTER_LIMIT, STATE_LIMIT};
ghost use Rattle.gta_spec.specs.Keep.{keep_map};
ghost use Rattle.gta_spec.specs.Parts.{Aggregate, Fold, Run, automaton_tree, case_tree, keep_tree};
ghost use Rattle.gta_spec.specs.Parts.{pick_tree, test_tree};
ghost use Rattle.gta_spec.specs.WellFormed.{EachFits};
ghost use Rattle.gta_checked.specs.Plain.{plain_case, plain_keep, plain_measure, plain_pick, plain_test};
ghost use Rattle.spec_automata.specs.Ready.{IsReadyAutomaton};
ghost use Rattle.spec_rules.specs.SpecRules.{is_kept_past};
ghost use Rattle.spec_tables.specs.Tables.{number_of};
ghost use Rattle.gta_types.specs.Resolved.{automaton_named, automaton_names, elements_in};
ghost use Rattle.gta_types.specs.Resolved.{letters_listed, states_listed, number_of_weight, signed, factor_of};
ghost use Rattle.gta_types.specs.Resolved.{resolved_term, resolved_atom, resolved_case, resolved_pick};
ghost use Rattle.gta_types.specs.Resolved.{resolved_test, resolved_rank, resolved_goal, column_measure};
ghost use Rattle.gta_types.specs.Ready.{IsFactorReady, IsCaseReady};
ghost use Rattle.gta_types.specs.Lists.{environment_of};

use crate::lists::Lists;
use gta_checked::{Atom, Case, Goal, Keep, Measure, Pick, Rank, Table, Term, Test};
use gta_spec::{
    AtomPart, AutomatonPart, CasePart, ColumnItem, GoalPart, KeepPart, PickPart, RankPart,
    TermPart, TestPart,
};
use gta_text::Name;
use spec_tables::number_in;
use sqlite_items::Items;
use std::alloc::{AllocError, Global};

/// The number of a column; that of columns where it is none.
fn column_number(columns: &[ColumnItem], name: &Name) -> u32
    requires { length columns.now < 2 ^ 32 }
    ensures { result ≡ number_of (map (λ item. item.name) columns.now) name.now }
{
    for (number, item) in columns.iter().enumerate() {
        if item.name.bytes() == name.bytes() {
            return number as u32;
        }
    }
    columns.len() as u32
}

/// The number of the first table of a name; that of the tables where it is none.
fn table_number(tables: &[Table], name: &Name) -> u32
    requires { length tables.now < 2 ^ 32 }
    ensures { result ≡ number_of (map (λ table. table.name) tables.now) name.now }
{
    for (number, table) in tables.iter().enumerate() {
        if table.name.bytes() == name.bytes() {
            return number as u32;
        }
    }
    tables.len() as u32
}

/// The number of a column or of a declared measure, the columns first.
fn weight_number(lists: &Lists, name: &Name) -> u32
    ensures { result ≡ number_of_weight (environment_of lists.now) name.now }
{
    let columns = lists.columns.len() as u32;
    let column = column_number(lists.columns.as_slice(), name);
    if column < columns {
        column
    } else {
        columns + number_in(lists.measures.as_slice(), name)
    }
}

fn factor(minus: bool, number: Option<u64>) -> i64
    requires { factor_of number < 2 ^ 63 }
    ensures { result ≡ signed minus (factor_of number) }
{
    let number = match number {
        Some(number) => number as i64,
        None => 1,
    };
    if minus { -number } else { number }
}

fn resolve_term(lists: &Lists, term: &TermPart) -> Term
    requires { IsFactorReady term.now }
    ensures { result ≡ resolved_term (environment_of lists.now) term.now }
{
    let column = match &term.name {
        Some(name) => Some(column_number(lists.columns.as_slice(), name)),
        None => None,
    };
    Term {
        factor: factor(term.minus, term.number),
        column,
    }
}

fn resolve_form(alloc: Global, lists: &Lists, form: &[TermPart]) -> Result<Vec<Term>, AllocError>
    requires { EachFits IsFactorReady form.now }
    ensures { IfOk result (λ terms. terms.items ≡ map (resolved_term (environment_of lists.now)) form.now) }
{
    let mut terms = Vec::new(alloc);
    for term in form {
        terms.push(resolve_term(lists, term))?;
    }
    Ok(terms)
}

fn resolve_atom(lists: &Lists, atom: &AtomPart) -> Atom
    ensures { result ≡ resolved_atom (environment_of lists.now) atom.now }
{
    match atom {
        AtomPart::Label(name) => Atom::Label(number_in(lists.labels.as_slice(), name)),
        AtomPart::Column { name, cmp, number } => Atom::Column {
            column: column_number(lists.columns.as_slice(), name),
            cmp: *cmp,
            number: *number,
        },
    }
}

fn resolve_cond(alloc: Global, lists: &Lists, cond: &[AtomPart]) -> Result<Vec<Atom>, AllocError>
    ensures { IfOk result (λ atoms. atoms.items ≡ map (resolved_atom (environment_of lists.now)) cond.now) }
{
    let mut atoms = Vec::new(alloc);
    for atom in cond {
        atoms.push(resolve_atom(lists, atom))?;
    }
    Ok(atoms)
}

fn resolve_case(alloc: Global, lists: &Lists, case: &CasePart) -> Result<Case, AllocError>
    requires { IsCaseReady (case_tree case.now) }
    ensures { IfOk result (λ done. plain_case done ≡ resolved_case (environment_of lists.now) (case_tree case.now)) }
{
    let form = resolve_form(alloc, lists, case.form.as_slice())?;
    let cond = resolve_cond(alloc, lists, case.cond.as_slice())?;
    Ok(Case { form, cond })
}

/// A declared measure.
pub(crate) fn resolve_measure(
    alloc: Global,
    lists: &Lists,
    cases: &[CasePart],
) -> Result<Measure, AllocError>
    requires { EachFits IsCaseReady (map case_tree cases.now) }
    ensures { IfOk result (λ measure. plain_measure measure
        ≡ map (resolved_case (environment_of lists.now)) (map case_tree cases.now)) }
{
    let mut done = Vec::new(alloc);
    for case in cases {
        done.push(resolve_case(alloc, lists, case)?)?;
    }
    Ok(Measure { cases: done })
}

/// The measure of a column.
fn measure_of_column(alloc: Global, column: u32) -> Result<Measure, AllocError>
    ensures { IfOk result (λ measure. plain_measure measure ≡ column_measure column) }
{
    let term = Term {
        factor: 1,
        column: Some(column),
    };
    let form = vec![in alloc; term]?;
    let case = Case {
        form,
        cond: Vec::new(alloc),
    };
    let mut cases = Vec::new(alloc);
    cases.push(case)?;
    Ok(Measure { cases })
}

/// The measures of so many columns.
pub(crate) fn column_measures(alloc: Global, columns: u32) -> Result<Vec<Measure>, AllocError>
    ensures { IfOk result (λ measures. map plain_measure measures.items
        ≡ map column_measure (range_with_len 0 columns)) }
{
    let mut measures = Vec::new(alloc);
    for column in 0..columns {
        measures.push(measure_of_column(alloc, column)?)?;
    }
    Ok(measures)
}

/// The elements of the table of a number; none where it is past the last.
fn elements_at<'n>(lists: &'n Lists, number: u32) -> &'n [Name]
    ensures few { length result.now ≤ GREATEST_TABLE }
    ensures elements { (name : List ℕ) → number ≡ number_of (map (λ table. table.name) lists.now.tables.items) name
        → result.now ≡ elements_in (environment_of lists.now).tables name }
{
    if number as usize >= lists.tables.len() {
        return &[];
    }
    lists.tables[number as usize].elements.as_slice()
}

fn resolve_pick(
    alloc: Global,
    lists: &Lists,
    elements: &[Name],
    pick: &PickPart,
) -> Result<Pick, AllocError>
    requires { length elements.now ≤ GREATEST_TABLE }
    ensures { IfOk result (λ done. plain_pick done
        ≡ resolved_pick (environment_of lists.now) elements.now (pick_tree pick.now)) }
{
    Ok(Pick {
        element: number_in(elements, &pick.element),
        cond: resolve_cond(alloc, lists, pick.cond.as_slice())?,
    })
}

fn resolve_picks(
    alloc: Global,
    lists: &Lists,
    elements: &[Name],
    picks: &[PickPart],
) -> Result<Vec<Pick>, AllocError>
    requires { length elements.now ≤ GREATEST_TABLE }
    ensures { IfOk result (λ done. map plain_pick done.items
        ≡ map (resolved_pick (environment_of lists.now) elements.now) (map pick_tree picks.now)) }
{
    let mut done = Vec::new(alloc);
    for pick in picks {
        done.push(resolve_pick(alloc, lists, elements, pick)?)?;
    }
    Ok(done)
}

/// The numbers of these names among the elements.
fn numbers_of(alloc: Global, elements: &[Name], names: &[Name]) -> Result<Vec<u32>, AllocError>
    requires { length elements.now ≤ GREATEST_TABLE }
    ensures { IfOk result (λ numbers. numbers.items ≡ map (number_of elements.now) names.now) }
{
    let mut numbers = Vec::new(alloc);
    for name in names {
        numbers.push(number_in(elements, name))?;
    }
    Ok(numbers)
}

/// The number of the first automaton of a name; that of the automata where it is none.
fn automaton_number(automata: &[&AutomatonPart], name: &Name) -> u32
    requires { length automata.now < 2 ^ 32 }
    ensures { result ≡ number_of (map (λ line. line.now.name) automata.now) name.now }
{
    for (number, automaton) in automata.iter().enumerate() {
        if automaton.name.bytes() == name.bytes() {
            return number as u32;
        }
    }
    automata.len() as u32
}

/// The first automaton of a name.
fn automaton_named<'a>(lists: &Lists<'a>, name: &Name) -> Option<&'a AutomatonPart>
    ensures ready { IfSome result (λ line. IsReadyAutomaton (automaton_tree line.now)) }
    ensures named { option_map (λ line. automaton_names (automaton_tree line.now)) result
        ≡ automaton_named (environment_of lists.now).automata name.now }
{
    for automaton in lists.automata.as_slice() {
        if automaton.name.bytes() == name.bytes() {
            return Some(*automaton);
        }
    }
    None
}

/// The letters of an automaton; none where there is none.
fn letters_of(automaton: Option<&AutomatonPart>) -> &[Name]
    requires ready { IfSome automaton (λ line. IsReadyAutomaton (automaton_tree line.now)) }
    ensures few { length result.now ≤ LETTER_LIMIT }
    ensures letters { result.now
        ≡ letters_listed (option_map (λ line. automaton_names (automaton_tree line.now)) automaton.entry) }
{
    match automaton {
        Some(automaton) => automaton.letters.as_slice(),
        None => &[],
    }
}

/// The states of an automaton; none where there is none.
fn states_of(automaton: Option<&AutomatonPart>) -> &[Name]
    requires ready { IfSome automaton (λ line. IsReadyAutomaton (automaton_tree line.now)) }
    ensures few { length result.now ≤ STATE_LIMIT }
    ensures states { result.now
        ≡ states_listed (option_map (λ line. automaton_names (automaton_tree line.now)) automaton.entry) }
{
    match automaton {
        Some(automaton) => automaton.states.as_slice(),
        None => &[],
    }
}

/// A fold: its table's number, and its elements by their numbers in that table.
fn resolve_fold(
    alloc: Global,
    lists: &Lists,
    name: &Name,
    picks: &[PickPart],
    accept: &[Name],
) -> Result<Test, AllocError>
    ensures { IfOk result (λ test. plain_test test ≡ resolved_test (environment_of lists.now)
        (Fold name.now (map pick_tree picks.now) accept.now)) }
{
    let table = table_number(lists.tables.as_slice(), name);
    let elements = elements_at(lists, table);
    Ok(Test::Fold {
        table,
        picks: resolve_picks(alloc, lists, elements, picks)?,
        accept: numbers_of(alloc, elements, accept)?,
    })
}

/// A run: its automaton's number, and its letters and states by their numbers in that automaton.
fn resolve_run(
    alloc: Global,
    lists: &Lists,
    name: &Name,
    picks: &[PickPart],
    accept: &[Name],
) -> Result<Test, AllocError>
    ensures { IfOk result (λ test. plain_test test ≡ resolved_test (environment_of lists.now)
        (Run name.now (map pick_tree picks.now) accept.now)) }
{
    let automaton = automaton_named(lists, name);
    Ok(Test::Run {
        automaton: automaton_number(lists.automata.as_slice(), name),
        picks: resolve_picks(alloc, lists, letters_of(automaton), picks)?,
        accept: numbers_of(alloc, states_of(automaton), accept)?,
    })
}

pub(crate) fn resolve_test(
    alloc: Global,
    lists: &Lists,
    test: &TestPart,
) -> Result<Test, AllocError>
    ensures { IfOk result (λ done. plain_test done
        ≡ resolved_test (environment_of lists.now) (test_tree test.now)) }
{
    match test {
        TestPart::Sum { name, check } => Ok(Test::Sum {
            measure: weight_number(lists, name),
            check: *check,
        }),
        TestPart::Length { check } => Ok(Test::Length { check: *check }),
        TestPart::Fold {
            table,
            picks,
            accept,
        } => resolve_fold(alloc, lists, table, picks.as_slice(), accept.as_slice()),
        TestPart::Run {
            automaton,
            picks,
            accept,
        } => resolve_run(alloc, lists, automaton, picks.as_slice(), accept.as_slice()),
    }
}

/// The expression over the numbers of its tests.
pub(crate) fn resolve_keep(
    alloc: Global,
    lists: &Lists,
    keep: &KeepPart,
) -> Result<Keep, AllocError>
    ensures { IfOk result (λ done. plain_keep done
        ≡ keep_map (number_of (environment_of lists.now).tests) (keep_tree keep.now)) }
{
    match keep {
        KeepPart::Test(name) => Ok(Keep::Test(number_in(lists.tests.as_slice(), name))),
        KeepPart::Not(x) => {
            let x = resolve_keep(alloc, lists, x)?;
            Ok(Keep::Not(Box::new(alloc, x)?))
        }
        KeepPart::Both(x, y) => {
            let x = resolve_keep(alloc, lists, x)?;
            let y = resolve_keep(alloc, lists, y)?;
            Ok(Keep::Both(Box::new(alloc, x)?, Box::new(alloc, y)?))
        }
        KeepPart::Either(x, y) => {
            let x = resolve_keep(alloc, lists, x)?;
            let y = resolve_keep(alloc, lists, y)?;
            Ok(Keep::Either(Box::new(alloc, x)?, Box::new(alloc, y)?))
        }
    }
}

fn resolve_ranks(alloc: Global, lists: &Lists, keys: &[RankPart]) -> Result<Items<Rank>, AllocError>
    ensures { IfOk result (λ ranks. ranks ≡ map (resolved_rank (environment_of lists.now)) keys.now) }
{
    let mut ranks = Vec::new(alloc);
    for rank in keys {
        ranks.push(Rank {
            greatest: rank.greatest,
            measure: weight_number(lists, &rank.name),
        })?;
    }
    Ok(Items::from_vec(ranks))
}

pub(crate) fn resolve_goal(
    alloc: Global,
    lists: &Lists,
    goal: &GoalPart,
) -> Result<Goal, AllocError>
    requires { is_kept_past (Aggregate goal.now) ≡ false }
    ensures { IfOk result (λ done. done ≡ resolved_goal (environment_of lists.now) goal.now) }
{
    match goal {
        GoalPart::Count => Ok(Goal::Count),
        GoalPart::Any => Ok(Goal::Any),
        GoalPart::Max(name) => Ok(Goal::Max(weight_number(lists, name))),
        GoalPart::Min(name) => Ok(Goal::Min(weight_number(lists, name))),
        GoalPart::Best { k, greatest, name } => Ok(Goal::Best {
            k: *k as u32,
            greatest: *greatest,
            measure: weight_number(lists, name),
        }),
        GoalPart::Ranked { k: Some(k), keys } => Ok(Goal::Ranked {
            k: Some(*k as u32),
            keys: resolve_ranks(alloc, lists, keys.as_slice())?,
        }),
        GoalPart::Ranked { k: None, keys } => Ok(Goal::Ranked {
            k: None,
            keys: resolve_ranks(alloc, lists, keys.as_slice())?,
        }),
    }
}
