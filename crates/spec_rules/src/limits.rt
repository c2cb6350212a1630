//! The limits that one line passes, the first of them in their order.

ghost use Rattle.std.specs.Prelude.{◌≡◌, ℕ, ◌<◌, List, map, Some, None, if◌then◌else◌};
ghost use Rattle.std.specs.List.{list_any};
ghost use Rattle.gta_spec.specs.Parts.{automaton_tree, case_tree, kind_tree, measure_tree, table_tree, pick_tree};
ghost use Rattle.gta_spec.specs.Parts.{test_tree, Columns, Labels, Measure, Table, Automaton, Test, Named, Aggregate};
ghost use Rattle.gta_spec.specs.Parts.{Sum, Length, Fold, Run};
ghost use Rattle.spec_rules.specs.SpecRules.{case_conditions, case_forms, declared_names, header_texts, headers};
ghost use Rattle.spec_rules.specs.SpecRules.{is_factor_past, is_longer, is_number_kept_past};
ghost use Rattle.spec_rules.specs.SpecRules.{passed_limit, pick_conditions};
ghost use Rattle.spec_rules.specs.declared.fault.Limit.TheVariants.{Kept};

use crate::fault::Limit;
use gta_spec::{
    ATOM_LIMIT, AUTOMATON_LIMIT, AutomatonPart, BOUND_LIMIT, CASE_LIMIT, COLUMN_LIMIT, CasePart,
    Check, ColumnItem, ELEMENT_LIMIT, FACTOR_LIMIT, GoalPart, HEADER_LIMIT, KEEP_LIMIT,
    LABEL_LIMIT, LETTER_LIMIT, MEASURE_LIMIT, MODULUS_LIMIT, MeasurePart, NAME_LIMIT, PartKind,
    PickPart, STATE_LIMIT, TABLE_LIMIT, TERM_LIMIT, TEST_LIMIT, TablePart, TermPart, TestPart,
};
use gta_text::Name;

/// The first limit that a line passes before which so many of its kind stand.
pub(crate) fn passed_limit(count: usize, kind: &PartKind) -> Option<Limit>
    ensures { result ≡ passed_limit count (kind_tree kind.now) }
{
    match kind {
        PartKind::Columns(items) => columns_limit(items),
        PartKind::Labels(names) => labels_limit(names),
        PartKind::Measure(part) => measure_limit(count, part),
        PartKind::Table(part) => table_limit(count, part),
        PartKind::Test(part) => test_limit(count, part),
        PartKind::Named { name, test } => named_limit(count, name, test),
        PartKind::Aggregate(goal) => goal_limit(goal),
        PartKind::Automaton(part) => automaton_limit(count, part),
        PartKind::Times(_) | PartKind::Step(_) | PartKind::Generate(_) | PartKind::Keep(_) => None,
    }
}

fn is_name_past(name: &Name) -> bool
    ensures { result ≡ is_longer NAME_LIMIT name.now }
{
    name.bytes().len() > NAME_LIMIT
}

fn have_name_past(names: &[Name]) -> bool
    ensures { result ≡ list_any (is_longer NAME_LIMIT) names.now }
{
    names.iter().any(|name| is_name_past(name))
}

fn items_have_name_past(items: &[ColumnItem]) -> bool
    ensures { result ≡ list_any (is_longer NAME_LIMIT) (declared_names (Columns items.now)) }
{
    items.iter().any(|item| is_name_past(&item.name))
}

fn is_header_past(header: &Option<Name>) -> bool
    ensures { result ≡ list_any (is_longer HEADER_LIMIT) (header_texts header.now) }
{
    match header {
        Some(text) => text.bytes().len() > HEADER_LIMIT,
        None => false,
    }
}

fn have_header_past(items: &[ColumnItem]) -> bool
    ensures { result ≡ list_any (is_longer HEADER_LIMIT) (headers (Columns items.now)) }
{
    items.iter().any(|item| is_header_past(&item.header))
}

fn columns_limit(items: &[ColumnItem]) -> Option<Limit>
    ensures { (count : ℕ) → result ≡ passed_limit count (Columns items.now) }
{
    if items_have_name_past(items) {
        Some(Limit::Name)
    } else if have_header_past(items) {
        Some(Limit::Header)
    } else if items.len() > COLUMN_LIMIT {
        Some(Limit::Columns)
    } else {
        None
    }
}

fn labels_limit(names: &[Name]) -> Option<Limit>
    ensures { (count : ℕ) → result ≡ passed_limit count (Labels names.now) }
{
    if have_name_past(names) {
        Some(Limit::Name)
    } else if names.len() > LABEL_LIMIT {
        Some(Limit::Labels)
    } else {
        None
    }
}

fn measure_limit(count: usize, part: &MeasurePart) -> Option<Limit>
    ensures { result ≡ passed_limit count (Measure (measure_tree part.now)) }
{
    let cases = part.cases.as_slice();
    if is_name_past(&part.name) {
        Some(Limit::Name)
    } else if count >= MEASURE_LIMIT {
        Some(Limit::Measures)
    } else if cases.len() > CASE_LIMIT {
        Some(Limit::Cases)
    } else if have_form_past(cases) {
        Some(Limit::Terms)
    } else if have_condition_past(cases) {
        Some(Limit::Atoms)
    } else if have_factor_past(cases) {
        Some(Limit::Factor)
    } else {
        None
    }
}

fn have_form_past(cases: &[CasePart]) -> bool
    ensures { result ≡ list_any (is_longer TERM_LIMIT) (case_forms (map case_tree cases.now)) }
{
    cases.iter().any(|case| case.form.len() > TERM_LIMIT)
}

fn have_condition_past(cases: &[CasePart]) -> bool
    ensures { result ≡ list_any (is_longer ATOM_LIMIT) (case_conditions (map case_tree cases.now)) }
{
    cases.iter().any(|case| case.cond.len() > ATOM_LIMIT)
}

fn have_factor_past(cases: &[CasePart]) -> bool
    ensures { result ≡ list_any (list_any is_factor_past) (case_forms (map case_tree cases.now)) }
{
    cases.iter().any(|case| has_factor_past(&case.form))
}

fn has_factor_past(form: &[TermPart]) -> bool
    ensures { result ≡ list_any is_factor_past form.now }
{
    form.iter().any(|term| is_factor_past(term))
}

fn is_factor_past(term: &TermPart) -> bool
    ensures { result ≡ is_factor_past term.now }
{
    match (&term.number, &term.name) {
        (Some(number), Some(_)) => *number > FACTOR_LIMIT,
        _ => false,
    }
}

fn table_limit(count: usize, part: &TablePart) -> Option<Limit>
    ensures { result ≡ passed_limit count (Table (table_tree part.now)) }
{
    if is_name_past(&part.name) || have_name_past(&part.elements) {
        Some(Limit::Name)
    } else if count >= TABLE_LIMIT {
        Some(Limit::Tables)
    } else if part.elements.len() > ELEMENT_LIMIT {
        Some(Limit::Elements)
    } else {
        None
    }
}

fn automaton_limit(count: usize, part: &AutomatonPart) -> Option<Limit>
    ensures { result ≡ passed_limit count (Automaton (automaton_tree part.now)) }
{
    if is_name_past(&part.name) || have_name_past(&part.states) || have_name_past(&part.letters) {
        Some(Limit::Name)
    } else if count >= AUTOMATON_LIMIT {
        Some(Limit::Automata)
    } else if part.states.len() > STATE_LIMIT {
        Some(Limit::States)
    } else if part.letters.len() > LETTER_LIMIT {
        Some(Limit::Letters)
    } else {
        None
    }
}

fn test_limit(count: usize, part: &TestPart) -> Option<Limit>
    ensures { result ≡ passed_limit count (Test (test_tree part.now)) }
{
    if count >= TEST_LIMIT {
        return Some(Limit::Tests);
    }
    match part {
        TestPart::Sum { check, .. } | TestPart::Length { check } => check_limit(check),
        TestPart::Fold { picks, .. } => picks_limit(picks),
        TestPart::Run { picks, .. } => picks_limit(picks),
    }
}

fn named_limit(count: usize, name: &Name, part: &TestPart) -> Option<Limit>
    ensures { result ≡ passed_limit count (Named name.now (test_tree part.now)) }
{
    if is_name_past(name) {
        Some(Limit::Name)
    } else {
        test_limit(count, part)
    }
}

fn check_limit(check: &Check) -> Option<Limit>
    ensures of_sum { (count : ℕ) (name : List ℕ) → count < TEST_LIMIT
        → result ≡ passed_limit count (Test (Sum name check.now)) }
    ensures of_length { (count : ℕ) → count < TEST_LIMIT → result ≡ passed_limit count (Test (Length check.now)) }
{
    match *check {
        Check::Compare { number, .. } => {
            if number < 0 || number > BOUND_LIMIT as i64 {
                Some(Limit::Bound)
            } else {
                None
            }
        }
        Check::Mod { modulus, residue } => {
            if modulus < 1 || modulus > MODULUS_LIMIT {
                Some(Limit::Modulus)
            } else if residue >= modulus {
                Some(Limit::Residue)
            } else {
                None
            }
        }
    }
}

fn picks_limit(picks: &[PickPart]) -> Option<Limit>
    ensures of_fold { (count : ℕ) (table : List ℕ) (accept : List (List ℕ)) → count < TEST_LIMIT
        → result ≡ passed_limit count (Test (Fold table (map pick_tree picks.now) accept)) }
    ensures of_run { (count : ℕ) (automaton : List ℕ) (accept : List (List ℕ)) → count < TEST_LIMIT
        → result ≡ passed_limit count (Test (Run automaton (map pick_tree picks.now) accept)) }
{
    if picks.len() > CASE_LIMIT {
        Some(Limit::Cases)
    } else if picks_have_condition_past(picks) {
        Some(Limit::Atoms)
    } else {
        None
    }
}

fn picks_have_condition_past(picks: &[PickPart]) -> bool
    ensures { result ≡ list_any (is_longer ATOM_LIMIT) (pick_conditions (map pick_tree picks.now)) }
{
    picks.iter().any(|pick| pick.cond.len() > ATOM_LIMIT)
}

fn goal_limit(goal: &GoalPart) -> Option<Limit>
    ensures { (count : ℕ) → result ≡ passed_limit count (Aggregate goal.now) }
{
    match goal {
        GoalPart::Best { k, .. } | GoalPart::Ranked { k: Some(k), .. } => kept_limit(*k),
        _ => None,
    }
}

fn kept_limit(k: u64) -> Option<Limit>
    ensures { result ≡ if is_number_kept_past k then Some Kept else None }
{
    if k < 1 || k > KEEP_LIMIT {
        Some(Limit::Kept)
    } else {
        None
    }
}
