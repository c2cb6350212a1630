//! The names that the lines use, looked up in the order of the lines.

ghost use Rattle.std.specs.Prelude.{◌≡◌, ℕ, List, [], ◌∷◌, ◌++◌, map, option_map};
ghost use Rattle.std.specs.List.{flat_map};
ghost use Rattle.gta_spec.specs.Keep.{kept_tests};
ghost use Rattle.gta_spec.specs.Parts.{keep_tree};
ghost use Rattle.gta_spec.specs.Parts.{case_tree, pick_tree, test_tree, times_tree, step_tree, kind_tree, part_tree};
ghost use Rattle.gta_spec.specs.Parts.{Fold, Run, Step, Times};
ghost use Rattle.gta_types.specs.Names.{use_as, uses_of_term, use_of_atom, uses_of_case, uses_of_pick};
ghost use Rattle.gta_types.specs.Names.{use_of_rank, uses_of_test, uses_of_goal, uses_of, uses, is_of};
ghost use Rattle.gta_types.specs.Names.{home, TestName, Within};
ghost use Rattle.spec_tables.specs.Tables.{is_one_of};
ghost use Rattle.gta_types.specs.Index.{place, known_at, known_by, has_inner, unknown_in, wanted_of};

use crate::declaring::{InnerKind, NameKind, scope_within};
use crate::names::{Found, Names, Place};
use gta_spec::{
    AtomPart, CasePart, GoalPart, KeepPart, Part, PartKind, PickPart, RankPart, StepPart, TermPart,
    TestPart, TimesPart,
};
use gta_text::Name;

/// What a name is used as.
#[derive(Clone, Copy)]
pub(crate) enum Wanted<'a> {
    Column,
    Label,
    Weight,
    TableName,
    TestName,
    AutomatonName,
    OneOf(&'a [Name]),
}

fn is_kind(found: Option<Found>, kind: NameKind) -> bool
    ensures { result ≡ is_of kind (option_map (λ f. f.kind) found) }
{
    match found {
        Some(found) => found.kind == kind,
        None => false,
    }
}

fn is_one_of(names: &[Name], name: &Name) -> bool
    ensures { result ≡ is_one_of names.now name.now }
{
    for other in names {
        if other.bytes() == name.bytes() {
            return true;
        }
    }
    false
}

/// What a line is named as within which there are names of a kind.
fn home(kind: InnerKind) -> NameKind
    ensures { result ≡ home kind }
{
    match kind {
        InnerKind::Element => NameKind::ATable,
        InnerKind::State => NameKind::AnAutomaton,
        InnerKind::Letter => NameKind::AnAutomaton,
    }
}

fn has_inner<'a>(names: &Names<'a>, kind: InnerKind, of: Option<Found>, name: &'a Name) -> bool
    ensures { result ≡ has_inner names.now kind of name.now }
{
    match of {
        Some(line) if line.kind == home(kind) => {
            names
                .look(scope_within(kind, line.line), name.bytes())
                .is_some()
        }
        _ => true,
    }
}

fn is_known<'a>(names: &Names<'a>, wanted: Wanted<'a>, name: &'a Name) -> bool
    ensures { result ≡ known_by names.now (wanted_of wanted.entry) name.now }
{
    match wanted {
        Wanted::Column => is_kind(names.look(0, name.bytes()), NameKind::AColumn),
        Wanted::Label => is_kind(names.look(0, name.bytes()), NameKind::ALabel),
        Wanted::Weight => {
            let found = names.look(0, name.bytes());
            is_kind(found, NameKind::AColumn) || is_kind(found, NameKind::AMeasure)
        }
        Wanted::TableName => is_kind(names.look(0, name.bytes()), NameKind::ATable),
        Wanted::TestName => is_kind(names.look(0, name.bytes()), NameKind::ATest),
        Wanted::AutomatonName => is_kind(names.look(0, name.bytes()), NameKind::AnAutomaton),
        Wanted::OneOf(others) => is_one_of(others, name),
    }
}

fn unknown<'a>(
    names: &Names<'a>,
    line: u32,
    wanted: Wanted<'a>,
    name: &'a Name,
) -> Option<Place<'a>>
    ensures { option_map place result
        ≡ unknown_in names.now (use_as line (wanted_of wanted.entry) name.now ∷ []) }
{
    if is_known(names, wanted, name) {
        None
    } else {
        Some(Place { line, name })
    }
}

/// The name, where it is none of this kind within the line that the index has so.
fn unknown_inner<'a>(
    names: &Names<'a>,
    line: u32,
    kind: InnerKind,
    of: Option<Found>,
    name: &'a Name,
) -> Option<Place<'a>>
    ensures { (home : List ℕ) → known_at names.now 0 home ≡ of → option_map place result
        ≡ unknown_in names.now (use_as line (Within kind home) name.now ∷ []) }
{
    if has_inner(names, kind, of, name) {
        None
    } else {
        Some(Place { line, name })
    }
}

fn in_term<'a>(names: &Names<'a>, line: u32, term: &'a TermPart) -> Option<Place<'a>>
    ensures { option_map place result ≡ unknown_in names.now (uses_of_term line term.now.name) }
{
    match &term.name {
        Some(name) => unknown(names, line, Wanted::Column, name),
        None => None,
    }
}

fn in_form<'a>(names: &Names<'a>, line: u32, form: &'a [TermPart]) -> Option<Place<'a>>
    ensures { option_map place result
        ≡ unknown_in names.now (flat_map (λ term. uses_of_term line term.name) form.now) }
{
    for term in form {
        let found = in_term(names, line, term);
        if found.is_some() {
            return found;
        }
    }
    None
}

fn in_atom<'a>(names: &Names<'a>, line: u32, atom: &'a AtomPart) -> Option<Place<'a>>
    ensures { option_map place result ≡ unknown_in names.now (use_of_atom line atom.now ∷ []) }
{
    match atom {
        AtomPart::Label(name) => unknown(names, line, Wanted::Label, name),
        AtomPart::Column { name, .. } => unknown(names, line, Wanted::Column, name),
    }
}

fn in_cond<'a>(names: &Names<'a>, line: u32, cond: &'a [AtomPart]) -> Option<Place<'a>>
    ensures { option_map place result ≡ unknown_in names.now (map (use_of_atom line) cond.now) }
{
    for atom in cond {
        let found = in_atom(names, line, atom);
        if found.is_some() {
            return found;
        }
    }
    None
}

fn in_case<'a>(names: &Names<'a>, line: u32, case: &'a CasePart) -> Option<Place<'a>>
    ensures { option_map place result ≡ unknown_in names.now (uses_of_case line (case_tree case.now)) }
{
    let found = in_form(names, line, case.form.as_slice());
    if found.is_some() {
        return found;
    }
    in_cond(names, line, case.cond.as_slice())
}

fn in_cases<'a>(names: &Names<'a>, line: u32, cases: &'a [CasePart]) -> Option<Place<'a>>
    ensures { option_map place result
        ≡ unknown_in names.now (flat_map (uses_of_case line) (map case_tree cases.now)) }
{
    for case in cases {
        let found = in_case(names, line, case);
        if found.is_some() {
            return found;
        }
    }
    None
}

fn in_pick<'a>(
    names: &Names<'a>,
    line: u32,
    kind: InnerKind,
    of: Option<Found>,
    pick: &'a PickPart,
) -> Option<Place<'a>>
    ensures { (home : List ℕ) → known_at names.now 0 home ≡ of → option_map place result
        ≡ unknown_in names.now (uses_of_pick line (Within kind home) (pick_tree pick.now)) }
{
    let found = unknown_inner(names, line, kind, of, &pick.element);
    if found.is_some() {
        return found;
    }
    in_cond(names, line, pick.cond.as_slice())
}

fn in_picks<'a>(
    names: &Names<'a>,
    line: u32,
    kind: InnerKind,
    of: Option<Found>,
    picks: &'a [PickPart],
) -> Option<Place<'a>>
    ensures { (home : List ℕ) → known_at names.now 0 home ≡ of → option_map place result
        ≡ unknown_in names.now (flat_map (uses_of_pick line (Within kind home)) (map pick_tree picks.now)) }
{
    for pick in picks {
        let found = in_pick(names, line, kind, of, pick);
        if found.is_some() {
            return found;
        }
    }
    None
}

fn in_inner_names<'a>(
    names: &Names<'a>,
    line: u32,
    kind: InnerKind,
    of: Option<Found>,
    used: &'a [Name],
) -> Option<Place<'a>>
    ensures { (home : List ℕ) → known_at names.now 0 home ≡ of → option_map place result
        ≡ unknown_in names.now (map (use_as line (Within kind home)) used.now) }
{
    for name in used {
        let found = unknown_inner(names, line, kind, of, name);
        if found.is_some() {
            return found;
        }
    }
    None
}

/// The picks of a kind, and the accepted names of a kind, within the line that the index has so.
fn in_picks_and_accepted<'a>(
    names: &Names<'a>,
    line: u32,
    of: Option<Found>,
    picked: InnerKind,
    picks: &'a [PickPart],
    accepted: InnerKind,
    accept: &'a [Name],
) -> Option<Place<'a>>
    ensures { (home : List ℕ) → known_at names.now 0 home ≡ of → option_map place result
        ≡ unknown_in names.now (flat_map (uses_of_pick line (Within picked home)) (map pick_tree picks.now)
        ++ map (use_as line (Within accepted home)) accept.now) }
{
    let found = in_picks(names, line, picked, of, picks);
    if found.is_some() {
        return found;
    }
    in_inner_names(names, line, accepted, of, accept)
}

fn in_fold<'a>(
    names: &Names<'a>,
    line: u32,
    table: &'a Name,
    picks: &'a [PickPart],
    accept: &'a [Name],
) -> Option<Place<'a>>
    ensures { option_map place result ≡ unknown_in names.now
        (uses_of_test line (Fold table.now (map pick_tree picks.now) accept.now)) }
{
    let found = unknown(names, line, Wanted::TableName, table);
    if found.is_some() {
        return found;
    }
    // The table is looked up once: its name may be long, and its elements many.
    let of = names.look(0, table.bytes());
    let element = InnerKind::Element;
    in_picks_and_accepted(names, line, of, element, picks, element, accept)
}

fn in_run<'a>(
    names: &Names<'a>,
    line: u32,
    automaton: &'a Name,
    picks: &'a [PickPart],
    accept: &'a [Name],
) -> Option<Place<'a>>
    ensures { option_map place result ≡ unknown_in names.now
        (uses_of_test line (Run automaton.now (map pick_tree picks.now) accept.now)) }
{
    let found = unknown(names, line, Wanted::AutomatonName, automaton);
    if found.is_some() {
        return found;
    }
    let of = names.look(0, automaton.bytes());
    in_picks_and_accepted(
        names,
        line,
        of,
        InnerKind::Letter,
        picks,
        InnerKind::State,
        accept,
    )
}

fn in_test<'a>(names: &Names<'a>, line: u32, test: &'a TestPart) -> Option<Place<'a>>
    ensures { option_map place result ≡ unknown_in names.now (uses_of_test line (test_tree test.now)) }
{
    match test {
        TestPart::Sum { name, .. } => unknown(names, line, Wanted::Weight, name),
        TestPart::Length { .. } => None,
        TestPart::Fold {
            table,
            picks,
            accept,
        } => in_fold(names, line, table, picks.as_slice(), accept.as_slice()),
        TestPart::Run {
            automaton,
            picks,
            accept,
        } => in_run(names, line, automaton, picks.as_slice(), accept.as_slice()),
    }
}

fn in_keep<'a>(names: &Names<'a>, line: u32, keep: &'a KeepPart) -> Option<Place<'a>>
    ensures { option_map place result
        ≡ unknown_in names.now (map (use_as line TestName) (kept_tests (keep_tree keep.now))) }
{
    match keep {
        KeepPart::Test(name) => unknown(names, line, Wanted::TestName, name),
        KeepPart::Not(x) => in_keep(names, line, x),
        KeepPart::Both(x, y) | KeepPart::Either(x, y) => {
            let found = in_keep(names, line, x);
            if found.is_some() {
                return found;
            }
            in_keep(names, line, y)
        }
    }
}

fn in_ranks<'a>(names: &Names<'a>, line: u32, keys: &'a [RankPart]) -> Option<Place<'a>>
    ensures { option_map place result ≡ unknown_in names.now (map (use_of_rank line) keys.now) }
{
    for rank in keys {
        let found = unknown(names, line, Wanted::Weight, &rank.name);
        if found.is_some() {
            return found;
        }
    }
    None
}

fn in_goal<'a>(names: &Names<'a>, line: u32, goal: &'a GoalPart) -> Option<Place<'a>>
    ensures { option_map place result ≡ unknown_in names.now (uses_of_goal line goal.now) }
{
    match goal {
        GoalPart::Count => None,
        GoalPart::Any => None,
        GoalPart::Max(name) => unknown(names, line, Wanted::Weight, name),
        GoalPart::Min(name) => unknown(names, line, Wanted::Weight, name),
        GoalPart::Best { name, .. } => unknown(names, line, Wanted::Weight, name),
        GoalPart::Ranked { keys, .. } => in_ranks(names, line, keys.as_slice()),
    }
}

fn in_times<'a>(names: &Names<'a>, line: u32, times: &'a TimesPart) -> Option<Place<'a>>
    ensures { option_map place result
        ≡ unknown_in names.now (uses_of line (Times (times_tree times.now))) }
{
    let found = unknown(names, line, Wanted::TableName, &times.table);
    if found.is_some() {
        return found;
    }
    let of = names.look(0, times.table.bytes());
    let found_element = unknown_inner(names, line, InnerKind::Element, of, &times.element);
    if found_element.is_some() {
        return found_element;
    }
    in_inner_names(
        names,
        line,
        InnerKind::Element,
        of,
        times.products.as_slice(),
    )
}

fn in_step<'a>(names: &Names<'a>, line: u32, step: &'a StepPart) -> Option<Place<'a>>
    ensures { option_map place result ≡ unknown_in names.now (uses_of line (Step (step_tree step.now))) }
{
    let found = unknown(names, line, Wanted::AutomatonName, &step.automaton);
    if found.is_some() {
        return found;
    }
    let of = names.look(0, step.automaton.bytes());
    let found_letter = unknown_inner(names, line, InnerKind::Letter, of, &step.letter);
    if found_letter.is_some() {
        return found_letter;
    }
    in_inner_names(names, line, InnerKind::State, of, step.targets.as_slice())
}

fn in_part<'a>(names: &Names<'a>, line: u32, kind: &'a PartKind) -> Option<Place<'a>>
    ensures { option_map place result ≡ unknown_in names.now (uses_of line (kind_tree kind.now)) }
{
    match kind {
        PartKind::Measure(part) => in_cases(names, line, part.cases.as_slice()),
        PartKind::Table(part) => unknown(
            names,
            line,
            Wanted::OneOf(part.elements.as_slice()),
            &part.unit,
        ),
        PartKind::Times(part) => in_times(names, line, part),
        PartKind::Automaton(part) => {
            let states = Wanted::OneOf(part.states.as_slice());
            unknown(names, line, states, &part.start)
        }
        PartKind::Step(part) => in_step(names, line, part),
        PartKind::Test(test) => in_test(names, line, test),
        PartKind::Named { test, .. } => in_test(names, line, test),
        PartKind::Keep(keep) => in_keep(names, line, keep),
        PartKind::Aggregate(goal) => in_goal(names, line, goal),
        PartKind::Columns(_) => None,
        PartKind::Labels(_) => None,
        PartKind::Generate(_) => None,
    }
}

/// The first use of a name that isn't declared for it.
pub(crate) fn unknown_in<'a>(names: &Names<'a>, parts: &'a [Part]) -> Option<Place<'a>>
    ensures { option_map place result ≡ unknown_in names.now (uses (map part_tree parts.now)) }
{
    for part in parts {
        let found = in_part(names, part.line, &part.kind);
        if found.is_some() {
            return found;
        }
    }
    None
}
