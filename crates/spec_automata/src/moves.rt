//! Where the letters of an automaton lead, from its lines `step`.

ghost use Rattle.std.specs.Prelude.{◌≡◌, ◌<◌, ◌^◌, length, map, IfOk, option_map};
ghost use Rattle.gta_spec.specs.Parts.{automaton_tree, kind_tree, part_tree, step_tree};
ghost use Rattle.spec_tables.specs.Tables.{only_one, option_list};
ghost use Rattle.spec_automata.specs.Lines.{line_of, lines_of, moves_on, targets_for};
ghost use Rattle.spec_automata.specs.Checked.{AreMoves};

use gta_spec::{AutomatonPart, Part, PartKind, StepPart};
use gta_text::Name;
use spec_tables::numbers_in;
use std::alloc::{AllocError, Global};

/// What the lines `step` of an automaton are.
#[derive(Drop)]
pub(crate) enum Moves {
    /// The numbers of the states to which the letters lead, letter by letter.
    Total(Vec<u32>),
    /// The number of the first letter that doesn't lead from each state.
    NotAt(usize),
}

/// The lines `step` of an automaton.
fn lines_of<'a>(
    alloc: Global,
    parts: &'a [Part],
    automaton: &Name,
) -> Result<Vec<&'a StepPart>, AllocError>
    ensures { IfOk result (λ lines. map (λ line. step_tree line.now) lines.items
        ≡ lines_of (map part_tree parts.now) automaton.now) }
{
    let mut lines = Vec::new(alloc);
    for part in parts {
        if let Some(line) = line_of(part, automaton) {
            lines.push(line)?;
        }
    }
    Ok(lines)
}

/// A line, where it is one `step` of this automaton.
fn line_of<'a>(part: &'a Part, automaton: &Name) -> Option<&'a StepPart>
    ensures { option_list (option_map (λ line. step_tree line.now) result)
        ≡ line_of automaton.now (kind_tree part.now.kind) }
{
    match &part.kind {
        PartKind::Step(step) => {
            if step.automaton.bytes() == automaton.bytes() {
                Some(step)
            } else {
                None
            }
        }
        _ => None,
    }
}

/// The states on the only line of a letter; None where there is no line, or more than one.
fn only_line<'a>(lines: &[&'a StepPart], letter: &Name) -> Option<&'a [Name]>
    ensures { option_map (λ targets. targets.now) result
        ≡ only_one (targets_for letter.now (map (λ line. step_tree line.now) lines.now)) }
{
    let mut found = None;
    for line in lines {
        if line.letter.bytes() == letter.bytes() {
            if found.is_some() {
                return None;
            }
            found = Some(line.targets.as_slice());
        }
    }
    found
}

/// The numbers of the states to which a letter leads; None where it doesn't lead from each state.
fn letter_moves(
    alloc: Global,
    lines: &[&StepPart],
    automaton: &AutomatonPart,
    letter: &Name,
) -> Result<Option<Vec<u32>>, AllocError>
    requires { length automaton.now.states.items < 2 ^ 32 }
    ensures { IfOk result (λ moves. option_map (λ numbers. numbers.items) moves
        ≡ moves_on (map (λ line. step_tree line.now) lines.now) (automaton_tree automaton.now) letter.now) }
{
    match only_line(lines, letter) {
        Some(targets) => numbers_in(alloc, automaton.states.as_slice(), targets),
        None => Ok(None),
    }
}

/// The numbers of the states to which all letters lead, or the first letter that doesn't lead from each state.
pub(crate) fn moves_of(
    alloc: Global,
    parts: &[Part],
    automaton: &AutomatonPart,
) -> Result<Moves, AllocError>
    requires { length automaton.now.states.items < 2 ^ 32 }
    ensures { IfOk result (AreMoves (map part_tree parts.now) (automaton_tree automaton.now)) }
{
    // The lines are found once, since there may be many of them besides those of this automaton.
    let lines = lines_of(alloc, parts, &automaton.name)?;
    let mut moves = Vec::new(alloc);
    for (number, letter) in automaton.letters.iter().enumerate() {
        match letter_moves(alloc, lines.as_slice(), automaton, letter)? {
            Some(states) => moves.extend_from_slice(&states)?,
            None => return Ok(Moves::NotAt(number)),
        }
    }
    Ok(Moves::Total(moves))
}
