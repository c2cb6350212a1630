//! Answers the three jobs of a drill. Which text that is, and which refusal comes in its place, is in
//! specs/Outcome.antt.

ghost use Rattle.std.specs.Prelude.{◌≤◌, []};
ghost use Rattle.drill_texts.specs.declared.table.TheConstants.{ROWS_LIMIT};
ghost use Rattle.gta_words.specs.declared.words.Command.TheVariants as commands;
ghost use Rattle.gta_words.specs.declared.words.TheConstants.{LEAF_LIMIT, WORKER_LIMIT};
ghost use Rattle.gta_job.specs.Ends.{Tells};
ghost use Rattle.gta_job.specs.Outcome.{outcome, part_outcome};

use crate::job::{JobEnd, answer_job};
use drill_texts::{Drill, drill_text, heading};
use std::alloc::Global;
use std::thread::Threads;

/// The heading and the reports of the drill's three jobs over the table of this seed and number of rows, each as a run
/// gives it; or the first refusal of the three in turn.
pub fn drill_job<R: Threads + Sync>(
    rt: &R,
    alloc: Global,
    seed: u32,
    rows: u32,
    workers: u32,
    leaf: u32,
) -> Result<Vec<u8>, JobEnd>
    requires a_row { 1 ≤ rows }
    requires few_rows { rows ≤ ROWS_LIMIT }
    requires some_workers { 1 ≤ workers }
    requires few_workers { workers ≤ WORKER_LIMIT }
    requires some_leaf { 1 ≤ leaf }
    requires few_leaf { leaf ≤ LEAF_LIMIT }
    ensures tells { Tells (λ text. text.items) (outcome (commands.Drill seed rows workers leaf) []) result }
{
    let mut text = heading(alloc, seed, rows)?;
    let best = part_report(rt, alloc, Drill::Best, seed, rows, workers, leaf)?;
    let greatest = part_report(rt, alloc, Drill::Greatest, seed, rows, workers, leaf)?;
    let segments = part_report(rt, alloc, Drill::Segments, seed, rows, workers, leaf)?;
    text.extend_from_slice(best.as_slice())?;
    text.extend_from_slice(greatest.as_slice())?;
    text.extend_from_slice(segments.as_slice())?;
    Ok(text)
}

/// The report of one of the jobs, or its refusal.
fn part_report<R: Threads + Sync>(
    rt: &R,
    alloc: Global,
    drill: Drill,
    seed: u32,
    rows: u32,
    workers: u32,
    leaf: u32,
) -> Result<Vec<u8>, JobEnd>
    requires few_rows { rows ≤ ROWS_LIMIT }
    requires some_workers { 1 ≤ workers }
    requires few_workers { workers ≤ WORKER_LIMIT }
    requires some_leaf { 1 ≤ leaf }
    requires few_leaf { leaf ≤ LEAF_LIMIT }
    ensures tells { Tells (λ text. text.items) (part_outcome leaf seed rows drill) result }
{
    let text = drill_text(alloc, drill, seed, rows)?;
    answer_job(rt, alloc, text.as_slice(), workers, leaf)
}
