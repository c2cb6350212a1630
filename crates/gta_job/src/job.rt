//! Answers a whole job, and shows its specification. What a command comes to on bytes, its text or its first refusal,
//! is in specs/Outcome.antt; the steps that commands share are in steps.rt.

ghost use Rattle.std.specs.Prelude.{◌≡◌, ◌≤◌};
ghost use Rattle.gta_words.specs.declared.words.Command.TheVariants.{Run, Show};
ghost use Rattle.gta_words.specs.declared.words.TheConstants.{LEAF_LIMIT, WORKER_LIMIT};
ghost use Rattle.gta_job.specs.Ends.{Tells};
ghost use Rattle.gta_job.specs.Outcome.{outcome};

use crate::rows_job::rows_report;
use crate::steps::{bytes_from, checked_spec, table_rows};
use fuse_answer::{Crew, Job};
use gta_canonical::show_spec;
use gta_rows::RowsFault;
use gta_syntax::SpecFault;
use gta_types::CheckFault;
use report_text::Refusal;
use spec_automata::AutomataFault;
use spec_tables::TablesFault;
use std::alloc::{AllocError, Global};
use std::thread::Threads;
use worker_pool::{Gate, OpenGate};

/// The most bytes that an input may have.
pub const INPUT_LIMIT: usize = 67108864;

/// The most bytes that an input of version 1 may have.
pub const FIRST_INPUT_LIMIT: usize = 16777216;

/// Why a job has no text.
#[derive(Debug, Drop)]
pub enum JobEnd {
    /// The input is refused, and this is the first refusal in their order.
    Refused(Refusal),
    /// Memory was wanting.
    Memory,
}

impl From<AllocError> for JobEnd {
    ghost use Rattle.gta_job.specs.declared.job.JobEnd.TheVariants.{Memory};

    ghost from_gives = { λ _ end. end ≡ Memory };

    fn from(_: AllocError) -> JobEnd {
        JobEnd::Memory
    }
}

impl From<SpecFault> for JobEnd {
    ghost use Rattle.gta_job.specs.Ends.{end_of_reading};

    ghost from_gives = { λ fault end. end ≡ end_of_reading fault };

    fn from(fault: SpecFault) -> JobEnd {
        match fault {
            SpecFault::Byte { line, place } => JobEnd::Refused(Refusal::Byte { line, place }),
            SpecFault::Version { line } => JobEnd::Refused(Refusal::Version { line }),
            SpecFault::Grammar { line } => JobEnd::Refused(Refusal::Grammar { line }),
            SpecFault::Number { line } => JobEnd::Refused(Refusal::Number { line }),
            SpecFault::NoRows => JobEnd::Refused(Refusal::NoRows),
            SpecFault::Memory => JobEnd::Memory,
        }
    }
}

impl From<TablesFault> for JobEnd {
    ghost use Rattle.gta_job.specs.Ends.{end_of_tables};

    ghost from_gives = { λ fault end. end ≡ end_of_tables fault };

    fn from(fault: TablesFault) -> JobEnd {
        match fault {
            TablesFault::UnitFails {
                table,
                element,
                left,
            } => JobEnd::Refused(Refusal::UnitFails {
                table,
                element,
                left,
            }),
            TablesFault::NotAssociative { table, a, b, c } => {
                JobEnd::Refused(Refusal::NotAssociative { table, a, b, c })
            }
            TablesFault::NotSquare { table, element } => {
                JobEnd::Refused(Refusal::NotSquare { table, element })
            }
            TablesFault::Memory => JobEnd::Memory,
        }
    }
}

impl From<AutomataFault> for JobEnd {
    ghost use Rattle.gta_job.specs.Ends.{end_of_automata};

    ghost from_gives = { λ fault end. end ≡ end_of_automata fault };

    fn from(fault: AutomataFault) -> JobEnd {
        match fault {
            AutomataFault::NotTotal { automaton, letter } => JobEnd::Refused(Refusal::Automaton {
                name: automaton,
                letter: Some(letter),
            }),
            AutomataFault::TooMany { automaton } => JobEnd::Refused(Refusal::Automaton {
                name: automaton,
                letter: None,
            }),
            AutomataFault::Memory => JobEnd::Memory,
        }
    }
}

impl From<CheckFault> for JobEnd {
    ghost use Rattle.gta_job.specs.Ends.{end_of_checking};

    ghost from_gives = { λ fault end. end ≡ end_of_checking fault };

    fn from(fault: CheckFault) -> JobEnd {
        match fault {
            CheckFault::Unknown { line, name } => JobEnd::Refused(Refusal::Unknown { line, name }),
            CheckFault::Twice { line, name } => JobEnd::Refused(Refusal::Twice { line, name }),
            CheckFault::Missing { part } => JobEnd::Refused(Refusal::Missing { part }),
            CheckFault::SecondPart { line, part } => {
                JobEnd::Refused(Refusal::SecondPart { line, part })
            }
            CheckFault::LabelsAssign { line, assign } => {
                JobEnd::Refused(Refusal::LabelsAssign { line, assign })
            }
            CheckFault::Limit { line, limit } => JobEnd::Refused(Refusal::Limit { line, limit }),
            CheckFault::Table(fault) => JobEnd::from(fault),
            CheckFault::Automaton(fault) => JobEnd::from(fault),
            CheckFault::Memory => JobEnd::Memory,
        }
    }
}

impl From<RowsFault> for JobEnd {
    ghost use Rattle.gta_job.specs.Ends.{end_of_table};

    ghost from_gives = { λ fault end. end ≡ end_of_table fault };

    fn from(fault: RowsFault) -> JobEnd {
        match fault {
            RowsFault::NoHeader => JobEnd::Refused(Refusal::NoHeader),
            RowsFault::Missing { column } => JobEnd::Refused(Refusal::ColumnMissing { column }),
            RowsFault::ColumnTwice { column } => JobEnd::Refused(Refusal::ColumnTwice { column }),
            RowsFault::Length {
                row,
                fields,
                header,
            } => JobEnd::Refused(Refusal::Length {
                row,
                fields,
                header,
            }),
            RowsFault::Field { row, column } => JobEnd::Refused(Refusal::Field { row, column }),
            RowsFault::TooMany { limit } => JobEnd::Refused(Refusal::TooMany { limit }),
            RowsFault::Memory => JobEnd::Memory,
        }
    }
}

/// The report of the job that the bytes hold, or its refusal. The number of workers shows nowhere,
/// and the size of a leaf only in the refusal of a job that is too large.
pub fn answer_job<R: Threads + Sync>(
    rt: &R,
    alloc: Global,
    bytes: &[u8],
    workers: u32,
    leaf: u32,
) -> Result<Vec<u8>, JobEnd>
    requires some_workers { 1 ≤ workers }
    requires few_workers { workers ≤ WORKER_LIMIT }
    requires some_leaf { 1 ≤ leaf }
    requires few_leaf { leaf ≤ LEAF_LIMIT }
    ensures tells { Tells (λ text. text.items) (outcome (Run workers leaf) bytes.now) result }
{
    answer_with(rt, alloc, bytes, workers, leaf, &OpenGate)
}

/// The same, by workers that pass this gate at each of their turns. What the gate does shows nowhere.
pub fn answer_with<R: Threads + Sync, G: Gate + Sync>(
    rt: &R,
    alloc: Global,
    bytes: &[u8],
    workers: u32,
    leaf: u32,
    gate: &G,
) -> Result<Vec<u8>, JobEnd>
    requires some_workers { 1 ≤ workers }
    requires few_workers { workers ≤ WORKER_LIMIT }
    requires some_leaf { 1 ≤ leaf }
    requires few_leaf { leaf ≤ LEAF_LIMIT }
    ensures tells { Tells (λ text. text.items) (outcome (Run workers leaf) bytes.now) result }
{
    let (read, checked) = checked_spec(alloc, bytes)?;
    let rows = table_rows(alloc, &checked, bytes_from(bytes, read.rows_at))?;
    let crew = Crew {
        rt,
        alloc,
        gate,
        workers,
        leaf,
    };
    rows_report(&crew, Job { checked, rows })
}

/// The canonical text of the specification that the bytes hold, or its refusal. The table is not looked at.
pub fn show_job(alloc: Global, bytes: &[u8]) -> Result<Vec<u8>, JobEnd>
    ensures tells { Tells (λ text. text.items) (outcome Show bytes.now) result }
{
    let (read, _checked) = checked_spec(alloc, bytes)?;
    Ok(show_spec(alloc, &read.spec)?)
}
