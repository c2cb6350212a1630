//! From words and a source to a text, or why there is none. Nothing is written here.
//! specs/Causes.antt says when each ending comes.

ghost use Rattle.std.specs.Prelude.{◌≡◌, ◌≤◌, Some, Ok, length, map, string_bytes, IfOk, IfErr, IfSome, OnOk};
ghost use Rattle.std.specs.Io.KnownBytes.{Consumes, IsAtEnd};
ghost use Rattle.gta_words.specs.Words.{IsWithinOptions, command_of};
ghost use Rattle.gta_cli.specs.Causes.{Explains};
ghost use Rattle.gta_words.specs.declared.words.Command.{Command};
ghost use Rattle.gta_job.specs.declared.job.TheConstants.{INPUT_LIMIT};
ghost use Rattle.gta_cli.specs.Endings.{ComesTo, IsDrill, IsReader, IsReadWhole, stream};

use gta_job::{INPUT_LIMIT, JobEnd, answer_job, drill_job, list_job, show_job};
use gta_port::{ReadEnd, Source, read_all};
use gta_words::{Command, WordsFault, read_words};
use report_text::Refusal;
use std::alloc::Global;
use std::thread::Threads;

/// Why there is no text.
#[derive(Debug, Drop)]
pub enum Ending {
    /// The words are no command.
    Usage,
    /// The command is refused.
    Refused(Refusal),
    /// A read of the source failed.
    ReadFault,
    /// Memory was wanting.
    Memory,
}

impl From<WordsFault> for Ending {
    ghost use Rattle.gta_cli.specs.Causes.{ending_of_words};

    ghost from_gives = { λ fault ending. ending ≡ ending_of_words fault };

    fn from(fault: WordsFault) -> Ending {
        match fault {
            WordsFault::Usage => Ending::Usage,
            WordsFault::Memory => Ending::Memory,
        }
    }
}

impl From<ReadEnd> for Ending {
    ghost use Rattle.gta_cli.specs.Causes.{ending_of_read};

    ghost from_gives = { λ end ending. ending ≡ ending_of_read end };

    fn from(end: ReadEnd) -> Ending {
        match end {
            ReadEnd::ReadFault => Ending::ReadFault,
            ReadEnd::TooLong => Ending::Refused(Refusal::Input {
                limit: INPUT_LIMIT as u32,
            }),
            ReadEnd::Memory => Ending::Memory,
        }
    }
}

impl From<JobEnd> for Ending {
    ghost use Rattle.gta_cli.specs.Causes.{ending_of_job};

    ghost from_gives = { λ end ending. ending ≡ ending_of_job end };

    fn from(end: JobEnd) -> Ending {
        match end {
            JobEnd::Refused(refusal) => Ending::Refused(refusal),
            JobEnd::Memory => Ending::Memory,
        }
    }
}

/// The text that the words ask for, over the bytes of the source.
pub(crate) fn answer<R: Threads + Sync, S: Source>(
    rt: &R,
    alloc: Global,
    words: &[String],
    source: &mut S,
) -> Result<Vec<u8>, Ending>
    ensures text { IfOk result (λ text.
        ComesTo (command_of (map string_bytes words.now)) (S.left source.old) (Ok text.items)) }
    ensures whole { OnOk result (IsReadWhole (command_of (map string_bytes words.now)) (S.left source.new)) }
    ensures steady { OnOk result (S.faults source.new ≡ S.faults source.old) }
    ensures cause { IfErr result (Explains (command_of (map string_bytes words.now)) (stream (S.left source.old)
        (S.left source.new) (S.faults source.old) (S.faults source.new) (source.new ≡ source.old))) }
    ensures drill { IfSome (command_of (map string_bytes words.now)) (λ command.
        IsDrill command → source.new ≡ source.old) }
{
    let command = read_words(alloc, words)?;
    text_by(rt, alloc, command, source)
}

/// The text of a command, over the bytes of the source where it reads them.
fn text_by<R: Threads + Sync, S: Source>(
    rt: &R,
    alloc: Global,
    command: Command,
    source: &mut S,
) -> Result<Vec<u8>, Ending>
    requires within { IsWithinOptions command }
    ensures text { IfOk result (λ text. ComesTo (Some command) (S.left source.old) (Ok text.items)) }
    ensures whole { OnOk result (IsReadWhole (Some command) (S.left source.new)) }
    ensures steady { OnOk result (S.faults source.new ≡ S.faults source.old) }
    ensures cause { IfErr result (Explains (Some command) (stream (S.left source.old)
        (S.left source.new) (S.faults source.old) (S.faults source.new) (source.new ≡ source.old))) }
    ensures drill { IsDrill command → source.new ≡ source.old }
{
    match command {
        Command::Run { workers, leaf } => {
            let bytes = input(alloc, source)?;
            Ok(answer_job(rt, alloc, bytes.as_slice(), workers, leaf)?)
        }
        Command::Show => {
            let spec = input(alloc, source)?;
            Ok(show_job(alloc, spec.as_slice())?)
        }
        Command::List => {
            let job = input(alloc, source)?;
            Ok(list_job(alloc, job.as_slice())?)
        }
        Command::Drill {
            seed,
            rows,
            workers,
            leaf,
        } => Ok(drill_job(rt, alloc, seed, rows, workers, leaf)?),
    }
}

/// The bytes that the source has left, which a command that reads them is over.
fn input<S: Source>(alloc: Global, source: &mut S) -> Result<Vec<u8>, Ending>
    ensures bytes { IfOk result (λ bytes. Consumes (S.left source.old) (S.left source.new) bytes.items) }
    ensures end { OnOk result (IsAtEnd (S.left source.new)) }
    ensures within { IfOk result (λ bytes. length bytes.items ≤ INPUT_LIMIT) }
    ensures steady { OnOk result (S.faults source.new ≡ S.faults source.old) }
    ensures cause { IfErr result (λ ending. (command : Command) → IsReader (Some command)
        → Explains (Some command) (stream (S.left source.old) (S.left source.new) (S.faults source.old)
        (S.faults source.new) (source.new ≡ source.old)) ending) }
{
    Ok(read_all(alloc, source, INPUT_LIMIT)?)
}
