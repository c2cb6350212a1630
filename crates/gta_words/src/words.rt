//! Reads a command from the words of a command line.

ghost use Rattle.std.specs.Prelude.{◌≡◌, IfOk, IsErrOf, None, Some, map, string_bytes};
ghost use Rattle.gta_words.specs.Words.{IsWithinOptions, command_of, named_command};

use crate::reading::{read_bare, read_drill, read_run};
use std::alloc::{AllocError, Global};

/// How many workers a run has where the words don't say.
pub const WORKERS: u32 = 4;

/// How many rows a leaf has where the words don't say.
pub const LEAF: u32 = 64;

/// The most workers that a run may have.
pub const WORKER_LIMIT: u32 = 64;

/// The most rows that a leaf may have.
pub const LEAF_LIMIT: u32 = 65536;

/// The most rows that a drill may have.
pub const DRILL_LIMIT: u32 = 20000;

/// The greatest seed of a drill.
pub const SEED_LIMIT: u32 = u32::MAX;

/// What the program is asked to do.
#[derive(Clone, Copy, PartialEq, Eq, Debug)]
pub enum Command {
    /// Answer the job that the source holds, by so many workers over leaves of so many rows.
    Run {
        workers: u32,
        leaf: u32,
    },
    /// Show the specification that the source holds.
    Show,
    /// List the candidates that the job of the source keeps.
    List,
    /// Answer a job of so many rows that the seed makes, as a run would.
    Drill {
        seed: u32,
        rows: u32,
        workers: u32,
        leaf: u32,
    },
}

/// Why words gave no command.
#[derive(Clone, Copy, PartialEq, Eq, Debug)]
pub enum WordsFault {
    /// The words are no command.
    Usage,
    /// Out of memory.
    Memory,
}

impl From<AllocError> for WordsFault {
    ghost use Rattle.gta_words.specs.declared.words.WordsFault.TheVariants.{Memory};

    ghost from_gives = { λ _ fault. fault ≡ Memory };

    fn from(_: AllocError) -> WordsFault {
        WordsFault::Memory
    }
}

/// The command that the words ask for, the program's own name left out.
/// What the crate `clap` takes after a command's name is taken. Reading takes memory.
pub fn read_words(alloc: Global, words: &[String]) -> Result<Command, WordsFault>
    ensures command { IfOk result (λ command.
        command_of (map string_bytes words.now) ≡ Some command) }
    ensures within { IfOk result IsWithinOptions }
    ensures usage { IsErrOf result WordsFault.Usage
        → command_of (map string_bytes words.now) ≡ None }
{
    match words {
        [] => Err(WordsFault::Usage),
        [name, rest @ ..] => read_named(alloc, name.as_str(), rest),
    }
}

/// The command of this name, by the words after it.
#[tactic(auto, unfolding(crate::specs::Words::named_command))]
fn read_named(alloc: Global, name: &str, words: &[String]) -> Result<Command, WordsFault>
    ensures command { IfOk result (λ command.
        named_command name.now (map string_bytes words.now) ≡ Some command) }
    ensures within { IfOk result IsWithinOptions }
    ensures usage { IsErrOf result WordsFault.Usage
        → named_command name.now (map string_bytes words.now) ≡ None }
{
    if name == "run" {
        read_run(alloc, words)
    } else if name == "show" {
        read_bare(alloc, "show", words)?;
        Ok(Command::Show)
    } else if name == "list" {
        read_bare(alloc, "list", words)?;
        Ok(Command::List)
    } else if name == "drill" {
        read_drill(alloc, words)
    } else {
        Err(WordsFault::Usage)
    }
}
