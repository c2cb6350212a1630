//! Reads the words after a command's name by the crate `clap`.

ghost use Rattle.std.specs.Prelude.{◌≡◌, IfOk, IsErrOf, None, Some, [], map, string_bytes, true};
ghost use Rattle.clap.specs.Words.{IsParsedFrom, app_of, fault_of, found_of, is_simple};
ghost use Rattle.clap.specs.Words.{is_simple_and_free, matches_of, rows_of};
ghost use Rattle.gta_words.specs.Commands.{bare_app, drill_app, run_app};
ghost use Rattle.gta_words.specs.Reading.{HasNumber, number_under};
ghost use Rattle.gta_words.specs.Words.{IsWithinOptions, drill_by, run_by, taken};
ghost use Rattle.gta_words.specs.declared.words.TheConstants.{SEED_LIMIT};

use crate::commands::{bare_command, drill_command, run_command};
use crate::words::{Command, WordsFault};
use clap::ArgMatches;
use clap::error::ErrorKind;
use std::alloc::Global;

/// What the command holds of the words.
fn read_matches<'a>(
    command: clap::Command<'a>,
    words: &'a [String],
) -> Result<ArgMatches<'a>, WordsFault>
    requires simple { is_simple (app_of command) ≡ true }
    requires free { is_simple_and_free (app_of command) ≡ true }
    ensures no_fault { IfOk result (λ _.
        fault_of (app_of command.entry) (map string_bytes words.entry.now) ≡ []) }
    ensures rows { IfOk result (λ matches. rows_of (found_of matches)
        ≡ matches_of (app_of command.entry) (map string_bytes words.entry.now)) }
    ensures parsed { IfOk result (λ matches. IsParsedFrom command.entry matches) }
    ensures usage { IsErrOf result WordsFault.Usage
        → fault_of (app_of command.entry) (map string_bytes words.entry.now) ≡ [] → ⊥ }
{
    match command.try_get_matches_from(words) {
        Ok(matches) => Ok(matches),
        Err(error) if matches!(error.kind(), ErrorKind::OutOfMemory) => Err(WordsFault::Memory),
        Err(_) => Err(WordsFault::Usage),
    }
}

/// The number under this name, which the matches hold.
fn number(matches: &ArgMatches, name: &str) -> u32
    requires held { HasNumber 0 SEED_LIMIT name.now (rows_of (found_of matches.now)) }
    ensures { result ≡ number_under name.now (rows_of (found_of matches.now)) }
{
    matches.get_one::<u32>(name).unwrap()
}

/// Reads the words after the name of a command that takes none.
pub fn read_bare(alloc: Global, name: &str, words: &[String]) -> Result<(), WordsFault>
    ensures no_fault { IfOk result (λ _.
        fault_of (bare_app name.now) (map string_bytes words.now) ≡ []) }
    ensures usage { IsErrOf result WordsFault.Usage
        → fault_of (bare_app name.now) (map string_bytes words.now) ≡ [] → ⊥ }
{
    read_matches(bare_command(alloc, name), words)?;
    Ok(())
}

/// Reads the words after `run`.
pub fn read_run(alloc: Global, words: &[String]) -> Result<Command, WordsFault>
    ensures command { IfOk result (λ command.
        taken run_app run_by (map string_bytes words.now) ≡ Some command) }
    ensures within { IfOk result IsWithinOptions }
    ensures usage { IsErrOf result WordsFault.Usage
        → taken run_app run_by (map string_bytes words.now) ≡ None }
{
    let matches = read_matches(run_command(alloc)?, words)?;
    Ok(Command::Run {
        workers: number(&matches, "workers"),
        leaf: number(&matches, "leaf"),
    })
}

/// Reads the words after `drill`.
pub fn read_drill(alloc: Global, words: &[String]) -> Result<Command, WordsFault>
    ensures command { IfOk result (λ command.
        taken drill_app drill_by (map string_bytes words.now) ≡ Some command) }
    ensures within { IfOk result IsWithinOptions }
    ensures usage { IsErrOf result WordsFault.Usage
        → taken drill_app drill_by (map string_bytes words.now) ≡ None }
{
    let matches = read_matches(drill_command(alloc)?, words)?;
    Ok(Command::Drill {
        seed: number(&matches, "SEED"),
        rows: number(&matches, "ROWS"),
        workers: number(&matches, "workers"),
        leaf: number(&matches, "leaf"),
    })
}
