//! The commands as the crate `clap` reads them, built as specs/Commands.antt describes them.

ghost use Rattle.std.specs.Prelude.{◌≡◌, IfOk, false};
ghost use Rattle.clap.specs.Words.{app_of, rule_of};
ghost use Rattle.gta_words.specs.Commands.{app_with_options, bare_app, drill_app, leaf_option};
ghost use Rattle.gta_words.specs.Commands.{rows_argument, run_app, seed_argument, workers_option};

use crate::words::{DRILL_LIMIT, LEAF_LIMIT, WORKER_LIMIT};
use clap::{Arg, ArgAction, Command, value_parser};
use std::alloc::{AllocError, Global};

/// The option `--workers`.
fn workers<'a>(alloc: Global) -> Arg<'a>
    ensures rule { rule_of result ≡ workers_option }
    ensures local { result.global ≡ false }
{
    Arg::new(alloc, "workers")
        .long("workers")
        .action(ArgAction::Set)
        .value_parser(value_parser!(u32).range(1..=i64::from(WORKER_LIMIT)))
        .default_value("4")
}

/// The option `--leaf`.
fn leaf<'a>(alloc: Global) -> Arg<'a>
    ensures rule { rule_of result ≡ leaf_option }
    ensures local { result.global ≡ false }
{
    Arg::new(alloc, "leaf")
        .long("leaf")
        .action(ArgAction::Set)
        .value_parser(value_parser!(u32).range(1..=i64::from(LEAF_LIMIT)))
        .default_value("64")
}

/// The argument SEED.
fn seed<'a>(alloc: Global) -> Arg<'a>
    ensures rule { rule_of result ≡ seed_argument }
    ensures local { result.global ≡ false }
{
    Arg::new(alloc, "SEED")
        .action(ArgAction::Set)
        .value_parser(value_parser!(u32))
        .required(true)
}

/// The argument ROWS.
fn rows<'a>(alloc: Global) -> Arg<'a>
    ensures rule { rule_of result ≡ rows_argument }
    ensures local { result.global ≡ false }
{
    Arg::new(alloc, "ROWS")
        .action(ArgAction::Set)
        .value_parser(value_parser!(u32).range(1..=i64::from(DRILL_LIMIT)))
        .required(true)
}

/// A command that takes nothing. The words that it reads begin after its name.
pub fn bare_command<'a>(alloc: Global, name: &'a str) -> Command<'a>
    ensures { app_of result ≡ bare_app name.entry.now }
{
    Command::new(alloc, name)
        .no_binary_name(true)
        .disable_help_flag(true)
        .disable_version_flag(true)
}

/// A command that takes both options.
fn command_with_options<'a>(alloc: Global, name: &'a str) -> Result<Command<'a>, AllocError>
    ensures { IfOk result (λ command. app_of command ≡ app_with_options name.entry.now) }
{
    bare_command(alloc, name)
        .arg(workers(alloc))?
        .arg(leaf(alloc))
}

/// The command `run`.
pub fn run_command<'a>(alloc: Global) -> Result<Command<'a>, AllocError>
    ensures { IfOk result (λ command. app_of command ≡ run_app) }
{
    command_with_options(alloc, "run")
}

/// The command `drill`.
pub fn drill_command<'a>(alloc: Global) -> Result<Command<'a>, AllocError>
    ensures { IfOk result (λ command. app_of command ≡ drill_app) }
{
    command_with_options(alloc, "drill")?
        .arg(seed(alloc))?
        .arg(rows(alloc))
}
