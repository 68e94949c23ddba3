//! The options of `run`.
ghost use Rattle.std.specs.Prelude.{◌≡◌, ◌≤◌, ◌∷◌, IfErr, IfOk, [], codes, false};
ghost use Rattle.clap.specs.Words.{app_of, found_of, rows_of, rule_of};
ghost use Rattle.clap.specs.Kinds.{HasKind};
ghost use Rattle.clap.specs.declared.error.kind.ErrorKind.TheVariants.{InvalidValue};
ghost use Rattle.tables.specs.declared.limits.TheConstants.{MAX_TERMINALS};
ghost use Rattle.program_options.specs.declared.asked.TheConstants.{MAX_INPUTS};
ghost use Rattle.program_options.specs.CommandLine.{AreRunOptions, HasApp, IsLocal, flag_option, limited_option};
ghost use Rattle.program_options.specs.CommandLine.{text_in, with_run as with_run_options};

use crate::asked::{LogFiles, MAX_INPUTS, RunOptions};
use crate::words::{folder, folder_given, loggers, number_within, seed, value_of};
use clap::{Arg, ArgAction, ArgMatches, Command, Error, value_parser};
use std::alloc::{AllocError, Global};
use tables::limits::{MAX_LOGGERS, MAX_TERMINALS};

/// A subcommand with the options of a run: where its log files are, how many loggers and terminals it has, what inputs
/// these do, and whether it goes on from files that are there.
pub(crate) fn with_run<'a>(alloc: Global, command: Command<'a>) -> Result<Command<'a>, AllocError>
    requires local { IsLocal command }
    ensures app { IfOk result (HasApp (with_run_options (app_of command.entry))) }
{
    command
        .arg(folder(alloc))?
        .arg(loggers(alloc, "The number of loggers, 1 to 8").default_value("2"))?
        .arg(terminals(alloc).default_value("4"))?
        .arg(count(alloc).default_value("100"))?
        .arg(seed(
            alloc,
            "seed",
            "1",
            "The seed that the inputs are drawn from",
        ))?
        .arg(resume(alloc))
}

/// The option `--terminals`.
fn terminals<'a>(alloc: Global) -> Arg<'a>
    ensures rule { rule_of result ≡ limited_option (codes "terminals") 1 MAX_TERMINALS }
    ensures local { result.global ≡ false }
{
    Arg::new(alloc, "terminals")
        .long("terminals")
        .value_name("N")
        .value_parser(value_parser!(u32).range(1..=MAX_TERMINALS as i64))
        .help("The number of terminals, 1 to 16")
}

/// The option `--count`.
fn count<'a>(alloc: Global) -> Arg<'a>
    ensures rule { rule_of result ≡ limited_option (codes "count") 0 MAX_INPUTS }
    ensures local { result.global ≡ false }
{
    Arg::new(alloc, "count")
        .long("count")
        .value_name("N")
        .value_parser(value_parser!(u32).range(0..=MAX_INPUTS as i64))
        .help("Inputs of each terminal, 0 to 1000000")
}

/// The option `--resume`, which has no value.
fn resume<'a>(alloc: Global) -> Arg<'a>
    ensures rule { rule_of result ≡ flag_option (codes "resume") }
    ensures local { result.global ≡ false }
{
    Arg::new(alloc, "resume")
        .long("resume")
        .action(ArgAction::SetTrue)
        .help("Goes on from the log files that are there, after a run that ended or was stopped")
}

/// What the matches give for a run.
pub(crate) fn run_options(alloc: Global, given: &ArgMatches<'_>) -> Result<RunOptions, Error>
    ensures written { IfOk result (AreRunOptions (text_in (rows_of (found_of given.now)))
        (rows_of (found_of given.now))) }
    ensures unread { IfErr result (HasKind (InvalidValue ∷ [])) }
{
    Ok(RunOptions {
        files: LogFiles {
            folder: folder_given(alloc, given)?,
            loggers: number_within(alloc, given, "loggers", (1, MAX_LOGGERS as u32))?,
        },
        terminals: number_within(alloc, given, "terminals", (1, MAX_TERMINALS as u32))?,
        count: number_within(alloc, given, "count", (0, MAX_INPUTS))?,
        seed: value_of::<u64>(alloc, given, "seed")?,
        resume: value_of::<bool>(alloc, given, "resume")?,
    })
}
