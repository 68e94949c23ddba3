//! How the words of a command line are read.
ghost use Rattle.std.specs.Prelude.{◌≡◌, ◌∷◌, IfErr, IfOk, List, Ok, Some, [], codes, false, map, string_bytes, ℕ};
ghost use Rattle.clap.specs.Walk.{first_of, one_of};
ghost use Rattle.clap.specs.Words.{app_of, found_of, kind_of, one_text, rows_of, rule_of};
ghost use Rattle.clap.specs.Kinds.{HasKind};
ghost use Rattle.clap.specs.declared.error.kind.ErrorKind.TheVariants.{InvalidValue};
ghost use Rattle.program_options.specs.CommandLine.{AreGiven, AreLogFiles, AreOptionsWritten, AreRecoverOptions};
ghost use Rattle.program_options.specs.CommandLine.{AsksFor, HasApp, HasOwnOptions, IsLocal, WritesWithin};
ghost use Rattle.program_options.specs.CommandLine.{IsOptionsRefusal, folder_option, loggers_option, subcommand_name};
ghost use Rattle.program_options.specs.CommandLine.{executing_app, info_app, number_option, on_logs_app, program_app, run_app};
ghost use Rattle.program_options.specs.CommandLine.{seed_option, text_in, threads_option};
ghost use Rattle.program_options.specs.CommandLine.{with_logs as with_log_options, with_tables as with_table_options};

use crate::asked::{
    Asked, InfoOptions, LogFiles, MAX_RECOVERY_THREADS, Options, RecoverOptions, Subcommand,
};
use crate::run_words::{run_options, with_run};
use crate::script_words::{script, script_options};
use clap::builder::ValueParser;
use clap::error::ErrorKind;
use clap::{Arg, ArgMatches, Command, Error, value_parser};
use std::alloc::{AllocError, Global};
use std::str::FromStr;
use tables::limits::MAX_LOGGERS;

/// What is told of the program's version, of which there is no release yet. No source can tell whether what is built of
/// it was proved.
pub const VERSION_LINE: &str =
    "tpcc 0.1.0 (for rattle-kit-13f; proved where rt ci or rt run built it)\n";

/// What these words ask for, the first of which is the program's own name: the subcommand is the one that they name,
/// and each option is what the words behind it give, or its default. An error's text says what is wrong with the words,
/// or is the help that they ask for; of the version that they ask for, it is an error too.
pub fn read_words(alloc: Global, words: &[String]) -> Result<Asked, Error>
    ensures asked { IfOk result (AsksFor (map string_bytes words.now)) }
    ensures refused { IfErr result (IsOptionsRefusal (map string_bytes words.now)) }
{
    let command = program(alloc)?;
    let matches = command.try_get_matches_from(words)?;
    match matches.subcommand() {
        Some((name, given)) => asked_given(alloc, name, given),
        None => Err(refusal(alloc, "a subcommand is required")?),
    }
}

/// The program's command.
fn program<'a>(alloc: Global) -> Result<Command<'a>, AllocError>
    ensures app { IfOk result (HasApp program_app) }
{
    let command = executing(alloc)?;
    let command = command.subcommand(on_log_files(alloc, "recover", RECOVER)?)?;
    let command = command.subcommand(on_log_files(alloc, "check", CHECK)?)?;
    command.subcommand(info(alloc)?)
}

/// The program's command with the subcommands that execute transactions.
fn executing<'a>(alloc: Global) -> Result<Command<'a>, AllocError>
    ensures app { IfOk result (HasApp executing_app) }
{
    let command = Command::new(alloc, "tpcc")
        .about("TPC-C on Silo's commit, with proofs")
        .version(VERSION_LINE)
        .subcommand_required(true)
        .arg_required_else_help(true);
    let command = command.subcommand(script(alloc)?)?;
    command.subcommand(run(alloc)?)
}

/// What `recover` is for.
const RECOVER: &str =
    "Shows what log files recover to: durable epoch, commits, and the rows of warehouses and districts";

/// What `check` is for.
const CHECK: &str = "Reports the consistency conditions of what log files recover to";

/// What `info` is for.
const INFO: &str =
    "Tells the version, loggers and options of the tables that log files were made with";

/// The subcommand `info`.
fn info<'a>(alloc: Global) -> Result<Command<'a>, AllocError>
    ensures app { IfOk result (HasApp info_app) }
{
    let command = Command::new(alloc, "info").about(INFO);
    command.arg(folder(alloc))
}

/// What `run` is for.
const RUN: &str = "Runs terminals in threads, and writes what they commit to log files";

/// What a user of `run` needs to know besides.
const AFTER_RUN: &str = "\
Each logger makes a file of its own in DIR: log-0, log-1 and so on. Where one is there already, nothing is run.
What the files hold outlives a crash: `tpcc recover` shows what that is, and `tpcc check` its consistency conditions,
for the same DIR, as many loggers, and the same options of the tables.
With --resume a run goes on from what they hold: for the same DIR, as many loggers, and the same options of the tables.
It first prints `resumed M epoch E`: M commits were recovered, and it commits in epoch E and later ones. Give another
--seed than before, or its inputs are those of the run before. Where a file is missing or damaged, nothing is run.";

/// The subcommand `run`.
fn run<'a>(alloc: Global) -> Result<Command<'a>, AllocError>
    ensures app { IfOk result (HasApp run_app) }
{
    let command = Command::new(alloc, "run").about(RUN).after_help(AFTER_RUN);
    let command = with_run(alloc, command)?;
    with_tables(alloc, command)
}

/// A subcommand of this name that reads log files.
fn on_log_files<'a>(alloc: Global, name: &'a str, about: &'a str) -> Result<Command<'a>, AllocError>
    ensures app { IfOk result (HasApp (on_logs_app name.entry.now)) }
{
    let command = Command::new(alloc, name).about(about);
    let command = with_logs(alloc, command)?;
    with_tables(alloc, command)
}

/// A subcommand with the options of log files: where they lie, how many there are, and how many threads read them.
fn with_logs<'a>(alloc: Global, command: Command<'a>) -> Result<Command<'a>, AllocError>
    requires local { IsLocal command }
    ensures app { IfOk result (HasApp (with_log_options (app_of command.entry))) }
{
    let loggers = loggers(alloc, "How many loggers wrote them, 1 to 8").required(true);
    command
        .arg(folder(alloc))?
        .arg(loggers)?
        .arg(threads(alloc).default_value("1"))
}

/// The option `--logs`, which must stand.
pub(crate) fn folder<'a>(alloc: Global) -> Arg<'a>
    ensures rule { rule_of result ≡ folder_option }
    ensures local { result.global ≡ false }
{
    Arg::new(alloc, "logs")
        .long("logs")
        .value_name("DIR")
        .value_parser(ValueParser::NonEmptyString)
        .required(true)
        .help("The folder of the log files, log-0, log-1 and so on")
}

/// The option `--loggers`.
pub(crate) fn loggers<'a>(alloc: Global, help: &'a str) -> Arg<'a>
    ensures rule { rule_of result ≡ loggers_option }
    ensures local { result.global ≡ false }
{
    Arg::new(alloc, "loggers")
        .long("loggers")
        .value_name("N")
        .value_parser(value_parser!(u32).range(1..=MAX_LOGGERS as i64))
        .help(help)
}

/// The option `--threads`.
fn threads<'a>(alloc: Global) -> Arg<'a>
    ensures rule { rule_of result ≡ threads_option }
    ensures local { result.global ≡ false }
{
    Arg::new(alloc, "threads")
        .long("threads")
        .value_name("N")
        .value_parser(value_parser!(u32).range(1..=MAX_RECOVERY_THREADS as i64))
        .help("The number of threads that read the files, 1 to 8")
}

/// A subcommand with the options of the tables that it begins with: their scale and their population.
pub(crate) fn with_tables<'a>(
    alloc: Global,
    command: Command<'a>,
) -> Result<Command<'a>, AllocError>
    requires local { IsLocal command }
    ensures app { IfOk result (HasApp (with_table_options (app_of command.entry))) }
{
    command
        .arg(number(alloc, "warehouses", "1", "The number of warehouses, 1 to 8"))?
        .arg(number(
            alloc,
            "districts",
            "10",
            "Districts of a warehouse, 1 to 10",
        ))?
        .arg(number(
            alloc,
            "customers",
            "100",
            "Customers of a district, 10 to 3000",
        ))?
        .arg(number(alloc, "items", "1000", "The number of items, 20 to 100000"))?
        .arg(number(
            alloc,
            "orders",
            "3000",
            "The order cap of a district, from the customers to 100000",
        ))?
        .arg(number(alloc, "commits", "100000", "The commit cap, 1 to 600000"))?
        .arg(seed(
            alloc,
            "population",
            "0",
            "The seed that the population is drawn from, or 0 for the plain one",
        ))
}

/// An option that takes a number.
fn number<'a>(alloc: Global, name: &'a str, default: &'a str, help: &'a str) -> Arg<'a>
    ensures rule { rule_of result ≡ number_option name.entry.now default.entry.now }
    ensures local { result.global ≡ false }
{
    Arg::new(alloc, name)
        .long(name)
        .value_name("N")
        .value_parser(value_parser!(u32))
        .default_value(default)
        .help(help)
}

/// An option that takes a seed.
pub(crate) fn seed<'a>(alloc: Global, name: &'a str, default: &'a str, help: &'a str) -> Arg<'a>
    ensures rule { rule_of result ≡ seed_option name.entry.now default.entry.now }
    ensures local { result.global ≡ false }
{
    Arg::new(alloc, name)
        .long(name)
        .value_name("SEED")
        .value_parser(value_parser!(u64))
        .default_value(default)
        .help(help)
}

/// What the matches of the subcommand of this name give.
fn asked_given(alloc: Global, name: &str, given: &ArgMatches<'_>) -> Result<Asked, Error>
    ensures given { IfOk result (AreGiven name.now (rows_of (found_of given.now))) }
    ensures unread { IfErr result (HasKind (InvalidValue ∷ [])) }
{
    if name == "info" {
        let folder = folder_given(alloc, given)?;
        return Ok(Asked::Info(InfoOptions { folder }));
    }
    let options = options_given(alloc, name, given)?;
    Ok(Asked::OnTables(options))
}

/// The options that the matches of the subcommand of this name give.
fn options_given(alloc: Global, name: &str, given: &ArgMatches<'_>) -> Result<Options, Error>
    ensures named { IfOk result (λ o. name.now ≡ subcommand_name o.subcommand) }
    ensures written { IfOk result (AreOptionsWritten (text_in (rows_of (found_of given.now)))) }
    ensures own { IfOk result (λ o. HasOwnOptions (text_in (rows_of (found_of given.now)))
        (rows_of (found_of given.now)) o.subcommand) }
    ensures unread { IfErr result (HasKind (InvalidValue ∷ [])) }
{
    Ok(Options {
        subcommand: subcommand(alloc, name, given)?,
        warehouses: value_of::<u32>(alloc, given, "warehouses")?,
        districts: value_of::<u32>(alloc, given, "districts")?,
        customers: value_of::<u32>(alloc, given, "customers")?,
        items: value_of::<u32>(alloc, given, "items")?,
        orders: value_of::<u32>(alloc, given, "orders")?,
        commits: value_of::<u32>(alloc, given, "commits")?,
        population: value_of::<u64>(alloc, given, "population")?,
    })
}

/// The subcommand of this name, with the options of its own that its matches give.
fn subcommand(alloc: Global, name: &str, given: &ArgMatches<'_>) -> Result<Subcommand, Error>
    ensures named { IfOk result (λ s. name.now ≡ subcommand_name s) }
    ensures own { IfOk result (HasOwnOptions (text_in (rows_of (found_of given.now))) (rows_of (found_of given.now))) }
    ensures unread { IfErr result (HasKind (InvalidValue ∷ [])) }
{
    match name {
        "script" => Ok(Subcommand::Script(script_options(alloc, given)?)),
        "run" => Ok(Subcommand::Run(run_options(alloc, given)?)),
        "recover" => Ok(Subcommand::Recover(recover_options(alloc, given)?)),
        "check" => Ok(Subcommand::Check(recover_options(alloc, given)?)),
        _ => Err(refusal(alloc, "a subcommand is required")?),
    }
}

/// What the matches give for a recovery.
fn recover_options(alloc: Global, given: &ArgMatches<'_>) -> Result<RecoverOptions, Error>
    ensures written { IfOk result (AreRecoverOptions (text_in (rows_of (found_of given.now)))
        (rows_of (found_of given.now))) }
    ensures unread { IfErr result (HasKind (InvalidValue ∷ [])) }
{
    Ok(RecoverOptions {
        files: log_files(alloc, given)?,
        threads: number_within(alloc, given, "threads", (1, MAX_RECOVERY_THREADS))?,
    })
}

/// The log files that the matches give.
fn log_files(alloc: Global, given: &ArgMatches<'_>) -> Result<LogFiles, Error>
    ensures written { IfOk result (AreLogFiles (rows_of (found_of given.now))) }
    ensures unread { IfErr result (HasKind (InvalidValue ∷ [])) }
{
    Ok(LogFiles {
        folder: folder_given(alloc, given)?,
        loggers: value_of::<u32>(alloc, given, "loggers")?,
    })
}

/// The folder of log files that the matches give.
pub(crate) fn folder_given(alloc: Global, given: &ArgMatches<'_>) -> Result<String, Error>
    ensures given { IfOk result (λ folder.
        first_of (codes "logs") (rows_of (found_of given.now)) ≡ Some (string_bytes folder)) }
    ensures unread { IfErr result (HasKind (InvalidValue ∷ [])) }
{
    match given.get_str("logs") {
        Some(folder) => Ok(String::from_str(alloc, folder)?),
        None => Err(refusal(alloc, "'--logs' is required")?),
    }
}

/// The value of the option, which stands or has a default, and whose parser lets only a `T` through.
pub(crate) fn value_of<T: FromStr>(
    alloc: Global,
    matches: &ArgMatches<'_>,
    name: &str,
) -> Result<T, Error>
where
    T::Err: Drop,
    ensures read { IfOk result (λ value. (text : List ℕ)
        × (one_text (found_of matches.now) name.now ≡ Some text)
        × T.from_str_gives text (Ok value)) }
    ensures unread { IfErr result (HasKind (InvalidValue ∷ [])) }
{
    match matches.get_one::<T>(name) {
        Some(value) => Ok(value),
        None => {
            let text = format!(in alloc; "the value of '--{name}' can't be read")?;
            Err(refusal(alloc, text.as_str())?)
        }
    }
}

/// The number that the matches give for an option whose parser lets no other through than those from the first of these
/// limits to the second.
pub(crate) fn number_within(
    alloc: Global,
    given: &ArgMatches<'_>,
    name: &str,
    limits: (u32, u32),
) -> Result<u32, Error>
    ensures written { IfOk result (WritesWithin limits.0 limits.1 (one_of name.now (rows_of (found_of given.now)))) }
    ensures unread { IfErr result (HasKind (InvalidValue ∷ [])) }
{
    let number = value_of::<u32>(alloc, given, name)?;
    if limits.0 <= number && number <= limits.1 {
        return Ok(number);
    }
    let text = format!(in alloc; "the value of '--{name}' is outside its limits")?;
    Err(refusal(alloc, text.as_str())?)
}

/// An error of the program's own with this text.
pub(crate) fn refusal(alloc: Global, text: &str) -> Result<Error, AllocError>
    ensures { IfOk result (λ error. kind_of error ≡ InvalidValue) }
{
    Command::new(alloc, "tpcc").error(ErrorKind::InvalidValue, text)
}
