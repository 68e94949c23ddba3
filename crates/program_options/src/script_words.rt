//! The options of `script`.
ghost use Rattle.std.specs.Prelude.{◌≡◌, ◌∷◌, IfErr, IfOk, [], codes, false};
ghost use Rattle.clap.specs.Words.{found_of, rows_of, rule_of};
ghost use Rattle.clap.specs.Kinds.{HasKind};
ghost use Rattle.clap.specs.declared.error.kind.ErrorKind.TheVariants.{InvalidValue};
ghost use Rattle.program_options.specs.CommandLine.{AreScriptOptions, HasApp, flag_option, script_app, text_in};

use crate::asked::ScriptOptions;
use crate::words::{value_of, with_tables};
use clap::{Arg, ArgAction, ArgMatches, Command, Error};
use std::alloc::{AllocError, Global};

/// What `script` is for.
const SCRIPT: &str = "Answers the lines of standard input, then reports the consistency conditions";

/// What a user of `script` needs to know besides.
const AFTER_SCRIPT: &str = "\
Lines of standard input, the words of each parted by one space:
  payment W D CW CD WHO AMOUNT   warehouse W, district D, customer WHO of warehouse CW, district CD
  neworder W D C LINE LINE ..    5 to 15 lines, each ITEM:SUPPLY:QUANTITY
  delivery W CARRIER             CARRIER from 1 to 10
  status W D WHO
  level W D THRESHOLD            THRESHOLD from 10 to 20
  show warehouse W
  show district W D
  show customer W D C
  show data W D C
  show stock W I
  show order W D O
WHO is a customer's number, or a last name in capitals, as BARBARESE. Numbers have no leading zero; an amount, from
1.00 to 5000.00, has two digits behind a point. A line that can't be done is answered by `R line N`, where R is:
  14  line N is in none of the forms, or longer than 1024 bytes
  2   a number is outside its range
  5   an item isn't in ITEM: `5 line N item I`
  6   the district has no order number left, up to --orders
  7   the commits are at --commits
With --explain, standard error tells of each such line what is wrong with it.";

/// The subcommand `script`.
pub(crate) fn script<'a>(alloc: Global) -> Result<Command<'a>, AllocError>
    ensures app { IfOk result (HasApp script_app) }
{
    let command = Command::new(alloc, "script")
        .about(SCRIPT)
        .after_help(AFTER_SCRIPT);
    let command = command.arg(explain(alloc))?;
    with_tables(alloc, command)
}

/// The option `--explain`, which has no value.
fn explain<'a>(alloc: Global) -> Arg<'a>
    ensures rule { rule_of result ≡ flag_option (codes "explain") }
    ensures local { result.global ≡ false }
{
    Arg::new(alloc, "explain")
        .long("explain")
        .action(ArgAction::SetTrue)
        .help("Tells of each refused line on standard error what is wrong with it")
}

/// What the matches give for a script.
pub(crate) fn script_options(alloc: Global, given: &ArgMatches<'_>) -> Result<ScriptOptions, Error>
    ensures written { IfOk result (AreScriptOptions (text_in (rows_of (found_of given.now)))) }
    ensures unread { IfErr result (HasKind (InvalidValue ∷ [])) }
{
    let explain = value_of::<bool>(alloc, given, "explain")?;
    Ok(ScriptOptions { explain })
}
