//! What the program does, from its words and its input to its output, its errors and its exit status.
ghost use Rattle.std.specs.Prelude.{◌≡◌, ◌++◌, ℕ, List, Some, None, [], IfOk, IfErr, OnOk, map};
ghost use Rattle.std.specs.Prelude.{string_bytes};
ghost use Rattle.std.specs.Io.KnownBytes.{Appends};
ghost use Rattle.population.specs.Initial.{initial, seed_of};
ghost use Rattle.program.specs.Run.{IsRun, IsWholeRun, IsRefusedRun, scale_of};
ghost use Rattle.program.specs.Run.{IsDone, IsFailed, IsAnswered, IsBrokenOff, IsHintedAsAsked, IsToldBeside};
ghost use Rattle.program_files.specs.Causes.{cause_of};
ghost use Rattle.program.specs.Detail.{IsDetail};
ghost use Rattle.program.specs.Info.{IsPlainDetail};
ghost use Rattle.program_script.specs.Hints.{TellsMore};
ghost use Rattle.program.specs.Status.{IsRefusedStatus, refusal_line, WritesBeginning};

use crate::detail::detail_of;
use crate::ending::{GOOD, USAGE_FAULT, finish, finish_refused};
use crate::info::{info, plain_detail, tell_version};
use clap::Error;
use clap::error::ErrorKind;
use conditions::Report;
use money::Refusal;
use population::Population;
use program_files::{Fault, report, show};
use program_live::{go_on, population_of, run_anew};
use program_options::{Asked, Options, ScriptOptions, Subcommand, read_words};
use program_script::{Hints, NoHints, hinted_script};
use program_script_hints::Hinted;
use program_streams::{Watched, write_text};
use std::alloc::{AllocError, Global};
use std::fs::File;
use std::io::{Read, Write};
use std::mem;
use std::rt::Files;
use std::sync::Wait;
use std::thread::Threads;
use std::time::Clock;

/// Does what the words of a command line ask for, the first of which is the program's own name, from `input` to
/// `output`, and answers the exit status. A fault of the words, or the help that they ask for, goes to `errors`, and
/// so does a refusal's line, with one more on what was wrong, where that is known; in front of them what is told of a
/// script's refused lines, where that is asked for. How far a run of terminals or a recovery is goes to `screen`, if
/// there is one, and nothing else goes there. May wait, as `script` and `run_threads::run` do. The process is to end
/// behind it: what a script has committed stays in memory.
pub fn run<
    T: Wait + Threads + Clock + Files<File = File> + Sync,
    R: Read,
    O: Write,
    E: Write,
    S: Write + Send + Drop,
>(
    rt: &T,
    alloc: Global,
    words: &[String],
    input: &mut Watched<R>,
    output: &mut Watched<O>,
    errors: &mut Hinted<E>,
    screen: Option<S>,
) -> u8
    ensures { (bytes : List ℕ) → R.remaining input.old.stream ≡ Some bytes
        → IsRun (map string_bytes words.now) bytes (O.contents output.old.stream) (O.contents output.new.stream)
        (E.contents errors.old.errors) (E.contents errors.new.errors) input.new.failure output.new.failure result }
{
    match read_words(alloc, words) {
        Ok(Asked::OnTables(asked)) => {
            match answer(rt, alloc, &asked, input, output, errors, screen) {
                Ok(report) => finish(Ok(&report), errors),
                Err(fault) => tell_refused(alloc, &asked, &fault, input, output, errors),
            }
        }
        Ok(Asked::Info(asked)) => {
            let told = info(rt, alloc, &asked, output);
            end(alloc, told, input, output, errors)
        }
        Err(error) => match error.kind() {
            ErrorKind::DisplayVersion => {
                let told = tell_version(output);
                end(alloc, told, input, output, errors)
            }
            _ => {
                tell_fault(alloc, words, &error, errors);
                USAGE_FAULT
            }
        },
    }
}

/// Ends a run that needs no tables: answers its exit status, behind a refusal's line, and the one on what was wrong.
fn end<R, W, E: Write>(
    alloc: Global,
    told: Result<(), Fault>,
    input: &Watched<R>,
    output: &Watched<W>,
    errors: &mut E,
) -> u8
    ensures good { OnOk told ((result ≡ 0) × Appends (E.contents errors.old) (E.contents errors.new) []) }
    ensures refused { IfErr told (λ fault. (detail : List ℕ)
        × IsPlainDetail (cause_of fault) input.now.failure output.now.failure fault.refusal detail
        × WritesBeginning (refusal_line fault.refusal ++ detail) (E.contents errors.old) (E.contents errors.new)
        × IsRefusedStatus fault.refusal result) }
{
    match told {
        Ok(()) => GOOD,
        Err(fault) => match plain_detail(alloc, &fault, input, output) {
            Ok(detail) => finish_refused(fault.refusal, detail.as_str(), errors),
            Err(_) => finish_refused(fault.refusal, "", errors),
        },
    }
}

/// Writes a refusal's line, and then the one on what was wrong where that is known and memory is there for it, and
/// answers the exit status.
fn tell_refused<R, W, E: Write>(
    alloc: Global,
    asked: &Options,
    fault: &Fault,
    input: &Watched<R>,
    output: &Watched<W>,
    errors: &mut E,
) -> u8
    ensures lines { (detail : List ℕ) × IsDetail asked.now.subcommand (scale_of asked.now) (cause_of fault.now)
        input.now.failure output.now.failure fault.now.refusal detail
        × WritesBeginning (refusal_line fault.now.refusal ++ detail) (E.contents errors.old) (E.contents errors.new) }
    ensures status { IsRefusedStatus fault.now.refusal result }
{
    match detail_of(alloc, asked, fault, input, output) {
        Ok(detail) => finish_refused(fault.refusal, detail.as_str(), errors),
        Err(_) => finish_refused(fault.refusal, "", errors),
    }
}

/// Does what options ask for, from input to output.
#[tactic(auto, using(crate::proofs::Beside::beside_none))]
fn answer<
    T: Wait + Threads + Clock + Files<File = File> + Sync,
    R: Read,
    W: Write,
    E: Write,
    S: Write + Send + Drop,
>(
    rt: &T,
    alloc: Global,
    options: &Options,
    input: &mut R,
    output: &mut W,
    errors: &mut Hinted<E>,
    screen: Option<S>,
) -> Result<Report, Fault>
    ensures whole { IfOk result (λ report. (bytes : List ℕ) → R.remaining input.old ≡ Some bytes
        → IsWholeRun options.now bytes (W.contents output.old) (W.contents output.new) report) }
    ensures refused { IfErr result (λ fault. (bytes : List ℕ) → R.remaining input.old ≡ Some bytes
        → IsRefusedRun options.now bytes (W.contents output.old) (W.contents output.new) fault.refusal
        (cause_of fault)) }
    ensures beside { IsToldBeside options.now.subcommand
        (E.contents errors.old.errors) (E.contents errors.new.errors) }
{
    let scale = match options.scale() {
        Ok(scale) => scale,
        Err(refusal) => return Err(Fault::of(refusal)),
    };
    let population = match population_of(alloc, scale, options.population) {
        Ok(population) => population,
        Err(refusal) => return Err(Fault::of(refusal)),
    };
    answer_over(
        rt,
        alloc,
        population,
        &options.subcommand,
        input,
        output,
        errors,
        screen,
    )
}

/// Does a subcommand over a population, from input to output.
#[tactic(auto, using(crate::proofs::Beside::beside_none))]
fn answer_over<
    T: Wait + Threads + Clock + Files<File = File> + Sync,
    R: Read,
    W: Write,
    E: Write,
    S: Write + Send + Drop,
>(
    rt: &T,
    alloc: Global,
    population: Population,
    subcommand: &Subcommand,
    input: &mut R,
    output: &mut W,
    errors: &mut Hinted<E>,
    screen: Option<S>,
) -> Result<Report, Fault>
    ensures done { IfOk result (λ report. (bytes : List ℕ) → R.remaining input.old ≡ Some bytes
        → IsDone (initial population) (seed_of population) subcommand.now bytes
        (W.contents output.old) (W.contents output.new) report) }
    ensures failed { IfErr result (λ fault. (bytes : List ℕ) → R.remaining input.old ≡ Some bytes
        → IsFailed (initial population) (seed_of population) subcommand.now bytes
        (W.contents output.old) (W.contents output.new) fault.refusal (cause_of fault)) }
    ensures beside { IsToldBeside subcommand.now
        (E.contents errors.old.errors) (E.contents errors.new.errors) }
{
    match subcommand {
        Subcommand::Script(options) => {
            answer_script(rt, alloc, population, options, input, output, errors)
        }
        Subcommand::Run(options) if options.resume => {
            go_on(rt, alloc, population, options, output, screen)
        }
        Subcommand::Run(options) => run_anew(rt, alloc, population, options, output, screen),
        Subcommand::Recover(options) => show(rt, alloc, &population, options, output, screen),
        Subcommand::Check(options) => report(rt, alloc, &population, options, output, screen),
    }
}

/// Answers a script over a population, and tells of its refused lines where that is asked for.
fn answer_script<T: Wait, R: Read, W: Write, E: Write>(
    rt: &T,
    alloc: Global,
    population: Population,
    options: &ScriptOptions,
    input: &mut R,
    output: &mut W,
    errors: &mut Hinted<E>,
) -> Result<Report, Fault>
    ensures answered { IfOk result (λ report. (bytes : List ℕ) → R.remaining input.old ≡ Some bytes
        → IsAnswered (initial population) bytes (W.contents output.old) (W.contents output.new) report) }
    ensures broken_off { IfErr result (λ fault. (bytes : List ℕ) → R.remaining input.old ≡ Some bytes
        → IsBrokenOff (initial population) bytes (W.contents output.old) (W.contents output.new) fault.refusal
        × (cause_of fault ≡ None)) }
    ensures beside { IsHintedAsAsked options.now.explain
        (E.contents errors.old.errors) (E.contents errors.new.errors) }
{
    if options.explain {
        errors.hint(population.scale());
        answer_told(rt, alloc, population, input, output, errors)
    } else {
        answer_told(rt, alloc, population, input, output, &mut NoHints)
    }
}

/// Answers a script over a population, of whose refused lines these hints are told. The memory of what was done isn't
/// given back.
fn answer_told<T: Wait, R: Read, W: Write, H: Hints>(
    rt: &T,
    alloc: Global,
    population: Population,
    input: &mut R,
    output: &mut W,
    hints: &mut H,
) -> Result<Report, Fault>
    ensures answered { IfOk result (λ report. (bytes : List ℕ) → R.remaining input.old ≡ Some bytes
        → IsAnswered (initial population) bytes (W.contents output.old) (W.contents output.new) report) }
    ensures broken_off { IfErr result (λ fault. (bytes : List ℕ) → R.remaining input.old ≡ Some bytes
        → IsBrokenOff (initial population) bytes (W.contents output.old) (W.contents output.new) fault.refusal
        × (cause_of fault ≡ None)) }
    ensures told { TellsMore (H.told hints.old) (H.told hints.new) }
{
    match hinted_script(rt, alloc, population, input, output, hints) {
        Ok((report, dones)) => {
            // The program ends behind the report, and the system takes back all memory at once: giving back one entry
            // after another would take a tenth of a short script.
            mem::forget(dones);
            Ok(report)
        }
        Err(refusal) => Err(Fault::of(refusal)),
    }
}

/// Writes the text of a command line's fault, or of help. What can't be written is left aside.
fn tell_fault<E: Write>(alloc: Global, words: &[String], error: &Error, errors: &mut E)
    ensures { (text : List ℕ) × Appends (E.contents errors.old) (E.contents errors.new) text }
{
    if let Ok(text) = fault_text(alloc, words, error) {
        let _ = write_text(errors, text.as_bytes());
    }
}

/// What is told to whoever names a script's file.
const REDIRECTED: &str =
    "\n  tip: a script comes from standard input: tpcc script [OPTIONS] < FILE\n";

/// The text of a command line's fault, or of help, with what a script's file is given by where one is named.
fn fault_text(alloc: Global, words: &[String], error: &Error) -> Result<String, AllocError> {
    let mut text = format!(in alloc; "{error}")?;
    let is_script = matches!(words.get(1), Some(word) if word.as_str() == "script");
    let is_stray = matches!(error.kind(), ErrorKind::UnknownArgument)
        && !text.as_str().contains("argument '-");
    if is_script && is_stray {
        text.push_str(REDIRECTED)?;
    }
    Ok(text)
}
