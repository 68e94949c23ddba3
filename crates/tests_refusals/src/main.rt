//! What calls give where a growth of memory is refused: `tests/refusals.py` runs this again and again, and has another
//! one refused each time. `tests_refusals script` answers a script, `tests_refusals recover` recovers two log files,
//! `tests_refusals threads` does so in two threads, `tests_refusals run` runs a terminal beside a logger, and
//! `tests_refusals life` makes each call that is refused once more. With no words, or others, it does nothing.
#![tactic(auto)]

mod again;
mod inputs;
mod looks;
mod orders;
mod payments;
mod recovery;
mod roomy;
mod runs;
mod standby;
mod till;

use crate::again::Again;
use crate::inputs::run_inputs;
use crate::orders::answer;
use crate::payments::pay_all;
use crate::recovery::{recover_both, recover_in_threads};
use crate::roomy::Roomy;
use crate::runs::run_terminal;
use money::Refusal;
use program_streams::write_text;
use std::alloc::Global;
use std::env;
use std::process::ExitCode;
use std::rt::Env;
use std::sync::Wait;
use std::sync::atomic::AtomicU64;
use std::thread::Threads;

/// The most bytes of replies that a life tells.
const TEXT: usize = 1 << 14;

/// Two ways of life: what the inputs of a terminal come to, and the file of a logger whose terminal pays.
fn live<R: Wait>(
    rt: &R,
    alloc: Global,
    again: &mut Again,
    out: &mut Vec<u8>,
) -> Result<(), Refusal> {
    let mut text = String::with_capacity(alloc, TEXT)?;
    let calls = AtomicU64::new(0);
    let mut disk = Roomy::new(alloc, &calls)?;
    out.reserve(2 * TEXT)?;
    run_inputs(rt, alloc, again, &mut text)?;
    pay_all(rt, alloc, again, &mut disk, &calls)?;
    out.extend_from_slice(text.as_bytes())?;
    out.extend_from_slice(disk.bytes())?;
    Ok(())
}

/// The first word behind the program's name, if there is one.
fn first_word<R: Env + AllocGlobal>(rt: &R) -> Result<Option<String>, Refusal> {
    match env::args(rt) {
        Ok(words) => Ok(words.skip(1).next()),
        Err(_) => Err(Refusal::OutOfMemory),
    }
}

/// Does what the program's word asks for. What it comes to goes to `out`.
fn run<R: Env + AllocGlobal + Threads + Wait + Sync>(
    rt: &R,
    again: &mut Again,
    out: &mut Vec<u8>,
) -> Result<(), Refusal> {
    let Some(word) = first_word(rt)? else {
        return Ok(());
    };
    match word.as_str() {
        "script" => answer(rt, rt.alloc(), out),
        "recover" => recover_both(rt.alloc(), out),
        "threads" => recover_in_threads(rt, rt.alloc(), out),
        "life" => live(rt, rt.alloc(), again, out),
        "run" => run_terminal(rt, rt.alloc(), out),
        _ => Ok(()),
    }
}

/// Writes what it came to, and to the errors which calls were made again, and a refusal.
fn main(rt: HostRuntime) -> ExitCode {
    let mut again = Again::default();
    let mut out = Vec::new(rt.alloc());
    let outcome = run(&rt, &mut again, &mut out);
    let written = write_text(&mut rt.stdout(), &out);
    if again.calls > 0 {
        let _ = eprintln!(rt;
            "{} made again, {} with a change",
            again.calls, again.changes
        );
    }
    match outcome.and(written) {
        Ok(()) => ExitCode::from(0),
        Err(refusal) => {
            let _ = eprintln!(rt; "{refusal}");
            ExitCode::from(1)
        }
    }
}
