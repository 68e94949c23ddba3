//! The program `tpcc`.
#![tactic(auto)]

use money::Refusal;
use program::{USAGE_FAULT, finish, run};
use program_script_hints::Hinted;
use program_streams::{Narrow, Watched};
use std::env;
use std::io::IsTerminal;
use std::process::ExitCode;

/// Hands the words of the command line and the real streams to `run`.
fn main(rt: HostRuntime) -> ExitCode {
    let words: Vec<String> = match env::args(&rt) {
        Ok(words) => match words.collect(rt.alloc()) {
            Ok(words) => words,
            Err(_) => return ExitCode::from(finish(Err(Refusal::OutOfMemory), &mut rt.stderr())),
        },
        Err(error) => {
            let _ = eprintln!(rt; "error: the command line can't be read: {error}");
            return ExitCode::from(USAGE_FAULT);
        }
    };
    let (mut input, mut output) = (Watched::new(rt.stdin()), Watched::new(rt.stdout()));
    let errors = rt.stderr();
    let columns = env::var(&rt, "COLUMNS").ok();
    let columns = columns.as_ref().map(|text| text.as_str());
    let screen = errors.is_terminal().then_some(Narrow::new(errors, columns));
    let status = run(
        &rt,
        rt.alloc(),
        words.as_slice(),
        &mut input,
        &mut output,
        &mut Hinted::new(rt.alloc(), errors),
        screen,
    );
    ExitCode::from(status)
}
