//! How a session answers a line.

ghost use Rattle.std.specs.Prelude.{◌≡◌, ◌≢◌, ◌<◌, ℕ, List, [], ◌∷◌, ◌++◌, length, string_bytes, IfErr, OnOk};
ghost use Rattle.std.specs.Option.{option_copied};
ghost use Rattle.money.specs.declared.refusal.Refusal.TheVariants.{OutOfMemory};
ghost use Rattle.tables.specs.Inputs.{IsInput};
ghost use Rattle.book.specs.Done.{Done as DoneValue};
ghost use Rattle.program_script_text.specs.Lines.{buffered};
ghost use Rattle.program_script_text.specs.declared.answer.Answer.{Answer as AnswerValue};
ghost use Rattle.program_script_text.specs.declared.answer.Answer.TheVariants as answer;
ghost use Rattle.program_script.specs.Answered.{state_of, IsPrinted};
ghost use Rattle.program_script.specs.Turns.{IsInputTurn, IsRequestTurn, IsLineTurn};

use crate::showing::show;
use book::{Done, Run};
use book_session::Session;
use money::Refusal;
use program_script_text::{Answer, Request, ShownRow, in_range, print_reply, read_request};
use std::alloc::Global;
use std::sync::Wait;
use tables::Input;

/// Answers the line of a script that has this number, which is its date too. `None` is a line that is too
/// long. What the line asks is done or refused, and the answer, which `output` gets, tells which; only want of memory
/// is a refusal of this call, and then nothing is answered. The lines of an order take memory, and so may the answer,
/// after the commit. Gives the refusal that was answered, if one was.
pub fn answer_line<K: Run, R: Wait>(
    rt: &R,
    alloc: Global,
    session: &mut Session<'_, K>,
    line: Option<&[u8]>,
    number: u32,
    output: &mut String,
) -> Result<Option<Refusal>, Refusal>
    ensures memory { IfErr result (λ refusal. refusal ≡ OutOfMemory) }
    ensures turn { OnOk result ((answer : AnswerValue)
        × IsPrinted (string_bytes output.old) answer (string_bytes output.new)
        × ((bytes : List ℕ) → option_copied line.entry ≡ buffered bytes
        → IsLineTurn (state_of K.run.first session.old) number bytes
        (record { answer = answer; state = state_of K.run.first session.new }))) }
{
    let Some(text) = line else {
        return refuse(Refusal::BadLine, number, output);
    };
    match read_request(alloc, text, number) {
        Ok(request) => answer_request(rt, alloc, session, request, number, output),
        Err(refusal) => decline(refusal, number, output),
    }
}

/// Answers a request, or refuses it outside its ranges.
fn answer_request<K: Run, R: Wait>(
    rt: &R,
    alloc: Global,
    session: &mut Session<'_, K>,
    request: Request,
    number: u32,
    output: &mut String,
) -> Result<Option<Refusal>, Refusal>
    ensures memory { IfErr result (λ refusal. refusal ≡ OutOfMemory) }
    ensures turn { OnOk result ((answer : AnswerValue)
        × IsPrinted (string_bytes output.old) answer (string_bytes output.new)
        × IsRequestTurn (state_of K.run.first session.old) number request
        (record { answer = answer; state = state_of K.run.first session.new })) }
{
    let scale = session.population().scale();
    match in_range(&scale, request) {
        Ok(Request::Transaction(input)) => commit(rt, session, &input, number, output),
        Ok(Request::Show(key)) => {
            let row = show(alloc, session, key)?;
            tell_row(row, output)
        }
        Err(refusal) => refuse(refusal, number, output),
    }
}

/// Tells a row.
fn tell_row(row: ShownRow, output: &mut String) -> Result<Option<Refusal>, Refusal>
    ensures told { OnOk result (IsPrinted (string_bytes output.old) (answer.Row row) (string_bytes output.new)) }
    ensures memory { IfErr result (λ refusal. refusal ≡ OutOfMemory) }
{
    Answer::Row(row).print(output)?;
    Ok(None)
}

/// Commits an input and tells the reply, or refuses the line.
fn commit<K: Run, R: Wait>(
    rt: &R,
    session: &mut Session<'_, K>,
    input: &Input,
    number: u32,
    output: &mut String,
) -> Result<Option<Refusal>, Refusal>
    requires { IsInput K.run.first.scale input.now }
    ensures memory { IfErr result (λ refusal. refusal ≡ OutOfMemory) }
    ensures turn { OnOk result ((answer : AnswerValue)
        × IsPrinted (string_bytes output.old) answer (string_bytes output.new)
        × IsInputTurn (state_of K.run.first session.old) number input.now
        (record { answer = answer; state = state_of K.run.first session.new })) }
{
    match session.commit(rt, input) {
        Ok(()) => tell_last(session.dones(), output),
        Err(refusal) => decline(refusal, number, output),
    }
}

/// Tells the reply to the last of what was committed.
fn tell_last(dones: &[Done], output: &mut String) -> Result<Option<Refusal>, Refusal>
    requires { 0 < length dones.now }
    ensures last { (before : List DoneValue) (done : DoneValue) → dones.now ≡ before ++ done ∷ []
        → OnOk result (IsPrinted (string_bytes output.old) (answer.Reply done.reply) (string_bytes output.new)) }
    ensures memory { IfErr result (λ refusal. refusal ≡ OutOfMemory) }
{
    print_reply(dones[dones.len() - 1].reply(), output)?;
    Ok(None)
}

/// Answers a line whose request or input was refused. Want of memory isn't answered.
fn decline(refusal: Refusal, number: u32, output: &mut String) -> Result<Option<Refusal>, Refusal>
    ensures told { OnOk result ((refusal ≢ OutOfMemory)
        × IsPrinted (string_bytes output.old) (answer.Refused refusal number) (string_bytes output.new)) }
    ensures memory { IfErr result (λ error. error ≡ OutOfMemory) }
{
    match refusal {
        Refusal::OutOfMemory => Err(refusal),
        _ => refuse(refusal, number, output),
    }
}

/// Answers a line that is refused.
fn refuse(refusal: Refusal, number: u32, output: &mut String) -> Result<Option<Refusal>, Refusal>
    ensures told { OnOk result
        (IsPrinted (string_bytes output.old) (answer.Refused refusal number) (string_bytes output.new)) }
    ensures memory { IfErr result (λ error. error ≡ OutOfMemory) }
{
    let line = u64::from(number);
    Answer::Refused { refusal, line }.print(output)?;
    Ok(Some(refusal))
}
