//! Running a script from its bytes to its replies.

ghost use Rattle.std.specs.Prelude.{◌≡◌, ◌⊎◌, ◌≤◌, ◌<◌, ◌+◌, ℕ, Some, List, [], ◌++◌, length, take, codes};
ghost use Rattle.std.specs.Prelude.{string_bytes, IfErr, IfOk, OnOk, OnErr, IsErrOf};
ghost use Rattle.std.specs.Io.KnownBytes.{Appends, Consumes, IsAtEnd};
ghost use Rattle.money.specs.declared.refusal.Refusal.TheVariants.{OutOfMemory, BadInput, Device};
ghost use Rattle.population.specs.Initial.{initial};
ghost use Rattle.program_script_text.specs.Lines.{buffered};
ghost use Rattle.program_script_text.specs.Output.{answer_text};
ghost use Rattle.book.specs.Parts.{IsAlone, IsOpenedAs};
ghost use Rattle.program_script.specs.Hints.{TellsMore};
ghost use Rattle.program_script.specs.Turns.{Turn, IsLineTurn};
ghost use Rattle.program_script.specs.Written.{HasTooManyLines, IsWhole, IsBeginning};
ghost use Rattle.program_script.specs.Written.{IsScriptRefusal, WritesFront, WritesWhole};
ghost use Rattle.program_script.specs.Answered.{state_of, standing_of, HasAnswered, HasAnsweredAll, HasTooMany};

use crate::answering::answer_line;
use crate::hints::{Hints, NoHints};
use book::{Done, Engine, Parts, Run, Seat};
use book_session::Session;
use conditions::Report;
use money::Refusal;
use population::Population;
use program_script_text::{LineBuffer, print_report};
use program_streams::{read_piece, write_text};
use std::alloc::Global;
use std::io::{Read, Write};
use std::marker::Brand;
use std::sync::Wait;

/// The most bytes that are read at once.
const PIECE: usize = 65_536;

/// The most lines that a script may have.
pub const MAX_LINES: u32 = 4_000_000_000;

/// Answers the lines that a reader gives, in order, and then reports on the committed tables. The date of a
/// line is its number, from 1. A line in none of the forms, or of more than 1,024 bytes, is answered by
/// `14 line N`.
///
/// Runs over the one terminal of an engine that it opens, and has its book until the end. May wait, at the
/// book's lock and at record cells, and executes a transaction again after `Stale` or `Conflict`: what is promised
/// holds if it returns.
///
/// What is written is the text of a whole script of the bytes that the reader has, in whatever pieces they
/// come, and what is returned is that script's report and its commits in order (`specs/Written.antt`).
///
/// What was answered is written before each read, so it is out before a read can wait. Memory beside the population is
/// the engine's (a cell a record, the running totals, and for each commit an entry with its writes
/// and its places in history and stream), one piece and its answers, and a [`Done`] for each commit.
///
/// Refuses by `Device` where the reader or the writer fails, or comes to no end in 2^64 - 1 calls, by `BadInput`
/// only where there are more than 4,000,000,000 lines, and else for memory. What was written by then is a
/// beginning of that text.
pub fn script<R: Read, W: Write, T: Wait>(
    rt: &T,
    alloc: Global,
    population: Population,
    reader: &mut R,
    writer: &mut W,
) -> Result<(Report, Vec<Done>), Refusal>
    ensures whole { IfOk result (λ closed. WritesWhole (initial population) (R.remaining reader.old)
        (W.contents writer.old) (W.contents writer.new) closed.0 closed.1.items) }
    ensures beginning { OnErr result (WritesFront (initial population) (R.remaining reader.old)
        (W.contents writer.old) (W.contents writer.new)) }
    ensures too_many { IsErrOf result BadInput → (bytes : List ℕ)
        → R.remaining reader.old ≡ Some bytes → HasTooManyLines bytes }
    ensures refusals { IfErr result IsScriptRefusal }
{
    hinted_script(rt, alloc, population, reader, writer, &mut NoHints)
}

/// As `script`, and tells `hints` of each line that is refused, once it is answered and before the answer is written.
pub fn hinted_script<R: Read, W: Write, T: Wait, H: Hints>(
    rt: &T,
    alloc: Global,
    population: Population,
    reader: &mut R,
    writer: &mut W,
    hints: &mut H,
) -> Result<(Report, Vec<Done>), Refusal>
    ensures whole { IfOk result (λ closed. WritesWhole (initial population) (R.remaining reader.old)
        (W.contents writer.old) (W.contents writer.new) closed.0 closed.1.items) }
    ensures beginning { OnErr result (WritesFront (initial population) (R.remaining reader.old)
        (W.contents writer.old) (W.contents writer.new)) }
    ensures too_many { IsErrOf result BadInput → (bytes : List ℕ)
        → R.remaining reader.old ≡ Some bytes → HasTooManyLines bytes }
    ensures refusals { IfErr result IsScriptRefusal }
    ensures told { TellsMore (H.told hints.old) (H.told hints.new) }
{
    let parts = Parts::new(rt, alloc, population, 1, 1)?;
    run::<Brand, R, W, T, H>(rt, alloc, parts, reader, writer, hints)
}

/// Answers the lines, over the one terminal of an engine of these parts, and then reports.
fn run<K: Run, R: Read, W: Write, T: Wait, H: Hints>(
    rt: &T,
    alloc: Global,
    parts: Parts,
    reader: &mut R,
    writer: &mut W,
    hints: &mut H,
) -> Result<(Report, Vec<Done>), Refusal>
    requires run { IsOpenedAs parts K.run }
    requires alone { IsAlone parts K.name K.parts }
    ensures whole { IfOk result (λ closed. WritesWhole K.run.first (R.remaining reader.old)
        (W.contents writer.old) (W.contents writer.new) closed.0 closed.1.items) }
    ensures beginning { OnErr result (WritesFront K.run.first (R.remaining reader.old)
        (W.contents writer.old) (W.contents writer.new)) }
    ensures too_many { IsErrOf result BadInput → (bytes : List ℕ)
        → R.remaining reader.old ≡ Some bytes → HasTooManyLines bytes }
    ensures refusals { IfErr result IsScriptRefusal }
    ensures told { TellsMore (H.told hints.old) (H.told hints.new) }
{
    let (engine, mut seats) = Engine::<K>::open(parts);
    let Some(seat) = seats.terminals.next() else {
        unreachable!();
    };
    let desk = Desk::new(rt, alloc, &engine, seat)?;
    desk.run(rt, alloc, reader, writer, hints)
}

/// A session with the line that is coming in and the answers that aren't written yet.
#[derive(Drop)]
struct Desk<'e, K: Run> {
    alloc: Global,
    session: Session<'e, K>,
    line: LineBuffer,
    /// How many lines were answered.
    answered: u32,
    output: String,
}

impl<'e, K: Run> Desk<'e, K> {
    fn new<T: Wait>(
        rt: &T,
        alloc: Global,
        engine: &'e Engine<K>,
        seat: Seat<K>,
    ) -> Result<Desk<'e, K>, Refusal>
        requires only { seat.share.parts ≡ K.parts }
        requires none { seat.share.commits ≡ 0 }
        requires begins { (K.run.past ≡ 0) × (K.run.first ≡ K.run.population) }
        ensures start { IfOk result (λ desk. HasAnswered K.run.first [] [] (standing_of desk)) }
        ensures memory { IfErr result (λ refusal. refusal ≡ OutOfMemory) }
    {
        Ok(Desk {
            alloc,
            session: Session::open(rt, alloc, engine, seat),
            line: LineBuffer::new(alloc)?,
            answered: 0,
            output: String::new(alloc),
        })
    }

    /// Answers all lines that a reader gives, and writes the report behind the last answer.
    fn run<R: Read, W: Write, T: Wait, H: Hints>(
        self,
        rt: &T,
        alloc: Global,
        reader: &mut R,
        writer: &mut W,
        hints: &mut H,
    ) -> Result<(Report, Vec<Done>), Refusal>
        requires start { HasAnswered K.run.first [] [] (standing_of self) }
        ensures whole { IfOk result (λ closed. WritesWhole K.run.first (R.remaining reader.old)
            (W.contents writer.old) (W.contents writer.new) closed.0 closed.1.items) }
        ensures beginning { OnErr result (WritesFront K.run.first (R.remaining reader.old)
            (W.contents writer.old) (W.contents writer.new)) }
        ensures too_many { IsErrOf result BadInput → (bytes : List ℕ)
            → R.remaining reader.old ≡ Some bytes → HasTooManyLines bytes }
        ensures refusals { IfErr result IsScriptRefusal }
        ensures told { TellsMore (H.told hints.old) (H.told hints.new) }
    {
        let mut desk = self;
        let mut piece = vec![in alloc; 0u8; PIECE]?;
        desk.answer_all(rt, &mut piece, reader, writer, hints)?;
        desk.close(writer)
    }

    /// Answers all lines that a reader gives, which come through `piece`. The answers to the last ones aren't
    /// written yet.
    fn answer_all<R: Read, W: Write, T: Wait, H: Hints>(
        &mut self,
        rt: &T,
        piece: &mut [u8],
        reader: &mut R,
        writer: &mut W,
        hints: &mut H,
    ) -> Result<(), Refusal>
        requires { 0 < length piece.old }
        ensures all { OnOk result ((bytes : List ℕ) → R.remaining reader.old ≡ Some bytes
            → HasAnswered K.run.first [] [] (standing_of self.old) → (written : List ℕ)
            × Appends (W.contents writer.old) (W.contents writer.new) written
            × HasAnsweredAll K.run.first bytes written (standing_of self.new)) }
        ensures beginning { OnErr result ((bytes : List ℕ) → R.remaining reader.old ≡ Some bytes
            → HasAnswered K.run.first [] [] (standing_of self.old) → (front : List ℕ)
            × Appends (W.contents writer.old) (W.contents writer.new) front
            × IsBeginning K.run.first bytes front) }
        ensures too_many { IsErrOf result BadInput → (bytes : List ℕ)
            → R.remaining reader.old ≡ Some bytes
            → HasAnswered K.run.first [] [] (standing_of self.old) → HasTooManyLines bytes }
        ensures refusals { IfErr result IsScriptRefusal }
        ensures told { TellsMore (H.told hints.old) (H.told hints.new) }
    {
        for _ in 0..u64::MAX {
            self.write(writer)?;
            let count = read_piece(reader, piece)?;
            if count == 0 {
                self.answer_last(rt, hints)?;
                return Ok(());
            }
            self.answer_lines(rt, &piece[..count], hints)?;
        }
        Err(Refusal::Device)
    }

    /// Answers the lines that a piece of the input ends.
    fn answer_lines<T: Wait, H: Hints>(
        &mut self,
        rt: &T,
        piece: &[u8],
        hints: &mut H,
    ) -> Result<(), Refusal>
        ensures ok { OnOk result ((text written : List ℕ)
            → HasAnswered K.run.first text written (standing_of self.old)
            → HasAnswered K.run.first (text ++ piece.now) written (standing_of self.new)) }
        ensures too_many { IsErrOf result BadInput → (text written : List ℕ)
            → HasAnswered K.run.first text written (standing_of self.old)
            → HasTooMany (text ++ piece.now) }
        ensures refusals { IfErr result (λ refusal. (refusal ≡ OutOfMemory)
            ⊎ (refusal ≡ BadInput)) }
        ensures told { TellsMore (H.told hints.old) (H.told hints.new) }
    {
        let mut rest = piece;
        while let Some(after) = self.line.take_line(rest) {
            rest = after;
            self.answer_held(rt, hints)?;
        }
        Ok(())
    }

    /// Answers a last line that no line feed ends.
    fn answer_last<T: Wait, H: Hints>(&mut self, rt: &T, hints: &mut H) -> Result<(), Refusal>
        ensures ok { OnOk result ((text written : List ℕ)
            → HasAnswered K.run.first text written (standing_of self.old)
            → HasAnsweredAll K.run.first text written (standing_of self.new)) }
        ensures too_many { IsErrOf result BadInput → (text written : List ℕ)
            → HasAnswered K.run.first text written (standing_of self.old) → HasTooManyLines text }
        ensures refusals { IfErr result (λ refusal. (refusal ≡ OutOfMemory)
            ⊎ (refusal ≡ BadInput)) }
        ensures told { TellsMore (H.told hints.old) (H.told hints.new) }
    {
        if self.line.is_empty() {
            return Ok(());
        }
        self.answer_held(rt, hints)?;
        Ok(())
    }

    /// Answers the line that is held.
    fn answer_held<T: Wait, H: Hints>(&mut self, rt: &T, hints: &mut H) -> Result<(), Refusal>
        ensures turn { OnOk result ((bytes : List ℕ) → self.old.line ≡ buffered bytes → (turn : Turn)
            × IsLineTurn (state_of K.run.first self.old.session) (self.old.answered + 1) bytes turn
            × (state_of K.run.first self.new.session ≡ turn.state)
            × (string_bytes self.new.output
            ≡ string_bytes self.old.output ++ (answer_text turn.answer ++ codes "\n"))) }
        ensures count { OnOk result (self.new.answered ≡ self.old.answered + 1) }
        ensures line { OnOk result (self.new.line ≡ Some []) }
        ensures refusals { IfErr result (λ refusal. (refusal ≡ OutOfMemory)
            ⊎ ((refusal ≡ BadInput) × (MAX_LINES ≤ self.old.answered))) }
        ensures told { TellsMore (H.told hints.old) (H.told hints.new) }
    {
        if self.answered >= MAX_LINES {
            return Err(Refusal::BadInput);
        }
        self.answered += 1;
        let (alloc, line) = (self.alloc, self.line.line());
        let (session, output) = (&mut self.session, &mut self.output);
        let refused = answer_line(rt, alloc, session, line, self.answered, output)?;
        tell(hints, line, self.answered, refused);
        self.line.clear();
        Ok(())
    }

    /// Writes the answers that aren't written yet.
    fn write<W: Write>(&mut self, writer: &mut W) -> Result<(), Refusal>
        ensures ok { OnOk result ((text written : List ℕ)
            → HasAnswered K.run.first text written (standing_of self.old)
            → (more : List ℕ) × Appends (W.contents writer.old) (W.contents writer.new) more
            × HasAnswered K.run.first text (written ++ more) (standing_of self.new)) }
        ensures err { OnErr result ((front rest : List ℕ)
            × (string_bytes self.old.output ≡ front ++ rest)
            × Appends (W.contents writer.old) (W.contents writer.new) front) }
        ensures device { IfErr result (λ refusal. refusal ≡ Device) }
    {
        if self.output.is_empty() {
            return Ok(());
        }
        write_text(writer, self.output.as_bytes())?;
        self.output.clear();
        Ok(())
    }

    /// Writes the report behind the last answers.
    fn close<W: Write>(self, writer: &mut W) -> Result<(Report, Vec<Done>), Refusal>
        ensures whole { IfOk result (λ closed. (bytes written : List ℕ)
            → HasAnsweredAll K.run.first bytes written (standing_of self.entry) → (more : List ℕ)
            × Appends (W.contents writer.old) (W.contents writer.new) more
            × IsWhole K.run.first bytes (written ++ more) closed.0 closed.1.items) }
        ensures beginning { OnErr result ((bytes written : List ℕ)
            → HasAnsweredAll K.run.first bytes written (standing_of self.entry) → (more : List ℕ)
            × Appends (W.contents writer.old) (W.contents writer.new) more
            × IsBeginning K.run.first bytes (written ++ more)) }
        ensures refusals { IfErr result (λ refusal. (refusal ≡ OutOfMemory) ⊎ (refusal ≡ Device)) }
    {
        let Desk {
            alloc: _,
            session,
            line: _,
            answered: _,
            mut output,
        } = self;
        let (report, dones) = session.close()?;
        print_report(dones.len() as u64, &report, &mut output)?;
        write_text(writer, output.as_bytes())?;
        Ok((report, dones))
    }
}

/// Tells of a line, if it was refused.
fn tell<H: Hints>(hints: &mut H, line: Option<&[u8]>, number: u32, refused: Option<Refusal>)
    ensures { TellsMore (H.told hints.old) (H.told hints.new) }
{
    if let Some(refusal) = refused {
        hints.refused(line, number, refusal);
    }
}
