//! A terminal at work.
ghost use Rattle.std.specs.Prelude.{◌≡◌, ◌+◌};
ghost use Rattle.money.specs.declared.refusal.Refusal.TheVariants.{OutOfMemory};
ghost use Rattle.run_threads.specs.Inputs.{CameOfInputs};
ghost use Rattle.run_threads.specs.Tally.{inputs_in};

use crate::progress::RunProgress;
use crate::tally::Tally;
use book::{Engine, Run, Seat, Share};
use money::Refusal;
use std::alloc::Global;
use std::sync::Wait;
use terminals::{Gate, Outbox, Terminal};
use terminals_deck::Deck;

/// What a terminal is to work with: its inputs, and its gate.
#[derive(Drop)]
pub struct Station<G: Gate> {
    pub deck: Deck,
    pub gate: G,
}

/// A terminal, its gate, and what has come of its inputs. Its share has one part, and as many commits as were counted.
#[derive(Drop)]
pub(crate) struct TerminalThread<K: Run, G: Gate> {
    pub(crate) terminal: Terminal<K>,
    pub(crate) gate: G,
    pub(crate) tally: Tally,
    /// How many of its replies were released and forgotten.
    forgotten: u64,
    ghost one_part: { terminal.share.parts ≡ 1 },
    ghost counted: { terminal.share.commits ≡ tally.commits },
}

impl<K: Run, G: Gate + Drop> TerminalThread<K, G> {
    ghost use Rattle.std.specs.Prelude.{◌≡◌, ◌+◌, IfOk, IfErr};
    ghost use Rattle.board.specs.declared.rule.Role.TheVariants.{Terminal as TerminalRole};
    ghost use Rattle.board.specs.Seats.{new_seat};

    /// A terminal that has done no input, at a seat and a station. `OutOfMemory` is the only refusal.
    pub(crate) fn new(
        alloc: Global,
        engine: &Engine<K>,
        seat: Seat<K>,
        station: Station<G>,
    ) -> Result<TerminalThread<K, G>, Refusal>
        requires parts { seat.share.parts ≡ 1 }
        requires commits { seat.share.commits ≡ 0 }
        requires deck { station.deck.scale ≡ K.run.first.scale }
        ensures idle { IfOk result (λ worker. inputs_in worker.tally ≡ 0) }
        ensures deck { IfOk result (λ worker. worker.terminal.deck ≡ station.deck) }
        ensures only_memory { IfErr result (λ refusal. refusal ≡ OutOfMemory) }
    {
        let Station { deck, gate } = station;
        let Seat {
            reader,
            board,
            share,
        } = seat;
        let outbox = Outbox::new(alloc, board, 0)?;
        Ok(TerminalThread {
            terminal: Terminal::new(engine, reader, share, outbox, deck),
            gate,
            tally: Tally::default(),
            forgotten: 0,
        })
    }

    /// Does so many inputs, and gives back the memory of the replies that were released by then.
    pub(crate) fn work<R: Wait>(
        &mut self,
        rt: &R,
        alloc: Global,
        engine: &Engine<K>,
        inputs: u32,
        progress: &RunProgress,
    )
        requires idle { inputs_in self.old.tally ≡ 0 }
        ensures all { inputs_in self.new.tally ≡ inputs }
        ensures came { CameOfInputs K.run.past K.run.first self.old.terminal.deck inputs self.new.tally self.new.terminal.deck }
    {
        let TerminalThread {
            terminal,
            gate,
            tally,
            forgotten,
        } = self;
        *tally = tally_of(rt, alloc, engine, terminal, gate, inputs, progress);
        *forgotten = forgotten.saturating_add(terminal.forget_released());
    }

    /// Ends the terminal, which acknowledges what is durable: what came of its inputs, how many of its replies were
    /// released, its share and its deck.
    pub(crate) fn end(self, engine: &Engine<K>) -> (Tally, u64, Share<K>, Deck)
        ensures tally { result.0 ≡ self.tally }
        ensures parts { result.2.parts ≡ 1 }
        ensures commits { result.2.commits ≡ self.tally.commits }
        ensures deck { result.3 ≡ self.terminal.deck }
    {
        let TerminalThread {
            mut terminal,
            mut gate,
            tally,
            forgotten,
        } = self;
        acknowledge(engine, &mut terminal, &mut gate);
        let released = forgotten.saturating_add(terminal.released().len() as u64);
        let (share, _, deck) = terminal.end();
        (tally, released, share, deck)
    }
}

/// Does so many inputs of a terminal, and tells what came of them. After each, the terminal acknowledges what is
/// durable.
fn tally_of<K: Run, G: Gate, R: Wait>(
    rt: &R,
    alloc: Global,
    engine: &Engine<K>,
    terminal: &mut Terminal<K>,
    gate: &mut G,
    inputs: u32,
    progress: &RunProgress,
) -> Tally
    ensures all { inputs_in result ≡ inputs }
    ensures came { CameOfInputs K.run.past K.run.first terminal.old.deck inputs result terminal.new.deck }
    ensures parts { terminal.new.share.parts ≡ terminal.old.share.parts }
    ensures commits { terminal.new.share.commits ≡ terminal.old.share.commits + result.commits }
{
    let mut tally = Tally::default();
    for _ in 0..inputs {
        let outcome = terminal.one(rt, alloc, engine, gate);
        tally.count(&outcome);
        let acknowledged = acknowledge(engine, terminal, gate);
        progress.note_input(outcome.is_ok(), acknowledged);
    }
    tally
}

/// A terminal acknowledges what is durable, which its gate hears. Answers how many replies were released.
fn acknowledge<K: Run, G: Gate>(engine: &Engine<K>, terminal: &mut Terminal<K>, gate: &mut G) -> u64
    ensures share { terminal.new.share ≡ terminal.old.share }
    ensures deck { terminal.new.deck ≡ terminal.old.deck }
{
    let before = terminal.released().len();
    let count = terminal.acknowledge(engine.board());
    gate.released(&terminal.released()[before..]);
    count
}
