//! A terminal, and one input of it.
ghost use Rattle.std.specs.Prelude.{◌≡◌, ℕ, [], IfOk, IfErr, OnErr};
ghost use Rattle.tables.specs.Inputs.{IsInput};
ghost use Rattle.terminals.specs.Calls.{AreCalls};
ghost use Rattle.terminals.specs.Outbox.{Acknowledges, ForgetsReleased};
ghost use Rattle.terminals.specs.Terminal.{HasCommitted, HasRefused, IsTurned};
ghost use Rattle.terminals.specs.Tries.{AreTries, IsTry, TellsMissing};

use crate::gate::Gate;
use crate::outbox::Outbox;
use crate::steps::{commit_at, execute_at};
use annals::Pass;
use board::Board;
use book::{Done, Engine, Entry, Run, Share};
use cells::Reader;
use money::Refusal;
use std::alloc::Global;
use std::marker::Model;
use std::sync::Wait;
use tables::Input;
use terminals_deck::Deck;

/// How often an input is tried before its terminal gives up.
pub const TRIES: u32 = 64;

/// A terminal of an engine: the reader by which it reads cells, its share of the commits, its outbox, the deck that its
/// inputs come from, and a pass of the run's annals. Its type keeps that each of its replies tells of an entry of the
/// history, and that those released are of epochs up to the D that it has seen (`KeepsReplies`).
#[derive(Drop)]
pub struct Terminal<K: Run> {
    reader: Reader,
    share: Share<K>,
    outbox: Outbox,
    deck: Deck,
    // It has the entries that the replies tell of.
    pass: Pass<Entry>,
}

impl<K: Run> Model for Terminal<K> {
    ghost use Rattle.std.specs.Prelude.{◌≡◌};
    ghost use Rattle.terminals.specs.Telling.{KeepsReplies};
    ghost use Rattle.terminals.specs.Terminal.{TerminalView};

    ghost Value = { TerminalView };

    ghost view = { λ t. record { reader = t.reader; share = t.share; outbox = t.outbox; deck = t.deck } };

    ghost invariant = { λ t. (t.reader.cells ≡ K.run.cells) × (t.outbox.seat.board ≡ K.run.board)
        × (t.deck.scale ≡ K.run.first.scale) × (t.pass.table ≡ K.run.annals.table)
        × KeepsReplies t.pass.claim.has t.outbox };
}

impl<K: Run> Terminal<K> {
    /// A terminal of an engine's seat, with a new outbox of that seat and a deck of inputs of its scale. Takes no memory.
    pub fn new(
        engine: &Engine<K>,
        reader: Reader,
        share: Share<K>,
        outbox: Outbox,
        deck: Deck,
    ) -> Terminal<K>
        requires reader { reader.cells ≡ K.run.cells }
        requires outbox { outbox.seat.board ≡ K.run.board }
        requires empty { (outbox.released ≡ []) × (outbox.waiting ≡ []) }
        requires deck { deck.scale ≡ K.run.first.scale }
        ensures { result ≡ record { reader = reader; share = share; outbox = outbox; deck = deck } }
    {
        Terminal {
            reader,
            share,
            outbox,
            deck,
            pass: engine.annals().begin(),
        }
    }

    /// Its share, its outbox and its deck.
    pub fn end(self) -> (Share<K>, Outbox, Deck)
        ensures share { result.0 ≡ self.share }
        ensures outbox { result.1 ≡ self.outbox }
        ensures deck { result.2 ≡ self.deck }
    {
        let Terminal {
            reader: _,
            share,
            outbox,
            deck,
            pass: _,
        } = self;
        (share, outbox, deck)
    }

    /// The replies that were released, in the order of their commits.
    pub fn released(&self) -> &[Done]
        ensures { result.now ≡ self.now.outbox.released }
    {
        self.outbox.released()
    }

    /// Runs the deck's next input: executes it without a lock and commits it under the book's (Silo, section 4.4), and
    /// tries again, 64 times in all, where what it read wasn't the latest. Answers the commit's number; the reply waits
    /// in the outbox. May wait, for the book's lock and at records' cells alone.
    ///
    /// # Errors
    ///
    /// `ItemNotValid` exactly where an item of the input isn't in ITEM, with the first such item. `OrdersFull` where,
    /// in the last try, D_NEXT_O_ID as read was above the order cap, and `CommitsFull` where the book was at the commit
    /// cap. `GaveUp` exactly where 64 tries have ended as stale or in conflict. `OutOfMemory` at any time. After each
    /// of them the deck stands behind this input all the same, and share and outbox are as before, but that its room
    /// may have risen.
    pub fn one<R: Wait, G: Gate>(
        &mut self,
        rt: &R,
        alloc: Global,
        engine: &Engine<K>,
        gate: &mut G,
    ) -> Result<u64, Refusal>
        ensures deck { IsTurned self.old.deck self.new.deck }
        ensures ok { IfOk result (HasCommitted K.run.past K.run.first self.old.deck.next self.old self.new) }
        ensures err { OnErr result (HasRefused self.old self.new) }
        ensures missing { TellsMissing K.run.first self.old.deck.next result }
        ensures tries { (tries : ℕ)
            × AreTries K.run.past K.run.first self.old.deck.next self.old.reader self.new.reader tries result
            × AreCalls tries result (G.calls gate.old) (G.calls gate.new) }
    {
        let input = self.deck.next(alloc)?;
        for _ in 0..TRIES {
            let outcome = self.attempt(rt, alloc, engine, gate, &input);
            let Err(refusal) = outcome else {
                return outcome;
            };
            if !refusal.is_retried() {
                return outcome;
            }
        }
        Err(Refusal::GaveUp)
    }

    /// A try of an input: executes it, and commits it if what it read is still the latest.
    ///
    /// # Errors
    ///
    /// As `one`, and `Stale` or `Conflict` where what it read wasn't or isn't the latest.
    fn attempt<R: Wait, G: Gate>(
        &mut self,
        rt: &R,
        alloc: Global,
        engine: &Engine<K>,
        gate: &mut G,
        input: &Input,
    ) -> Result<u64, Refusal>
        requires input { IsInput K.run.first.scale input.now }
        ensures deck { self.new.deck ≡ self.old.deck }
        ensures ok { IfOk result (HasCommitted K.run.past K.run.first input.now self.old self.new) }
        ensures err { OnErr result (HasRefused self.old self.new) }
        ensures missing { TellsMissing K.run.first input.now result }
        ensures tried { IfErr result (IsTry K.run.past K.run.first input.now self.old.reader self.new.reader) }
        ensures calls { AreCalls 1 result (G.calls gate.old) (G.calls gate.new) }
    {
        gate.before_execute();
        self.outbox.reserve()?;
        let work = execute_at(rt, alloc, engine, &mut self.reader, input)?;
        gate.before_commit();
        let (done, cited) = commit_at(rt, engine, &mut self.reader, &mut self.share, work)?;
        gate.after_commit();
        let number = u64::from(done.number());
        engine.annals().gather(&mut self.pass, cited);
        self.outbox.hold(done);
        Ok(number)
    }

    /// Releases the replies that are durable, as `Outbox::acknowledge` does, and answers how many.
    pub fn acknowledge(&mut self, board: &Board) -> u64
        requires { board.now ≡ K.run.board }
        ensures reader { self.new.reader ≡ self.old.reader }
        ensures share { self.new.share ≡ self.old.share }
        ensures deck { self.new.deck ≡ self.old.deck }
        ensures outbox { Acknowledges self.old.outbox result self.new.outbox }
    {
        self.outbox.acknowledge(board)
    }

    /// Gives back the memory of the replies that were released, as `Outbox::forget_released` does, and answers how many
    /// they are.
    pub fn forget_released(&mut self) -> u64
        ensures reader { self.new.reader ≡ self.old.reader }
        ensures share { self.new.share ≡ self.old.share }
        ensures deck { self.new.deck ≡ self.old.deck }
        ensures outbox { ForgetsReleased self.old.outbox result self.new.outbox }
    {
        self.outbox.forget_released()
    }
}
