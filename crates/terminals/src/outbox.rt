//! Replies, and when they are given out.
ghost use Rattle.std.specs.Prelude.{◌≡◌, ◌+◌, ◌<◌, ◌≤◌, [], ◌∷◌, ◌++◌, length, IfOk, IfErr, OnOk};
ghost use Rattle.money.specs.declared.refusal.Refusal.TheVariants.{OutOfMemory};
ghost use Rattle.std.specs.List.{prefix_len};
ghost use Rattle.terminals.specs.Outbox.{Acknowledges, ForgetsReleased, IsSameBut, is_up_to};

use board::{Board, TerminalSeat};
use book::Done;
use money::Refusal;
use std::alloc::Global;
use std::marker::Model;

/// The replies of one terminal's commits, in the order in which they committed. A reply waits until its commit's epoch
/// is durable, with every commit before it (Silo, section 4.10). All room is taken as the outbox is made or
/// reserved, and a reply that was released keeps its place.
#[derive(Drop)]
pub struct Outbox {
    seat: TerminalSeat,
    // The released ones are in front.
    held: Vec<Done>,
    released: usize,
}

impl Model for Outbox {
    ghost use Rattle.std.specs.Prelude.{◌-◌, ◌≤◌, length, take, drop, vec_capacity};
    ghost use Rattle.terminals.specs.Outbox.{OutboxView};

    ghost Value = { OutboxView };

    ghost view = { λ o. record {
      seat = o.seat;
      released = take o.released o.held.items;
      waiting = drop o.released o.held.items;
      room = vec_capacity o.held - length o.held.items;
    } };

    ghost invariant = { λ o. (o.released ≤ length o.held.items) × (length o.held.items ≤ vec_capacity o.held) };
}

impl Outbox {
    /// An empty outbox of a terminal, with room for this many replies.
    ///
    /// # Errors
    ///
    /// `OutOfMemory`, and no other.
    pub fn new(alloc: Global, seat: TerminalSeat, room: usize) -> Result<Outbox, Refusal>
        ensures ok { IfOk result (λ outbox. outbox
            ≡ record { seat = seat; released = []; waiting = []; room = room }) }
        ensures memory { IfErr result (λ refusal. refusal ≡ OutOfMemory) }
    {
        Ok(Outbox {
            seat,
            held: Vec::with_capacity(alloc, room)?,
            released: 0,
        })
    }

    /// How many more replies it may hold.
    pub fn room(&self) -> usize
        ensures { result ≡ self.now.room }
    {
        self.held.capacity() - self.held.len()
    }

    /// Makes room for one reply more, if there is none. Constant time, amortized.
    ///
    /// # Errors
    ///
    /// `OutOfMemory`, and no other. Nothing has changed then.
    pub fn reserve(&mut self) -> Result<(), Refusal>
        ensures same { IsSameBut self.old self.new }
        ensures room { OnOk result (0 < self.new.room) }
        ensures memory { IfErr result (λ refusal. (refusal ≡ OutOfMemory) × (self.new ≡ self.old)) }
    {
        self.held.reserve(1)?;
        Ok(())
    }

    /// How many replies wait.
    pub fn waiting(&self) -> usize
        ensures { result ≡ length self.now.waiting }
    {
        self.held.len() - self.released
    }

    /// The replies that were released, in the order of their commits.
    pub fn released(&self) -> &[Done]
        ensures { result.now ≡ self.now.released }
    {
        &self.held[..self.released]
    }

    /// Holds the reply of the terminal's next commit, behind those that wait. Takes no memory.
    pub fn hold(&mut self, done: Done)
        requires { 0 < self.old.room }
        ensures seat { self.new.seat ≡ self.old.seat }
        ensures released { self.new.released ≡ self.old.released }
        ensures waiting { self.new.waiting ≡ self.old.waiting ++ done ∷ [] }
        ensures room { self.new.room + 1 ≡ self.old.room }
    {
        self.held.push_reserved(done);
    }

    /// Releases the replies that are durable: of those that wait, the longest front without one of an epoch above D, as
    /// this call has loaded it, once. Answers how many. Constant time a reply; takes no memory, and doesn't wait.
    pub fn acknowledge(&mut self, board: &Board) -> u64
        requires { self.old.seat.board ≡ board.now }
        ensures { Acknowledges self.old result self.new }
    {
        let durable = board.durable(&mut self.seat);
        let count = front(&self.held[self.released..], durable);
        self.released += count;
        count as u64
    }

    /// Gives back the memory of the replies that were released, which aren't told any longer, and answers how many they
    /// are. Constant time a reply.
    pub fn forget_released(&mut self) -> u64
        ensures { ForgetsReleased self.old result self.new }
    {
        let (forgotten, waiting) = (self.released, self.waiting());
        self.held.rotate_left(forgotten);
        self.held.truncate(waiting);
        self.released = 0;
        forgotten as u64
    }
}

/// How many replies are in front of the first of an epoch above this one.
fn front(replies: &[Done], durable: u64) -> usize
    ensures count { result ≡ prefix_len (is_up_to durable) replies.now }
    ensures within { result ≤ length replies.now }
{
    replies
        .iter()
        .take_while(|done| u64::from(done.tid().epoch()) <= durable)
        .count()
}
