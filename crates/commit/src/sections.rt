//! A commit that nobody acts between, as a run of the machine, and what others may do between its events.
ghost use Rattle.std.specs.Prelude.{ℕ, List};
ghost use Rattle.commit.specs.Machine.{Machine};
ghost use Rattle.commit.specs.Events.{AreEnabled};
ghost use Rattle.commit.specs.Sections.{Writes, MayLock, AreSections};
ghost use Rattle.commit.specs.Weaving.{AreOwn, MayBeWoven};
ghost use Rattle.commit.specs.declared.event.Event.{Event};

/// Where no record is locked, a worker may lock what it is to write, read the epoch, and validate what it has read, at
/// once. If every read is current, it takes its TID and installs all its writes, or fails where there is no TID; and it
/// fails at the first read that isn't current. Each of the three is a run of the machine, which leaves no lock, and a
/// failure leaves every record as it was.
pub fn every_section_is_a_run()
    ensures { (m : Machine) (w : ℕ) (writes : Writes) → MayLock m w writes → AreSections m w writes }
{}

/// What a worker does in a run, it may do while others begin and read and the epoch goes on, if it reads the same
/// epoch: each of its events may still happen, and in the end the records and the worker itself are the same.
pub fn others_may_act_between()
    ensures { (m : Machine) (w : ℕ) (own : List Event) → AreOwn w own → AreEnabled m own → MayBeWoven m w own }
{}
