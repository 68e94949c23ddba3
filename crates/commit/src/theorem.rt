//! What is true of the machine whatever happens.
ghost use Rattle.std.specs.Prelude.{List};
ghost use Rattle.commit.specs.Machine.{Machine, IsOpening};
ghost use Rattle.commit.specs.Events.{AreEnabled};
ghost use Rattle.commit.specs.Turns.{run};
ghost use Rattle.commit.specs.Serial.{IsSerialRun};
ghost use Rattle.commit.specs.declared.event.Event.{Event};

/// From every opening machine, whatever events happen one after another, each where it may: the transactions that take
/// a TID are serial in the order of their epoch reads, their TIDs are lawful, and the records are as they leave them
/// (Silo, section 4.4). Nothing is assumed of how the workers' events interleave, nor of how many workers there are.
pub fn every_interleaving()
    ensures { (opening : Machine) (events : List Event) → IsOpening opening → AreEnabled opening events
        → IsSerialRun opening (run opening events) }
{}
