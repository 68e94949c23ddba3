//! What a run of the commit machine makes of the tables, where each transaction is explained by what it read.
#![tactic(auto)]

ghost use Rattle.std.specs.Prelude.{◌≤◌, List, length};
ghost use Rattle.tables.specs.Database.{Database};
ghost use Rattle.tables.specs.Conditions.{IsConsistent};
ghost use Rattle.tables.specs.WellFormed.{IsWellFormed, HasRoom};
ghost use Rattle.tables.specs.declared.limits.TheConstants.{MAX_COMMITS};
ghost use Rattle.readset.specs.declared.work.Work.{Work};
ghost use Rattle.commit.specs.Machine.{Machine, IsOpening};
ghost use Rattle.commit.specs.Events.{AreEnabled};
ghost use Rattle.commit.specs.Turns.{decided, run};
ghost use Rattle.commit.specs.Serial.{now, opening_versions};
ghost use Rattle.commit.specs.declared.event.Event.{Event};
ghost use Rattle.book_decided.specs.Decided.{HoldsRows, AreTransactionsOf, LeadsTo, history_of};

use commit::every_interleaving;

/// Every run of the commit machine, whatever its interleaving, whose transactions are explained by what they read has a
/// serial history. Say that the machine opens with the rows of well-formed, consistent tables with room for 600,000
/// commits, and that no more transactions have taken a TID. Then they are legal one after another, in the order of
/// their epoch reads, with every reply and every write the same. Their TIDs rise by record and by terminal, and their
/// epochs don't fall. The tables that they lead to are well-formed and consistent, with the rows that the machine's
/// writes leave (Silo, section 4.4).
pub fn every_decided_run_is_legal()
    ensures { (t0 : Database) (opening : Machine) (events : List Event) (works : List Work)
        → IsWellFormed t0 → IsConsistent t0 → HasRoom MAX_COMMITS t0
        → IsOpening opening → HoldsRows t0 opening → AreEnabled opening events
        → AreTransactionsOf t0 works (decided (run opening events).turns) → length works ≤ MAX_COMMITS
        → LeadsTo t0 (history_of works (decided (run opening events).turns))
        (now (opening_versions opening) (decided (run opening events).turns)) }
{
    every_interleaving();
}
