//! Whether what is recovered of a crash is right.

use log_disk::Memory;
use money::Refusal;
use population::Population;
use recover::recover;
use std::alloc::Global;
use tests_log_files::unwatched;
use tests_recorded::Notes;

/// What was seen of crashes.
#[derive(Clone, Copy, Debug, Default, PartialEq, Eq)]
pub(crate) struct Seen {
    pub(crate) crashes: u64,
    /// Those after which some commits are recovered, but not all.
    pub(crate) partly: u64,
    /// Those after which recovery was refused.
    pub(crate) refused: u64,
    /// Those whose commits aren't those up to the durable epoch.
    pub(crate) wrong_cuts: u64,
    /// Those whose tables have other rows than those commits have added.
    pub(crate) wrong_rows: u64,
    /// Those by which a released reply was lost.
    pub(crate) lost_replies: u64,
}

/// What is recovered.
#[derive(Clone, Copy, Debug, PartialEq, Eq)]
pub(crate) struct Found {
    pub(crate) durable: u64,
    pub(crate) commits: u64,
    /// How many rows HISTORY and ORDER have.
    pub(crate) payments: u64,
    pub(crate) orders: u64,
}

impl Found {
    /// Before all commits.
    pub(crate) fn first(population: &Population) -> Found {
        let tables = population.tables();
        Found {
            durable: 0,
            commits: 0,
            payments: tables.history.len() as u64,
            orders: tables.orders.len() as u64,
        }
    }

    /// Of disks.
    pub(crate) fn on(
        alloc: Global,
        population: &Population,
        disks: &mut [Memory],
    ) -> Result<Found, Refusal> {
        let found = recover(alloc, population, disks, &unwatched(alloc))?;
        Ok(Found {
            durable: found.durable,
            commits: found.commits,
            payments: found.tables.history.len() as u64,
            orders: found.tables.orders.len() as u64,
        })
    }

    /// Whether the commits are those of its epochs: of all that are known, these have the numbers from 1 on.
    fn is_cut(&self, notes: &Notes) -> bool {
        let all = 1..notes.len();
        let facts = all.filter_map(|number| notes.fact(number));
        facts.fold(true, |so_far, fact| {
            so_far && (fact.epoch <= self.durable) == (fact.number <= self.commits)
        })
    }

    /// Whether its commits have added these rows to those of the population. Where one isn't known, it is.
    fn has_rows(&self, notes: &Notes, first: &Found) -> bool {
        let (mut payments, mut orders) = (first.payments, first.orders);
        for number in 1..=self.commits {
            let Some(fact) = notes.fact(number as usize) else {
                return true;
            };
            payments = payments.saturating_add(fact.payments);
            orders = orders.saturating_add(fact.orders);
        }
        (payments, orders) == (self.payments, self.orders)
    }

    /// Whether each reply that was released by this stamp is of one of its commits.
    fn has_replies(&self, notes: &Notes, stamp: u64) -> bool {
        let all = 1..notes.len();
        let facts = all.filter_map(|number| notes.fact(number));
        facts.fold(true, |so_far, fact| {
            so_far && (fact.stamp > stamp || fact.number <= self.commits)
        })
    }
}

impl Seen {
    /// What is to be seen of as many crashes: nothing wrong.
    pub(crate) fn right(self) -> Seen {
        Seen {
            crashes: self.crashes,
            partly: self.partly,
            ..Seen::default()
        }
    }

    /// With what was seen of other crashes.
    pub(crate) fn with(self, other: Seen) -> Seen {
        Seen {
            crashes: self.crashes.saturating_add(other.crashes),
            partly: self.partly.saturating_add(other.partly),
            refused: self.refused.saturating_add(other.refused),
            wrong_cuts: self.wrong_cuts.saturating_add(other.wrong_cuts),
            wrong_rows: self.wrong_rows.saturating_add(other.wrong_rows),
            lost_replies: self.lost_replies.saturating_add(other.lost_replies),
        }
    }

    /// A crash before this stamp, with what is recovered of it.
    pub(crate) fn count(
        &mut self,
        notes: &Notes,
        first: &Found,
        stamp: u64,
        found: Result<Found, Refusal>,
    ) {
        self.crashes = self.crashes.saturating_add(1);
        let Ok(found) = found else {
            self.refused = self.refused.saturating_add(1);
            return;
        };
        let is_partly = found.commits > 0
            && notes
                .fact((found.commits as usize).saturating_add(1))
                .is_some();
        add(&mut self.partly, is_partly);
        add(&mut self.wrong_cuts, !found.is_cut(notes));
        add(&mut self.wrong_rows, !found.has_rows(notes, first));
        add(&mut self.lost_replies, !found.has_replies(notes, stamp));
    }
}

fn add(count: &mut u64, is_so: bool) {
    *count = count.saturating_add(u64::from(is_so));
}
