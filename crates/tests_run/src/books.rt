//! What a run comes to, and what its log files recover to.

use crate::stage::plain;
use book::{Closed, Entry, Run};
use log_disk::{Disk, Memory};
use money::Refusal;
use recover::recover;
use recover_progress::Progress;
use run_threads::Outcome;
use std::alloc::Global;
use std::sync::Arc;
use tables::{Input, Tables};

/// What a database comes to: up to which epoch it is durable, its commits, and W_YTD of its warehouse, in cents.
#[derive(Clone, Copy, Debug, PartialEq, Eq)]
pub(crate) struct Books {
    durable: u64,
    commits: u64,
    pub(crate) year_to_date: i64,
}

impl Books {
    /// Those of a run.
    pub(crate) fn of_run<K: Run, D: Disk + Drop>(
        outcome: &mut Outcome<K, D>,
    ) -> Result<Books, Refusal> {
        Ok(Books {
            durable: outcome.counts.durable,
            commits: outcome.counts.commits,
            year_to_date: year_to_date(&outcome.closed.tables()?),
        })
    }

    /// Those that log files recover to.
    pub(crate) fn recovered(alloc: Global, disks: (Memory, Memory)) -> Result<Books, Refusal> {
        let population = plain(alloc)?;
        let unwatched = Progress::of(Vec::new(alloc));
        let found = recover(alloc, &population, &mut [disks.0, disks.1], &unwatched)?;
        Ok(Books {
            durable: found.durable,
            commits: found.commits,
            year_to_date: year_to_date(&found.tables),
        })
    }
}

/// W_YTD of the warehouse, in cents.
fn year_to_date(tables: &Tables) -> i64 {
    match tables.warehouses.get(&1) {
        Some(row) => row.year_to_date.amount(),
        None => 0,
    }
}

/// What was paid: H_AMOUNT of all Payments that have committed, in cents.
pub(crate) fn paid<K: Run>(closed: &Closed<K>) -> i64 {
    let amounts = closed.history().iter().map(|entry| amount(entry));
    amounts.fold(0i64, |sum, amount| sum.saturating_add(amount))
}

/// H_AMOUNT of an entry's Payment, in cents, and 0 where it is no Payment.
fn amount(entry: &Arc<Entry, Global>) -> i64 {
    match &entry.input {
        Input::Payment(payment) => payment.amount.amount(),
        _ => 0,
    }
}
