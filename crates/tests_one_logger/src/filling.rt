//! A log file that is filled with the batches of a run.
ghost use Rattle.std.specs.Prelude.{◌≡◌, [], IfOk};
ghost use Rattle.book.specs.Parts.{IsFresh, IsOpenedAs, IsLedgerOf, loggers_of};

use crate::stage::{Stage, parts};
use board::Keeper;
use book::{Parts, Run};
use log_disk::Disk;
use money::Refusal;
use std::alloc::Global;
use std::marker::Brand;
use std::sync::Wait;
use tables::Scale;

/// Where an open file stands.
#[derive(Clone, Copy, Debug, PartialEq, Eq)]
pub struct Standing {
    pub count: u64,
    pub last: u64,
    pub mark: u64,
    pub kept: u64,
}

pub fn where_stands<K: Run, D: Disk + Drop>(stage: &Stage<K, D>) -> Standing {
    let file = stage.file();
    Standing {
        count: file.count(),
        last: file.last(),
        mark: file.mark(),
        kept: file.kept(),
    }
}

/// The parts of an engine over one warehouse, two districts and ten customers a district.
pub fn small<R: Wait>(rt: &R, alloc: Global) -> Result<Parts, Refusal>
    ensures fresh { IfOk result IsFresh }
    ensures loggers { IfOk result (λ parts. loggers_of parts ≡ 1) }
{
    parts(rt, alloc, Scale::new(1, 2, 10, 20, 30, 1_000)?)
}

/// A Payment: its customer, and how many cents.
pub type Paid = (u32, i64);

/// Commits Payments, and appends them as a batch in the next epoch.
pub fn append_payments<K: Run, D: Disk + Drop, R: Wait>(
    rt: &R,
    alloc: Global,
    stage: &mut Stage<K, D>,
    payments: &[Paid],
) -> Result<(), Refusal> {
    for (customer, cents) in payments {
        stage.pay(rt, alloc, *customer, *cents)?;
    }
    stage.advance()?;
    let batch = stage.take(rt);
    stage.append(&batch)
}

fn fill<K: Run, D: Disk + Drop, R: Wait>(
    rt: &R,
    alloc: Global,
    parts: Parts,
    disk: D,
    batches: &[&[Paid]],
) -> Result<Standing, Refusal>
    requires run { IsOpenedAs parts K.run }
    requires ledger { IsLedgerOf parts K.name K.parts }
    requires loggers { loggers_of parts ≡ 1 }
    requires empty { D.is_modelled → D.seen disk ≡ [] }
{
    let mut stage = Stage::<K, D>::open(alloc, parts, disk)?;
    for payments in batches {
        append_payments(rt, alloc, &mut stage, payments)?;
    }
    Ok(where_stands(&stage))
}

/// A new file on this disk, to which batches of these Payments are appended, from epoch 1 on.
pub fn filled<D: Disk + Drop, R: Wait>(
    rt: &R,
    alloc: Global,
    disk: D,
    batches: &[&[Paid]],
) -> Result<Standing, Refusal>
    requires { D.is_modelled → D.seen disk ≡ [] }
{
    let parts = small(rt, alloc)?;
    fill::<Brand, D, R>(rt, alloc, parts, disk, batches)
}
