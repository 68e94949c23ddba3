//! The recovery of two log files on disks in memory: five Payments of 1.00, of which two count.

use crate::orders::small;
use log_disk::{Disk, Memory};
use money::{Cents, Refusal};
use recover::{Recovered, recover, recover_with};
use recover_progress::Progress;
use std::alloc::Global;
use std::io::Write;
use std::thread::Threads;
use tables::CustomerKey;
use tests_log_vectors::file_of_payments;

/// A disk with the file of this logger: one body of this mark, with the Payments from one commit number to another.
fn disk_of(alloc: Global, logger: u8, mark: u64, commits: (u8, u8)) -> Result<Memory, Refusal> {
    let mut disk = Memory::new(alloc);
    let file = file_of_payments(alloc, logger, mark, commits)?;
    disk.write_at(0, &file)?;
    Ok(disk)
}

fn disks(alloc: Global) -> Result<Vec<Memory>, Refusal> {
    let mut disks = Vec::new(alloc);
    disks.push(disk_of(alloc, 0, 5, (1, 1))?)?;
    disks.push(disk_of(alloc, 1, 7, (2, 5))?)?;
    Ok(disks)
}

/// The balance of a customer of district 1.
fn balance_of(recovered: &Recovered, customer: u32) -> Cents {
    let key = CustomerKey {
        warehouse: 1,
        district: 1,
        customer,
    };
    recovered
        .tables
        .customers
        .get(&key)
        .map_or(Cents::new(0), |row| row.balance)
}

/// W_YTD of warehouse 1.
fn year_to_date_of(recovered: &Recovered) -> Cents {
    recovered
        .tables
        .warehouses
        .get(&1)
        .map_or(Cents::new(0), |row| row.year_to_date)
}

/// Recovers both, and tells the durable epoch, how many commits count, W_YTD, and the balances of customers 2 and 3.
pub(crate) fn recover_both(alloc: Global, out: &mut Vec<u8>) -> Result<(), Refusal> {
    let population = small(alloc)?;
    let mut disks = disks(alloc)?;
    let recovered = recover(
        alloc,
        &population,
        &mut disks,
        &Progress::of(Vec::new(alloc)),
    )?;
    tell(alloc, &recovered, out)
}

/// The same in two threads, each of which reads one.
pub(crate) fn recover_in_threads<R: Threads + Sync>(
    rt: &R,
    alloc: Global,
    out: &mut Vec<u8>,
) -> Result<(), Refusal> {
    let population = small(alloc)?;
    let mut disks = disks(alloc)?;
    let progress = Progress::of(Vec::new(alloc));
    let recovered = match recover_with(rt, alloc, &population, &mut disks, 2, &progress) {
        Ok(recovered) => recovered,
        Err(refusal) => return Err(refusal),
    };
    tell(alloc, &recovered, out)
}

fn tell(alloc: Global, recovered: &Recovered, out: &mut Vec<u8>) -> Result<(), Refusal> {
    let (durable, commits) = (recovered.durable, recovered.commits);
    let paid = year_to_date_of(recovered);
    let (second, third) = (balance_of(recovered, 2), balance_of(recovered, 3));
    let text = format!(in alloc;
        "durable {durable}\ncommits {commits}\nytd {paid}\nbalances {second} {third}\n"
    )?;
    out.extend_from_slice(text.as_bytes())?;
    Ok(())
}
