//! What a turn leaves on the disk.
ghost use Rattle.std.specs.Prelude.{◌≡◌, [], IfOk};
ghost use Rattle.book.specs.Parts.{IsOpenedAs, IsLedgerOf, base_of, loggers_of};

use crate::stage::{Stage, logger_on, open, parts};
use book::{Parts, Run};
use log_disk::{Disk, Memory};
use logger::Logger;
use money::Refusal;
use std::alloc::{AllocError, Global};
use std::marker::Brand;
use std::sync::Wait;
use std::test::Fail;
use tests_log_vectors::{FIRST, NOTHING, PAYMENT, payment_with_text};

/// An engine in epoch 1, with its one logger over an empty disk.
pub(crate) fn open_one<K: Run, D: Disk + Drop>(
    alloc: Global,
    parts: Parts,
    disk: D,
) -> Result<(Stage<K>, Logger<D>), Refusal>
    requires run { IsOpenedAs parts K.run }
    requires ledger { IsLedgerOf parts K.name K.parts }
    requires loggers { (loggers_of parts ≡ 1) × (base_of parts ≡ 0) }
    requires empty { D.is_modelled → D.seen disk ≡ [] }
    ensures { IfOk result (λ x. x.1.seat.board ≡ K.run.board) }
{
    let (stage, mut seats) = open::<K>(alloc, parts)?;
    let Some(seat) = seats.pop() else {
        return Err(Refusal::BadInput);
    };
    let logger = logger_on(alloc, stage.engine.population(), disk, seat, (0, 1))?;
    Ok((stage, logger))
}

/// The answer of a turn in epoch 2, for which a customer has paid so many cents in epoch 1, where one has.
fn turn<K: Run, R: Wait, D: Disk + Drop>(
    rt: &R,
    alloc: Global,
    parts: Parts,
    disk: D,
    paid: Option<(u32, i64)>,
) -> Result<u64, Refusal>
    requires run { IsOpenedAs parts K.run }
    requires ledger { IsLedgerOf parts K.name K.parts }
    requires loggers { (loggers_of parts ≡ 1) × (base_of parts ≡ 0) }
    requires empty { D.is_modelled → D.seen disk ≡ [] }
{
    let (mut stage, mut logger) = open_one::<K, D>(alloc, parts, disk)?;
    if let Some((customer, cents)) = paid {
        stage.pay(rt, alloc, customer, cents)?;
    }
    stage.advance()?;
    stage.take_turn(rt, &mut logger)
}

/// A file with this body alone, and a closed gate behind it.
fn file(alloc: Global, body: &[u8]) -> Result<Vec<u8>, AllocError> {
    let mut file = Vec::new(alloc);
    file.extend_from_slice(&FIRST)?;
    file.push(1)?;
    file.extend_from_slice(body)?;
    file.push(0)?;
    Ok(file)
}

#[test]
fn a_turn_without_entries_is_written(rt: HostRuntime) -> Result<(), Fail> {
    let parts = parts(&rt, rt.alloc(), 1)?;
    let mut disk = Memory::new(rt.alloc());
    assert_eq!(rt;
        turn::<Brand, _, _>(&rt, rt.alloc(), parts, &mut disk, None)?,
        1
    );
    assert_eq!(rt; disk.bytes().len(), 66);
    let file = file(rt.alloc(), &NOTHING)?;
    assert!(rt; disk.bytes() == file.as_slice());
    Ok(())
}

#[test]
fn a_payment_is_written(rt: HostRuntime) -> Result<(), Fail> {
    let parts = parts(&rt, rt.alloc(), 1)?;
    let mut disk = Memory::new(rt.alloc());
    assert_eq!(rt;
        turn::<Brand, _, _>(&rt, rt.alloc(), parts, &mut disk, Some((3, 1_234)))?,
        1
    );
    assert_eq!(rt; disk.bytes().len(), 222);
    let file = file(rt.alloc(), &PAYMENT)?;
    assert!(rt; disk.bytes() == file.as_slice());
    Ok(())
}

#[test]
fn a_payment_of_bad_credit_is_written_with_its_text(rt: HostRuntime) -> Result<(), Fail> {
    let parts = parts(&rt, rt.alloc(), 1)?;
    let mut disk = Memory::new(rt.alloc());
    assert_eq!(rt;
        turn::<Brand, _, _>(&rt, rt.alloc(), parts, &mut disk, Some((10, 1_234)))?,
        1
    );
    let file = file(rt.alloc(), &payment_with_text(rt.alloc())?)?;
    assert!(rt; disk.bytes() == file.as_slice());
    Ok(())
}
