//! Two Payments to one district, both executed before either commits, by threads that take no lock.
ghost use Rattle.std.specs.Prelude.{◌≡◌, length};
ghost use Rattle.book.specs.Parts.{IsOpenedAs, IsLedgerOf, cells_of};

use crate::engine::{Committed, Executed, both_of, commit_executed, is_good, parts, pay};
use crate::payments::{history_row, payment_told};
use book::{Engine, Parts, Run, Seat};
use cells::Reader;
use money::Refusal;
use std::alloc::Global;
use std::marker::Brand;
use std::sync::Wait;
use std::sync::atomic::{AtomicU64, Ordering};
use std::test::Fail;
use std::thread::{Threads, join, sleep};
use std::time::{Clock, Duration};
use tables::History;

/// How often a thread looks for another before it gives up. It sleeps a millisecond between, so that the others run
/// even on a busy machine.
const TURNS: u32 = 20_000;

/// Waits until that many threads have come, and tells whether they have.
fn wait_for<R: Clock>(rt: &R, come: &AtomicU64, wanted: u64) -> bool {
    for _ in 0..TURNS {
        if come.load(Ordering::Acquire) >= wanted {
            return true;
        }
        sleep(rt, Duration::from_millis(1));
    }
    false
}

/// Holds the book until both Payments are executed, and tells whether they were.
fn hold<K: Run, R: Wait + Clock>(
    rt: &R,
    engine: &Engine<K>,
    held: &AtomicU64,
    executed: &AtomicU64,
) -> bool {
    let book = engine.lock(rt);
    held.store(1, Ordering::Release);
    let is_executed = wait_for(rt, executed, 2);
    drop(book);
    is_executed
}

/// Executes a Payment while another thread holds the book.
fn pay_meanwhile<K: Run, R: Wait + Clock>(
    rt: &R,
    alloc: Global,
    engine: &Engine<K>,
    seat: Seat<K>,
    customer: u32,
    held: &AtomicU64,
    executed: &AtomicU64,
) -> Option<Executed<K>> {
    if !wait_for(rt, held, 1) {
        return None;
    }
    let paid = pay(rt, alloc, engine, seat, customer).ok()?;
    executed.fetch_add(1, Ordering::AcqRel);
    Some(paid)
}

/// Executes a Payment at each of two terminals, in threads of their own.
fn pay_both<K: Run + Send + Sync, R: Threads + Wait + Clock + Sync>(
    rt: &R,
    alloc: Global,
    engine: &Engine<K>,
    left: Seat<K>,
    right: Seat<K>,
    held: &AtomicU64,
    executed: &AtomicU64,
) -> (Option<Executed<K>>, Option<Executed<K>>) {
    let third = move || -> Option<Executed<K>> {
        pay_meanwhile(rt, alloc, engine, left, 3, held, executed)
    };
    let fourth = move || -> Option<Executed<K>> {
        pay_meanwhile(rt, alloc, engine, right, 4, held, executed)
    };
    join(rt, third, fourth)
}

/// Has both Payments executed while a third thread holds the book.
fn pay_both_meanwhile<K: Run + Send + Sync, R: Threads + Wait + Clock + Sync>(
    rt: &R,
    alloc: Global,
    engine: &Engine<K>,
    left: Seat<K>,
    right: Seat<K>,
) -> Option<(Executed<K>, Executed<K>)> {
    let (held, executed) = (AtomicU64::new(0), AtomicU64::new(0));
    let (held, executed) = (&held, &executed);
    let payers = move || -> (Option<Executed<K>>, Option<Executed<K>>) {
        pay_both(rt, alloc, engine, left, right, held, executed)
    };
    let (is_executed, paid) = join(rt, move || hold(rt, engine, held, executed), payers);
    if !is_executed {
        return None;
    }
    paid.0.zip(paid.1)
}

/// How many have committed, W_YTD in the committed tables, and the TID words and first words of the warehouse, the
/// district and customers 3 and 4.
#[derive(Clone, Copy, Debug, PartialEq, Eq)]
struct Standing {
    commits: usize,
    year_to_date: Option<u64>,
    tids: [u64; 4],
    words: [u64; 4],
}

fn standing_of<K: Run, R: Wait>(rt: &R, engine: &Engine<K>, reader: &mut Reader) -> Standing
    requires reader { reader.old.cells ≡ K.run.cells }
    requires count { length K.run.cells.narrow ≡ 1085 }
    ensures reader { reader.new.cells ≡ K.run.cells }
{
    let cells = engine.cells();
    let warehouse = cells.read(rt, reader, 0);
    let district = cells.read(rt, reader, 1);
    let third = cells.read(rt, reader, 5);
    let fourth = cells.read(rt, reader, 6);
    let mut book = engine.lock(rt);
    Standing {
        commits: book.history().len(),
        year_to_date: book.record(cells, 0).map(|words| words[0]),
        tids: [
            warehouse.word.word(),
            district.word.word(),
            third.word.word(),
            fourth.word.word(),
        ],
        words: [
            warehouse.payload[0],
            district.payload[0],
            third.payload[0],
            fourth.payload[0],
        ],
    }
}

/// What the book says at the end: whether a copy of the tables has all HISTORY rows, whether the conditions hold, and
/// of the first entry its terminal, how many records it wrote, and what it added to HISTORY.
#[derive(Clone, Copy, Debug, PartialEq, Eq)]
struct Account {
    payments: usize,
    is_good: bool,
    terminal: Option<u16>,
    writes: Option<usize>,
    added: Option<History>,
}

/// How many HISTORY rows a copy of the committed tables has.
fn payments_of<K: Run, R: Wait>(rt: &R, engine: &Engine<K>) -> Result<usize, Refusal> {
    Ok(engine.lock(rt).tables(engine.cells())?.history.len())
}

fn account_of<K: Run, R: Wait>(
    rt: &R,
    alloc: Global,
    engine: &Engine<K>,
) -> Result<Account, Refusal> {
    let payments = payments_of(rt, engine)?;
    let is_good = is_good(rt, alloc, engine)?;
    let book = engine.lock(rt);
    let first = book.history().first();
    Ok(Account {
        payments,
        is_good,
        terminal: first.map(|entry| entry.terminal),
        writes: first.map(|entry| entry.writes.parts().0.len()),
        added: first.and_then(|entry| entry.writes.history_row()),
    })
}

/// What came of the commits, and the states after each of the first two and at the end.
#[derive(Clone, Copy, Debug, PartialEq, Eq)]
struct Commits {
    first: Result<Committed, Refusal>,
    second: Result<Committed, Refusal>,
    again: Result<Committed, Refusal>,
    states: [Standing; 3],
}

/// Commits both Payments, of which the second is a conflict, and then executes that one again.
fn commit_both<K: Run, R: Wait>(
    rt: &R,
    alloc: Global,
    engine: &Engine<K>,
    third: Executed<K>,
    fourth: Executed<K>,
) -> Commits
    requires count { length K.run.cells.narrow ≡ 1085 }
{
    let (mut left, _, first) = commit_executed(rt, engine, third);
    let before = standing_of(rt, engine, &mut left.reader);
    let (right, _, second) = commit_executed(rt, engine, fourth);
    let after = standing_of(rt, engine, &mut left.reader);
    let again = pay_again(rt, alloc, engine, right);
    let end = standing_of(rt, engine, &mut left.reader);
    Commits {
        first,
        second,
        again,
        states: [before, after, end],
    }
}

/// Executes the Payment of customer 4 and commits it.
fn pay_again<K: Run, R: Wait>(
    rt: &R,
    alloc: Global,
    engine: &Engine<K>,
    seat: Seat<K>,
) -> Result<Committed, Refusal> {
    let executed = pay(rt, alloc, engine, seat, 4)?;
    commit_executed(rt, engine, executed).2
}

/// What came of the Payments, the terminals that made them, the state before them, and the book after them.
#[derive(Clone, Copy, Debug, PartialEq, Eq)]
struct Outcome {
    terminals: [u16; 2],
    opened: Standing,
    commits: Commits,
    account: Account,
}

fn outcome_of<K: Run + Send + Sync, R: Threads + Wait + Clock + Sync>(
    rt: &R,
    alloc: Global,
    engine: &Engine<K>,
    left: Seat<K>,
    right: Seat<K>,
) -> Result<Outcome, Fail>
    requires count { length K.run.cells.narrow ≡ 1085 }
{
    let mut left = left;
    let terminals = [left.share.terminal(), right.share.terminal()];
    let opened = standing_of(rt, engine, &mut left.reader);
    let paid = pay_both_meanwhile(rt, alloc, engine, left, right).ok_or("hold")?;
    let commits = commit_both(rt, alloc, engine, paid.0, paid.1);
    let account = account_of(rt, alloc, engine)?;
    Ok(Outcome {
        terminals,
        opened,
        commits,
        account,
    })
}

fn pay_twice<K: Run + Send + Sync, R: Threads + Wait + Clock + Sync>(
    rt: &R,
    alloc: Global,
    parts: Parts,
) -> Result<Outcome, Fail>
    requires run { IsOpenedAs parts K.run }
    requires ledger { IsLedgerOf parts K.name K.parts }
    requires cells { length (cells_of parts).narrow ≡ 1085 }
{
    let (engine, mut seats) = Engine::<K>::open(parts);
    let (left, right) = both_of(&mut seats.terminals).ok_or("seats")?;
    outcome_of(rt, alloc, &engine, left, right)
}

#[test]
fn the_second_of_two_conflicts(rt: HostRuntime) -> Result<(), Fail> {
    let parts = parts(&rt, rt.alloc())?;
    let Outcome {
        terminals,
        opened,
        commits,
        account,
    } = pay_twice::<Brand, _>(&rt, rt.alloc(), parts)?;
    assert_eq!(rt; terminals, [0, 1]);
    assert_eq!(rt;
        commits.first,
        Ok((1, 4_294_967_296, payment_told(3, -1_100)))
    );
    assert_eq!(rt; commits.second, Err(Refusal::Conflict));
    assert_eq!(rt;
        commits.again,
        Ok((2, 4_294_967_304, payment_told(4, -1_100)))
    );
    let [before, after, end] = commits.states;
    assert_eq!(rt; opened.commits, 0);
    assert_eq!(rt; opened.tids, [2; 4]);
    assert_eq!(rt; before.commits, 1);
    assert_eq!(rt; after, before);
    assert_eq!(rt; opened.year_to_date, Some(20_000));
    assert_eq!(rt; before.year_to_date, Some(20_100));
    assert_eq!(rt; end.year_to_date, Some(20_200));
    assert_eq!(rt; end.commits, 2);
    let (one, two) = (4_294_967_298, 4_294_967_306);
    assert_eq!(rt; end.tids, [two, two, one, two]);
    // A C_BALANCE of -11.00, in the 64 bits of a word.
    let balance = u64::MAX - 1_099;
    assert_eq!(rt; end.words, [20_200, 10_200, balance, balance]);
    let expected = Account {
        payments: 22,
        is_good: true,
        terminal: Some(0),
        writes: Some(3),
        added: Some(history_row(3, 100)),
    };
    assert_eq!(rt; account, expected);
    Ok(())
}
