//! Two workers whose reads and locks cross, and what may not happen.
ghost use Rattle.std.specs.Prelude.{◌≡◌, ◌<◌, length, IfOk};

use commit::{Event, State, Value};
use customer_data::DATA_WORDS;
use money::{NO_PAYLOAD, Refusal};
use std::alloc::Global;
use std::test::Fail;

/// What is seen of a machine of two records and two workers.
#[derive(Clone, Copy, Debug, PartialEq, Eq)]
struct Seen {
    words: (u64, u64),
    failed: (bool, bool),
    finished: u32,
    epoch: u64,
}

/// Two records and two workers.
fn two_of_each(alloc: Global) -> Result<State, Refusal>
    ensures { IfOk result (λ state. (length state.records ≡ 2) × (length state.workers ≡ 2)) }
{
    State::new(alloc, 2, 2)
}

fn look(state: &State) -> Seen
    requires records { length state.now.records ≡ 2 }
    requires workers { length state.now.workers ≡ 2 }
{
    Seen {
        words: (state.word(0).word(), state.word(1).word()),
        failed: (state.failed(0), state.failed(1)),
        finished: state.finished(),
        epoch: state.epoch(),
    }
}

/// These events, each of which may happen.
fn run(state: &mut State, events: &[Event]) -> Result<(), Refusal>
    ensures records { length state.new.records ≡ length state.old.records }
    ensures workers { length state.new.workers ≡ length state.old.workers }
{
    for event in events {
        state.step(*event)?;
    }
    Ok(())
}

/// Whether each of these events is refused where the state stands, and nothing that is seen changes.
fn all_refused(state: &mut State, events: &[Event]) -> bool
    requires records { length state.old.records ≡ 2 }
    requires workers { length state.old.workers ≡ 2 }
    ensures records { length state.new.records ≡ 2 }
    ensures workers { length state.new.workers ≡ 2 }
{
    let before = look(state);
    for event in events {
        if state.step(*event) != Err(Refusal::BadInput) {
            return false;
        }
    }
    look(state) == before
}

fn begin(worker: u16) -> Event {
    Event::Begin { worker }
}

fn read(worker: u16, record: u32) -> Event {
    Event::Read { worker, record }
}

/// A lock of a record, to write words 0 there.
fn lock(worker: u16, record: u32) -> Event {
    Event::Lock {
        worker,
        record,
        value: Some(Value::narrow(NO_PAYLOAD)),
    }
}

/// A lock of a record, to write a text's words there.
fn lock_for_text(worker: u16, record: u32) -> Event {
    Event::Lock {
        worker,
        record,
        value: Some(Value::wide([1; DATA_WORDS])),
    }
}

fn read_epoch(worker: u16) -> Event {
    Event::ReadEpoch { worker }
}

fn validate(worker: u16, record: u32) -> Event {
    Event::Validate { worker, record }
}

fn choose_tid(worker: u16) -> Event {
    Event::ChooseTid { worker }
}

fn install(worker: u16, record: u32) -> Event {
    Event::Install { worker, record }
}

fn unlock(worker: u16, record: u32) -> Event {
    Event::Unlock { worker, record }
}

/// Each of two workers reads a record and locks the other's, and then the first of them fails.
fn cross(state: &mut State) -> Result<(), Refusal>
    ensures records { length state.new.records ≡ length state.old.records }
    ensures workers { length state.new.workers ≡ length state.old.workers }
{
    let begun = [begin(0), begin(1), read(0, 0), read(1, 1)];
    run(state, &begun)?;
    let entered = [lock(0, 1), lock(1, 0), read_epoch(0), read_epoch(1)];
    run(state, &entered)?;
    run(state, &[validate(0, 0)])
}

#[test]
fn the_second_of_two_that_cross_finishes(rt: HostRuntime) -> Result<(), Fail> {
    let mut state = two_of_each(rt.alloc())?;
    cross(&mut state)?;
    let crossed = look(&state);
    assert_eq!(rt; (crossed.failed, crossed.words), ((true, false), (3, 3)));
    run(
        &mut state,
        &[unlock(0, 1), validate(1, 1), choose_tid(1), install(1, 0)],
    )?;
    let last = look(&state);
    assert_eq!(rt; (last.failed, last.finished), ((true, false), 1));
    assert_eq!(rt; (last.words, last.epoch), ((4_294_967_298, 2), 1));
    Ok(())
}

#[test]
fn a_text_is_installed_as_a_row_is(rt: HostRuntime) -> Result<(), Fail> {
    let mut state = two_of_each(rt.alloc())?;
    let locked = [begin(0), lock(0, 0), lock_for_text(0, 1), read_epoch(0)];
    run(&mut state, &locked)?;
    run(&mut state, &[choose_tid(0), install(0, 1), install(0, 0)])?;
    let last = look(&state);
    assert_eq!(rt; (last.failed, last.finished), ((false, false), 1));
    assert_eq!(rt; last.words, (4_294_967_298, 4_294_967_298));
    Ok(())
}

#[test]
fn two_that_cross_fail(rt: HostRuntime) -> Result<(), Fail> {
    let mut state = two_of_each(rt.alloc())?;
    cross(&mut state)?;
    run(&mut state, &[validate(1, 1), unlock(0, 1), unlock(1, 0)])?;
    let last = look(&state);
    assert_eq!(rt; (last.failed, last.finished), ((true, true), 0));
    assert_eq!(rt; (last.words, last.epoch), ((2, 2), 1));
    Ok(())
}

#[test]
fn what_may_not_happen_at_first(rt: HostRuntime) -> Result<(), Fail> {
    let mut state = two_of_each(rt.alloc())?;
    let idle = [
        begin(2),
        read(0, 0),
        lock(0, 0),
        read_epoch(0),
        validate(0, 0),
    ];
    assert!(rt; all_refused(&mut state, &idle));
    let not_chosen = [choose_tid(0), install(0, 0), unlock(0, 0)];
    assert!(rt; all_refused(&mut state, &not_chosen));
    Ok(())
}

#[test]
fn what_may_not_happen_before_the_epoch_is_read(rt: HostRuntime) -> Result<(), Fail> {
    let mut state = two_of_each(rt.alloc())?;
    run(&mut state, &[begin(0), read(0, 0), lock(0, 1)])?;
    let begun = [
        begin(0),
        read(0, 1),
        read(0, 2),
        lock(0, 0),
        lock(0, 2),
        validate(0, 0),
    ];
    assert!(rt; all_refused(&mut state, &begun));
    run(&mut state, &[begin(1), read(1, 1)])?;
    assert!(rt; all_refused(&mut state, &[lock(1, 1), read(1, 1)]));
    Ok(())
}

#[test]
fn what_may_not_happen_once_it_is_read(rt: HostRuntime) -> Result<(), Fail> {
    let mut state = two_of_each(rt.alloc())?;
    run(
        &mut state,
        &[begin(0), read(0, 0), lock(0, 1), read_epoch(0)],
    )?;
    let entered = [read_epoch(0), lock(0, 1), choose_tid(0), validate(0, 1)];
    assert!(rt; all_refused(&mut state, &entered));
    run(
        &mut state,
        &[Event::AdvanceEpoch, validate(0, 0), choose_tid(0)],
    )?;
    assert!(rt; all_refused(&mut state, &[begin(0), install(0, 0), unlock(0, 1)]));
    assert_eq!(rt; look(&state).epoch, 2);
    Ok(())
}
