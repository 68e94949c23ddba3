//! What comes of the first inputs of decks: of seed 2 a New-Order, of seed 4 two Payments, and of seed 20 a New-Order
//! with item 21, which isn't there, as the definition of decks has it (`tests/draws.py`).

use crate::stage::{Seen, parts, two_inputs};
use money::Refusal;
use std::marker::Brand;
use std::test::Fail;
use terminals::Calls;

/// So many tries, each of which came to its commit, and so many commits.
fn calls(tries: u64, committed: u64) -> Calls {
    Calls {
        executes: tries,
        commits: tries,
        committed,
    }
}

#[test]
fn an_order_number_above_the_cap_is_refused(rt: HostRuntime) -> Result<(), Fail> {
    let parts = parts(&rt, rt.alloc(), 10, 1_000)?;
    let (first, _) = two_inputs::<Brand, _>(&rt, rt.alloc(), parts, 2, 0)?;
    assert_eq!(rt; first.outcome, Err(Refusal::OrdersFull));
    assert_eq!(rt; (first.calls.executes, first.calls.commits), (1, 0));
    Ok(())
}

#[test]
fn a_commit_above_the_cap_is_refused(rt: HostRuntime) -> Result<(), Fail> {
    let parts = parts(&rt, rt.alloc(), 30, 1)?;
    let (first, second) = two_inputs::<Brand, _>(&rt, rt.alloc(), parts, 4, 0)?;
    let committed = Seen {
        outcome: Ok(1),
        calls: calls(1, 1),
    };
    let refused = Seen {
        outcome: Err(Refusal::CommitsFull),
        calls: calls(2, 1),
    };
    assert_eq!(rt; (first, second), (committed, refused));
    Ok(())
}

#[test]
fn an_item_that_is_not_there_is_named(rt: HostRuntime) -> Result<(), Fail> {
    let parts = parts(&rt, rt.alloc(), 30, 1_000)?;
    let (first, _) = two_inputs::<Brand, _>(&rt, rt.alloc(), parts, 20, 0)?;
    assert_eq!(rt; first.outcome, Err(Refusal::ItemNotValid { item: 21 }));
    Ok(())
}

#[test]
fn a_conflict_that_ends_is_tried_again(rt: HostRuntime) -> Result<(), Fail> {
    let parts = parts(&rt, rt.alloc(), 30, 1_000)?;
    let (first, _) = two_inputs::<Brand, _>(&rt, rt.alloc(), parts, 4, 1)?;
    let second_try = Seen {
        outcome: Ok(2),
        calls: calls(2, 1),
    };
    assert_eq!(rt; first, second_try);
    Ok(())
}

#[test]
fn a_terminal_gives_up_at_its_64th_conflict(rt: HostRuntime) -> Result<(), Fail> {
    let parts = parts(&rt, rt.alloc(), 30, 1_000)?;
    let (first, second) = two_inputs::<Brand, _>(&rt, rt.alloc(), parts, 4, 64)?;
    let gave_up = Seen {
        outcome: Err(Refusal::GaveUp),
        calls: calls(64, 0),
    };
    let committed = Seen {
        outcome: Ok(65),
        calls: calls(65, 1),
    };
    assert_eq!(rt; (first, second), (gave_up, committed));
    Ok(())
}
