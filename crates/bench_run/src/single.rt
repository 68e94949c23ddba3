//! The same inputs one after another.

ghost use Rattle.book.specs.Parts.{IsAlone, IsOpenedAs};

use crate::{SEED, population};
use anyhow::bail;
use book::{Engine, Parts, Run};
use book_session::Session;
use money::Refusal;
use std::alloc::Global;
use std::marker::Brand;
use std::rt::Clock;
use std::sync::Wait;
use std::time::Instant;
use terminals_deck::{Deck, Settings};

/// The inputs of so many terminals, so many each.
#[derive(Clone, Copy)]
struct Inputs {
    terminals: u32,
    each: u32,
}

/// Commits the inputs of terminals by one session, and prints what it took.
pub(crate) fn session<R: Wait + Clock + Print + AllocGlobal>(
    rt: &R,
    numbers: &[u32],
) -> anyhow::Result<()> {
    let &[warehouses, terminals, each] = numbers else {
        bail!("session wants three numbers");
    };
    let population = population(rt.alloc(), warehouses)?;
    let parts = Parts::new(rt, rt.alloc(), population, 1, 1)?;
    run::<Brand, R>(rt, rt.alloc(), parts, Inputs { terminals, each })
}

fn run<K: Run, R: Wait + Clock + Print>(
    rt: &R,
    alloc: Global,
    parts: Parts,
    inputs: Inputs,
) -> anyhow::Result<()>
    requires run { IsOpenedAs parts K.run }
    requires alone { IsAlone parts K.name K.parts }
{
    let (engine, mut seats) = Engine::<K>::open(parts);
    let Some(seat) = seats.terminals.next() else {
        unreachable!();
    };
    let mut session = Session::open(rt, alloc, &engine, seat);
    time_all(rt, alloc, &mut session, inputs)
}

/// Commits all inputs, and prints what it took.
fn time_all<K: Run, R: Wait + Clock + Print>(
    rt: &R,
    alloc: Global,
    session: &mut Session<'_, K>,
    inputs: Inputs,
) -> anyhow::Result<()> {
    let start = Instant::now(rt)?;
    for terminal in 0..inputs.terminals {
        commit_deck(rt, alloc, session, terminal, inputs.each)?;
    }
    let micros = start.elapsed(rt)?.as_micros().max(1);
    let commits = session.dones().len();
    println!(rt;
        "commits {commits} a second {}",
        commits as u128 * 1_000_000 / micros
    )?;
    Ok(())
}

/// Commits the inputs of one terminal.
fn commit_deck<K: Run, R: Wait>(
    rt: &R,
    alloc: Global,
    session: &mut Session<'_, K>,
    terminal: u32,
    inputs: u32,
) -> Result<(), Refusal> {
    let mut deck = Deck::new(
        session.population().scale(),
        Settings::usual(),
        SEED,
        terminal,
    );
    for _ in 0..inputs {
        let input = deck.next(alloc)?;
        match session.commit(rt, &input) {
            Ok(()) | Err(Refusal::ItemNotValid { .. }) => {}
            Err(refusal) => return Err(refusal),
        }
    }
    Ok(())
}
