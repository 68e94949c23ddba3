//! Each call of annals, and of what a board's seats tell each other, once.
ghost use Rattle.std.specs.Prelude.{◌≡◌, [], ◌∷◌, IfSome};
ghost use Rattle.board.specs.declared.rule.Role.TheVariants.{Terminal};
ghost use Rattle.board.specs.Seats.{new_seat};
ghost use Rattle.board.specs.Opening.{logger_seats};

use annals::{Annals, Dated};
use board::{Board, BoardSeats, LoggerSeat, TerminalSeat};
use std::alloc::Global;
use std::test::Fail;

/// What stands in the annals.
#[derive(Drop)]
struct Day {
    epoch: u64,
}

impl Dated for Day {
    ghost date = { λ day. day.epoch };
}

#[test]
fn a_claim_stays_true(rt: HostRuntime) -> Result<(), Fail> {
    let (annals, mut keeper) = Annals::new(rt.alloc(), 4)?;
    let mut begun = annals.begin();
    annals.add(&mut keeper, 4, &Day { epoch: 5 });
    let mut known = annals.copy(&mut keeper);
    annals.mark(&mut keeper, 6);
    let cited = annals.cite(&mut keeper);
    annals.gather(&mut known, cited);
    let mut same = annals.share(&mut known);
    annals.compare(&mut begun, &mut same);
    annals.hear(&mut keeper, &mut known);
    Ok(())
}

/// The one logger's seat.
fn only(board: &Board, mut loggers: Vec<LoggerSeat>) -> Option<LoggerSeat>
    requires { loggers.items ≡ logger_seats board.now 1 }
    ensures { IfSome result (λ seat. seat.board ≡ board.now) }
{
    loggers.pop()
}

/// The two terminals' seats.
fn two(board: &Board, mut terminals: Vec<TerminalSeat>) -> Option<(TerminalSeat, TerminalSeat)>
    requires { terminals.items ≡ new_seat board.now Terminal ∷ new_seat board.now Terminal ∷ [] }
    ensures { IfSome result (λ pair. (pair.0.board ≡ board.now) × (pair.1.board ≡ board.now)) }
{
    let second = terminals.pop()?;
    let first = terminals.pop()?;
    Some((first, second))
}

/// D of a board behind epoch 7, as its logger finds it that knows what both terminals have seen.
fn durable_behind(alloc: Global) -> Result<u64, Fail> {
    let (board, seats) = Board::behind(alloc, 7, 1, 2)?;
    let BoardSeats {
        book: _,
        clock: _,
        loggers,
        terminals,
    } = seats;
    let mut logger = only(&board, loggers).ok_or("logger")?;
    let (mut first, second) = two(&board, terminals).ok_or("terminals")?;
    board.gather_durable(&mut first, second);
    Ok(board.durable_of(&mut logger, &mut first))
}

#[test]
fn a_logger_finds_what_terminals_have_seen(rt: HostRuntime) -> Result<(), Fail> {
    assert_eq!(rt; durable_behind(rt.alloc())?, 7);
    Ok(())
}
