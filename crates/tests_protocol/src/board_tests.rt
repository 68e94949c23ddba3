//! A board with two loggers: when a commit's epoch is durable.
ghost use Rattle.std.specs.Prelude.{◌≡◌, ◌<◌, [], ◌∷◌, length, IfSome};
ghost use Rattle.board.specs.declared.rule.Role.TheVariants.{Terminal};
ghost use Rattle.board.specs.Steps.{counted_epochs, stored_mark};
ghost use Rattle.board.specs.Seats.{new_seat};
ghost use Rattle.board.specs.Opening.{logger_seats};

use board::{Board, BoardSeats, BookSeat, ClockSeat, Keeper, LoggerSeat, TerminalSeat};
use money::Refusal;
use std::alloc::Global;
use std::test::Fail;

/// A file that keeps what it says.
#[derive(Drop)]
struct File {
    mark: u64,
}

impl Keeper for File {
    ghost mark = { λ f. f.mark };

    fn kept(&self) -> u64 {
        self.mark
    }
}

/// A logger, and the local mark that it has set.
#[derive(Drop)]
struct Logger {
    seat: LoggerSeat,
    mark: u64,
    ghost set: { stored_mark seat.board.plan.base seat.steps ≡ mark },
}

impl Logger {
    /// Sets the local mark, unless that would lower it, and publishes.
    fn turn(&mut self, board: &Board, mark: u64) -> Option<u64>
        requires { self.old.seat.board ≡ board.now }
        ensures { self.new.seat.board ≡ self.old.seat.board }
    {
        if mark < self.mark {
            return None;
        }
        board.set_local(&mut self.seat, &File { mark });
        self.mark = mark;
        Some(board.publish(&mut self.seat))
    }
}

/// A board with its seats.
#[derive(Drop)]
struct Stage {
    board: Board,
    book: BookSeat,
    commits: u64,
    clock: ClockSeat,
    first: Logger,
    second: Logger,
    terminal: TerminalSeat,
    ghost counted: { length (counted_epochs book.steps) ≡ commits },
    ghost own: { (book.board ≡ board) × (clock.board ≡ board) × (terminal.board ≡ board) },
    ghost loggers: { (first.seat.board ≡ board) × (second.seat.board ≡ board) × (board.plan.loggers ≡ 2) },
}

/// What each logger's publication answered, and D as a terminal finds it then.
#[derive(Clone, Copy, Debug, PartialEq, Eq)]
struct Turns {
    first: Option<u64>,
    second: Option<u64>,
    durable: u64,
}

impl Stage {
    /// The mark of a batch that a logger takes now: E - 1, with E as its floor.
    fn take(&mut self, logger: u64) -> u64
        requires { logger < 2 }
    {
        self.board.floor(&mut self.book, logger).saturating_sub(1)
    }

    /// Counts a commit, and answers its epoch.
    fn commit(&mut self) -> Option<u64> {
        if self.commits == u64::MAX {
            return None;
        }
        let epoch = self.board.epoch(&mut self.book);
        self.board.commit_step(&mut self.book, epoch);
        self.commits += 1;
        Some(epoch)
    }

    /// Each logger takes, keeps what it took, and publishes.
    fn turns(&mut self) -> Turns {
        let mark = self.take(0);
        let first = self.first.turn(&self.board, mark);
        let mark = self.take(1);
        let second = self.second.turn(&self.board, mark);
        let durable = self.board.durable(&mut self.terminal);
        Turns {
            first,
            second,
            durable,
        }
    }

    fn advance(&mut self) -> Result<u64, Refusal> {
        self.board.advance(&mut self.clock)
    }

    /// The last D, once all have ended.
    fn end(self) -> u64 {
        let Stage { board, first, .. } = self;
        let Logger { seat, .. } = first;
        board.close(seat)
    }
}

/// Both loggers, of which none has set a local mark.
fn both(board: &Board, mut loggers: Vec<LoggerSeat>) -> Option<(Logger, Logger)>
    requires seats { loggers.items ≡ logger_seats board.now 2 }
    requires zero { board.now.plan.base ≡ 0 }
    ensures { IfSome result (λ pair. (pair.0.seat.board ≡ board.now) × (pair.1.seat.board ≡ board.now)) }
{
    let second = loggers.pop()?;
    let first = loggers.pop()?;
    Some((
        Logger {
            seat: first,
            mark: 0,
        },
        Logger {
            seat: second,
            mark: 0,
        },
    ))
}

/// The one terminal's seat.
fn only(board: &Board, mut terminals: Vec<TerminalSeat>) -> Option<TerminalSeat>
    requires { terminals.items ≡ new_seat board.now Terminal ∷ [] }
    ensures { IfSome result (λ seat. seat.board ≡ board.now) }
{
    terminals.pop()
}

/// A board on which E is 1.
fn open(alloc: Global) -> Result<Stage, Fail> {
    let (board, seats) = Board::new(alloc, 2, 1)?;
    let BoardSeats {
        book,
        clock,
        loggers,
        terminals,
    } = seats;
    let (first, second) = both(&board, loggers).ok_or("loggers")?;
    let terminal = only(&board, terminals).ok_or("terminal")?;
    Ok(Stage {
        board,
        book,
        commits: 0,
        clock,
        first,
        second,
        terminal,
    })
}

/// What is seen as both loggers take their turns in epoch 3, in which a commit is counted, and in epoch 4.
#[derive(Clone, Copy, Debug, PartialEq, Eq)]
struct Seen {
    commit: Option<u64>,
    third: Turns,
    fourth: Turns,
}

fn run(stage: &mut Stage) -> Result<Seen, Refusal> {
    stage.advance()?;
    stage.advance()?;
    let commit = stage.commit();
    let third = stage.turns();
    stage.advance()?;
    let fourth = stage.turns();
    Ok(Seen {
        commit,
        third,
        fourth,
    })
}

#[test]
fn an_epoch_is_durable_once_every_logger_has_kept_it(rt: HostRuntime) -> Result<(), Fail> {
    let mut stage = open(rt.alloc())?;
    let seen = run(&mut stage)?;
    assert_eq!(rt; seen.commit, Some(3));
    assert_eq!(rt;
        (seen.third.first, seen.third.second, seen.third.durable),
        (Some(0), Some(2), 2)
    );
    assert_eq!(rt;
        (seen.fourth.first, seen.fourth.second, seen.fourth.durable),
        (Some(2), Some(3), 3)
    );
    assert_eq!(rt; stage.end(), 3);
    Ok(())
}
