//! The seats of a board. A call takes the seat of the role that may make it, and notes its steps there. A seat has no
//! bytes but a logger's number.

use crate::rule::View;
use atomic_table::Seat;
use std::marker::Model;

/// What steps on the words, and knows what its steps have told it.
pub(crate) type WordSeat = Seat<(), View>;

/// The seat with which commits are counted and floors are set, of which there is one.
#[derive(Drop)]
pub struct BookSeat {
    pub(crate) seat: WordSeat,
}

impl Model for BookSeat {
    ghost use Rattle.std.specs.Prelude.{◌≡◌};
    ghost use Rattle.board.specs.declared.rule.Role.TheVariants.{Book};
    ghost use Rattle.board.specs.Seats.{SeatView, seat_view};

    ghost Value = { SeatView };

    ghost view = { λ s. seat_view s.seat.table_id s.seat.me.0 };

    ghost invariant = { λ s. s.seat.me.0.role ≡ Book };
}

/// The seat with which E is advanced, of which there is one.
#[derive(Drop)]
pub struct ClockSeat {
    pub(crate) seat: WordSeat,
}

impl Model for ClockSeat {
    ghost use Rattle.std.specs.Prelude.{◌≡◌};
    ghost use Rattle.board.specs.declared.rule.Role.TheVariants.{Clock};
    ghost use Rattle.board.specs.Seats.{SeatView, seat_view};

    ghost Value = { SeatView };

    ghost view = { λ s. seat_view s.seat.table_id s.seat.me.0 };

    ghost invariant = { λ s. s.seat.me.0.role ≡ Clock };
}

/// The seat with which a logger sets its local mark and raises D, of which there is one a logger.
#[derive(Drop)]
pub struct LoggerSeat {
    pub(crate) seat: WordSeat,
    pub(crate) number: u64,
}

impl Model for LoggerSeat {
    ghost use Rattle.std.specs.Prelude.{◌≡◌, ◌<◌};
    ghost use Rattle.board.specs.declared.rule.Role.TheVariants.{Logger};
    ghost use Rattle.board.specs.Seats.{SeatView, seat_view};

    ghost Value = { SeatView };

    ghost view = { λ s. seat_view s.seat.table_id s.seat.me.0 };

    ghost invariant = { λ s. (s.seat.me.0.role ≡ Logger s.number) × (s.number < s.seat.me.0.plan.loggers) };
}

/// The seat with which a terminal looks at D. There are any number of them.
#[derive(Drop)]
pub struct TerminalSeat {
    pub(crate) seat: WordSeat,
}

impl Model for TerminalSeat {
    ghost use Rattle.std.specs.Prelude.{◌≡◌, []};
    ghost use Rattle.board.specs.declared.rule.Role.TheVariants.{Terminal};
    ghost use Rattle.board.specs.Seats.{SeatView, seat_view};

    ghost Value = { SeatView };

    ghost view = { λ s. seat_view s.seat.table_id s.seat.me.0 };

    ghost invariant = { λ s. (s.seat.me.0.role ≡ Terminal) × (s.seat.me.1 ≡ []) };
}
