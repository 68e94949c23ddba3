//! Making a board, with its seats.
ghost use Rattle.std.specs.Prelude.{◌≡◌, ℕ, ◌+◌, ◌<◌, ◌≤◌, [], ◌∷◌, replicate, IfOk, IfErr};
ghost use Rattle.money.specs.declared.refusal.Refusal.TheVariants.{OutOfMemory};
ghost use Rattle.tables.specs.declared.limits.TheConstants.{MAX_LOGGERS};
ghost use Rattle.board.specs.declared.rule.Role.TheVariants.{Terminal, Book, Clock, Logger};
ghost use Rattle.board.specs.Words.{last_epoch};
ghost use Rattle.board.specs.Plays.{HasSeatAt};
ghost use Rattle.board.specs.Dealing.{IsDealer};
ghost use Rattle.board.specs.Seats.{new_seat, seat_view};
ghost use Rattle.board.specs.Opening.{Opens, logger_seats};

use crate::board::Board;
use crate::rule::{DealsClock, DealsLogger, DealsTerminal, EpochRule, Plan, View};
use crate::seats::{BookSeat, ClockSeat, LoggerSeat, TerminalSeat, WordSeat};
use crate::steps::{COUNT, EPOCH, WORDS, Words};
use atomic_table::Table;
use money::Refusal;
use std::alloc::Global;

/// The seats of a board: the book's, the clock's, each logger's in order of their numbers, and each terminal's.
#[derive(Drop)]
pub struct BoardSeats {
    pub book: BookSeat,
    pub clock: ClockSeat,
    pub loggers: Vec<LoggerSeat>,
    pub terminals: Vec<TerminalSeat>,
}

impl Board {
    /// A board for 1 to 8 loggers, with a seat for each role and for this many terminals. E is 1, and D, the floors and
    /// the local marks are 0. Takes memory for its words and for the seats of loggers and terminals.
    pub fn new(alloc: Global, loggers: u64, terminals: u64) -> Result<(Board, BoardSeats), Refusal>
        requires { (0 < loggers) × (loggers ≤ MAX_LOGGERS) }
        ensures ok { IfOk result (λ made.
            Opens (record { loggers = loggers; base = 0 }) terminals made.0 made.1) }
        ensures memory { IfErr result (λ e. e ≡ OutOfMemory) }
    {
        open(alloc, Plan { loggers, base: 0 }, terminals)
    }

    /// The same behind a base, the last epoch of which anything is known, as for tables that were recovered: E is the
    /// base + 1, and D, the floors and the local marks are the base.
    pub fn behind(
        alloc: Global,
        base: u64,
        loggers: u64,
        terminals: u64,
    ) -> Result<(Board, BoardSeats), Refusal>
        requires loggers { (0 < loggers) × (loggers ≤ MAX_LOGGERS) }
        requires base { base < last_epoch }
        ensures ok { IfOk result (λ made.
            Opens (record { loggers = loggers; base = base }) terminals made.0 made.1) }
        ensures memory { IfErr result (λ e. e ≡ OutOfMemory) }
    {
        open(alloc, Plan { loggers, base }, terminals)
    }
}

// A board that opens as this plan says.
fn open(alloc: Global, plan: Plan, terminals: u64) -> Result<(Board, BoardSeats), Refusal>
    requires loggers { (0 < plan.loggers) × (plan.loggers ≤ MAX_LOGGERS) }
    requires base { plan.base < last_epoch }
    ensures ok { IfOk result (λ made. Opens plan terminals made.0 made.1) }
    ensures memory { IfErr result (λ e. e ≡ OutOfMemory) }
{
    let (table, mut book) = words_of(alloc, plan)?;
    let clock = clock_seat(&table.shared, &mut book);
    let loggers = logger_seats(alloc, &table.shared, &mut book, plan.loggers)?;
    let terminals = terminal_seats(alloc, &table.shared, &mut book, terminals)?;
    let seats = BoardSeats {
        book: BookSeat { seat: book },
        clock,
        loggers,
        terminals,
    };
    Ok((Board { table, plan }, seats))
}

// The words, and the seat out of which all others come.
fn words_of(
    alloc: Global,
    plan: Plan,
) -> Result<(Table<(), View, Plan, EpochRule, Global>, WordSeat), Refusal>
    requires loggers { plan.loggers ≤ MAX_LOGGERS }
    requires base { plan.base < last_epoch }
    ensures ok { IfOk result (λ made. (made.0.shared.table_id.slots ≡ 0) × (made.0.shared.key ≡ plan)
        × HasSeatAt made.0.shared.table_id made.1 × IsDealer plan 2 made.1.me.0) }
    ensures memory { IfErr result (λ e. e ≡ OutOfMemory) }
{
    let base = plan.base;
    let mut words = [base; WORDS];
    words[EPOCH] = base + 1;
    words[COUNT] = 0;
    Ok(Table::of_words(alloc, &words, &plan)?)
}

// The clock's seat.
fn clock_seat(words: &Words, book: &mut WordSeat) -> ClockSeat
    requires own { HasSeatAt words.now.table_id book.old }
    requires dealer { IsDealer book.old.me.0.plan 2 book.old.me.0 }
    ensures own { book.new.table_id ≡ book.old.table_id }
    ensures dealer { IsDealer book.old.me.0.plan 3 book.new.me.0 }
    ensures seat { result ≡ new_seat (seat_view book.old.table_id book.old.me.0).board Clock }
{
    let seat = words.split_seat::<DealsClock>(book);
    ClockSeat { seat }
}

// A logger's seat.
fn logger_seat(words: &Words, book: &mut WordSeat, number: u64) -> LoggerSeat
    requires own { HasSeatAt words.now.table_id book.old }
    requires number { number < book.old.me.0.plan.loggers }
    requires dealer { IsDealer book.old.me.0.plan (number + 3) book.old.me.0 }
    ensures own { book.new.table_id ≡ book.old.table_id }
    ensures dealer { IsDealer book.old.me.0.plan (number + 4) book.new.me.0 }
    ensures seat { result ≡ new_seat (seat_view book.old.table_id book.old.me.0).board (Logger number) }
{
    let seat = words.split_seat::<DealsLogger>(book);
    LoggerSeat { seat, number }
}

// A terminal's seat.
fn terminal_seat(words: &Words, book: &mut WordSeat) -> TerminalSeat
    requires own { HasSeatAt words.now.table_id book.old }
    requires here { book.old.me.0.role ≡ Book }
    ensures own { book.new.table_id ≡ book.old.table_id }
    ensures same { book.new.me.0 ≡ book.old.me.0 }
    ensures seat { result ≡ new_seat (seat_view book.old.table_id book.old.me.0).board Terminal }
{
    let seat = words.split_seat::<DealsTerminal>(book);
    TerminalSeat { seat }
}

// Each logger's seat.
fn logger_seats(
    alloc: Global,
    words: &Words,
    book: &mut WordSeat,
    loggers: u64,
) -> Result<Vec<LoggerSeat>, Refusal>
    requires own { HasSeatAt words.now.table_id book.old }
    requires loggers { book.old.me.0.plan.loggers ≡ loggers }
    requires dealer { IsDealer book.old.me.0.plan 3 book.old.me.0 }
    ensures own { book.new.table_id ≡ book.old.table_id }
    ensures dealer { (dealt : ℕ) × IsDealer book.old.me.0.plan dealt book.new.me.0 }
    ensures ok { IfOk result (λ seats.
        seats.items ≡ logger_seats (seat_view book.old.table_id book.old.me.0).board loggers) }
    ensures memory { IfErr result (λ e. e ≡ OutOfMemory) }
{
    let mut seats = Vec::new(alloc);
    for number in 0..loggers {
        seats.push(logger_seat(words, book, number))?;
    }
    Ok(seats)
}

// Each terminal's seat.
fn terminal_seats(
    alloc: Global,
    words: &Words,
    book: &mut WordSeat,
    terminals: u64,
) -> Result<Vec<TerminalSeat>, Refusal>
    requires own { HasSeatAt words.now.table_id book.old }
    requires here { book.old.me.0.role ≡ Book }
    ensures own { book.new.table_id ≡ book.old.table_id }
    ensures same { book.new.me.0 ≡ book.old.me.0 }
    ensures ok { IfOk result (λ seats.
        seats.items ≡ replicate terminals (new_seat (seat_view book.old.table_id book.old.me.0).board Terminal)) }
    ensures memory { IfErr result (λ e. e ≡ OutOfMemory) }
{
    let mut seats = Vec::new(alloc);
    for _ in 0..terminals {
        seats.push(terminal_seat(words, book))?;
    }
    Ok(seats)
}
