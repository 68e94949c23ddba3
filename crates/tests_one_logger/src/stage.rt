//! The engine, and its file.
ghost use Rattle.std.specs.Prelude.{◌≡◌, ◌<◌, [], IfOk};
ghost use Rattle.tables.specs.Inputs.{IsInput};
ghost use Rattle.book.specs.Parts.{IsFresh, IsOpenedAs, IsLedgerOf, loggers_of};

use board::ClockSeat;
use book::{Batch, Done, Engine, Parts, Run, Seat, Seats, TerminalSeats};
use log_disk::Disk;
use log_header::Header;
use logfile::LogFile;
use money::{Cents, Refusal};
use population::Population;
use std::alloc::Global;
use std::marker::Model;
use std::sync::Wait;
use tables::{Input, PaymentInput, Scale, Who};
use transactions::execute;

/// The parts of an engine over the plain population of this scale, for one logger and one terminal.
pub fn parts<R: Wait>(rt: &R, alloc: Global, scale: Scale) -> Result<Parts, Refusal>
    ensures fresh { IfOk result IsFresh }
    ensures loggers { IfOk result (λ parts. loggers_of parts ≡ 1) }
{
    Parts::new(rt, alloc, Population::plain(alloc, scale)?, 1, 1)
}

/// An engine with its clock, its first terminal, and the file of its first logger.
#[derive(Drop)]
pub struct Stage<K: Run, D: Disk + Drop> {
    engine: Engine<K>,
    clock: ClockSeat,
    terminal: Seat<K>,
    file: LogFile<D>,
}

impl<K: Run, D: Disk + Drop> Model for Stage<K, D> {
    ghost use Rattle.std.specs.Prelude.{◌≡◌, ◌<◌};

    ghost Value = { Unit {0} };

    ghost view = { λ s. tt };

    ghost invariant = { λ s. (s.clock.board ≡ K.run.board) × (0 < K.run.board.plan.loggers) };
}

impl<K: Run, D: Disk + Drop> Stage<K, D> {
    /// An engine in epoch 1 in which nothing has committed, and a new file on an empty disk. Refuses as
    /// `LogFile::create` does.
    pub fn open(alloc: Global, parts: Parts, disk: D) -> Result<Stage<K, D>, Refusal>
        requires run { IsOpenedAs parts K.run }
        requires ledger { IsLedgerOf parts K.name K.parts }
        requires loggers { loggers_of parts ≡ 1 }
        requires empty { D.is_modelled → D.seen disk ≡ [] }
    {
        let (engine, clock, terminal) = opened::<K>(parts)?;
        let header = Header::new(engine.population().scale(), 0, 0, 1);
        Ok(Stage {
            engine,
            clock,
            terminal,
            file: LogFile::create(alloc, disk, header)?,
        })
    }

    /// An engine that opens with these parts, and its first logger's file.
    pub fn over(parts: Parts, file: LogFile<D>) -> Result<Stage<K, D>, Refusal>
        requires run { IsOpenedAs parts K.run }
        requires ledger { IsLedgerOf parts K.name K.parts }
    {
        let (engine, clock, terminal) = opened::<K>(parts)?;
        Ok(Stage {
            engine,
            clock,
            terminal,
            file,
        })
    }

    /// Advances the epoch.
    pub fn advance(&mut self) -> Result<u64, Refusal> {
        self.engine.board().advance(&mut self.clock)
    }

    /// A Payment of so many cents by a customer of district 1 to that district, with date 1.
    pub fn pay<R: Wait>(
        &mut self,
        rt: &R,
        alloc: Global,
        customer: u32,
        cents: i64,
    ) -> Result<Done, Refusal> {
        let input = payment_of(&self.engine, customer, cents)?;
        commit(rt, alloc, &self.engine, &mut self.terminal, &input)
    }

    /// Takes what has committed for the first logger since the last take.
    pub fn take<R: Wait>(&self, rt: &R) -> Batch {
        taken(rt, &self.engine, 0)
    }

    /// The same for any logger.
    pub fn take_of<R: Wait>(&self, rt: &R, logger: u16) -> Batch
        requires { logger < K.run.board.plan.loggers }
    {
        taken(rt, &self.engine, logger)
    }

    /// Appends a batch to the first logger's file. Refuses as `append_to`.
    pub fn append(&mut self, batch: &Batch) -> Result<(), Refusal> {
        append_to(&mut self.file, batch)
    }

    /// The first logger's file.
    pub fn file(&self) -> &LogFile<D> {
        &self.file
    }
}

/// What has committed for a logger since the last take.
fn taken<K: Run, R: Wait>(rt: &R, engine: &Engine<K>, logger: u16) -> Batch
    requires { logger < K.run.board.plan.loggers }
{
    engine.lock(rt).take(engine.board(), logger)
}

/// Appends a batch to a logger's file. Refuses as `LogFile::append` does, and by `BadInput` a batch that doesn't begin
/// where the file ends.
pub fn append_to<D: Disk>(file: &mut LogFile<D>, batch: &Batch) -> Result<(), Refusal> {
    if !file.is_continued_by(batch) {
        return Err(Refusal::BadInput);
    }
    file.append(batch)
}

/// The engine that opens with these parts, its clock and its first terminal.
fn opened<K: Run>(parts: Parts) -> Result<(Engine<K>, ClockSeat, Seat<K>), Refusal>
    requires run { IsOpenedAs parts K.run }
    requires ledger { IsLedgerOf parts K.name K.parts }
    ensures clock { IfOk result (λ x. x.1.board ≡ K.run.board) }
    ensures loggers { 0 < K.run.board.plan.loggers }
{
    let (engine, seats) = Engine::<K>::open(parts);
    let Seats {
        clock,
        loggers: _,
        terminals,
    } = seats;
    Ok((engine, clock, first_of(terminals)?))
}

/// The seat of the first terminal.
fn first_of<K: Run>(terminals: TerminalSeats<K>) -> Result<Seat<K>, Refusal> {
    let mut terminals = terminals;
    terminals.next().ok_or(Refusal::OutOfMemory)
}

fn payment_of<K: Run>(engine: &Engine<K>, customer: u32, cents: i64) -> Result<Input, Refusal>
    ensures { IfOk result (λ input. IsInput K.run.first.scale input) }
{
    let payment = PaymentInput {
        date: 1,
        warehouse: 1,
        district: 1,
        customer_warehouse: 1,
        customer_district: 1,
        who: Who::Id(customer),
        amount: Cents::new(cents),
    };
    Input::payment(&engine.population().scale(), payment)
}

/// Executes an input at a terminal's seat, and commits it. Refuses as `execute` and `Book::commit` do.
pub fn commit<K: Run, R: Wait>(
    rt: &R,
    alloc: Global,
    engine: &Engine<K>,
    terminal: &mut Seat<K>,
    input: &Input,
) -> Result<Done, Refusal>
    requires input { IsInput K.run.first.scale input.now }
{
    let (board, cells, population) = (engine.board(), engine.cells(), engine.population());
    let work = execute(rt, alloc, cells, &mut terminal.reader, population, input)?;
    engine.lock(rt).commit(
        rt,
        board,
        cells,
        &mut terminal.reader,
        &mut terminal.share,
        work,
    )
}
