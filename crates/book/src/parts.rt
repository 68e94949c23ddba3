//! What an engine is opened with.
ghost use Rattle.std.specs.Prelude.{◌≡◌, ◌<◌, ◌≤◌, replicate, IfOk, IfErr};
ghost use Rattle.std.specs.Arc.{arc_value};
ghost use Rattle.std.specs.Option.{option_map_or};
ghost use Rattle.money.specs.declared.refusal.Refusal.TheVariants.{OutOfMemory};
ghost use Rattle.tables.specs.Conditions.{IsConsistent};
ghost use Rattle.tables.specs.Database.{Database, database};
ghost use Rattle.tables.specs.WellFormed.{IsWellFormed};
ghost use Rattle.tables.specs.declared.limits.TheConstants.{MAX_LOGGERS, MAX_TERMINALS};
ghost use Rattle.population.specs.Initial.{initial, seed_of};
ghost use Rattle.totals.specs.Totals.{AreTotals};
ghost use Rattle.board.specs.Words.{last_epoch};
ghost use Rattle.book.specs.Base.{MayBegin, IsStart};
ghost use Rattle.book.specs.Parts.{ArePartsOf, AreBlank, AreEmpty, AreUnwritten, IsUnused};

use crate::entry::Entry;
use crate::shared::shared;
use crate::untaken::Untaken;
use annals::{Annalist, Annals};
use board::{Board, BoardSeats};
use cells::{Cells, Pen, Reader};
use encoding::{first_texts, first_versions};
use money::Refusal;
use population::Population;
use std::alloc::{AllocError, Global};
use std::sync::ledger::Blank;
use std::sync::{Arc, Wait};
use tables::{History, Tables};
use tidword::TidWord;
use totals::Totals;

/// What an engine is opened with: all memory that opening one takes.
#[derive(Drop)]
pub struct Parts {
    pub(crate) population: Arc<Population, Global>,
    pub(crate) lent: Arc<Population, Global>,
    pub(crate) begun: Begun,
    pub(crate) history: Vec<Arc<Entry, Global>>,
    pub(crate) fresh: Fresh,
    pub(crate) blank: Blank,
}

/// What is committed as a run begins: the tables, where they aren't the population's, the HISTORY rows that they have
/// behind its own, how many commits made them, and their totals.
#[derive(Drop)]
pub(crate) struct Begun {
    /// Opening gives up their memory: the records have them. Until then they say what the run is named by.
    pub(crate) base: Option<Tables>,
    pub(crate) rows: Vec<History>,
    pub(crate) past: u32,
    pub(crate) totals: Totals,
}

/// The records of tables as a run begins with them: their cells, with first versions alone, and the pen and the readers
/// of these.
#[derive(Drop)]
pub(crate) struct Records {
    pub(crate) cells: Cells,
    pub(crate) pen: Pen,
    pub(crate) readers: Vec<Reader>,
}

/// What a run begins with in which nothing has committed: its records, a board at which nobody has stepped, the
/// loggers' streams, the terminals' last TIDs, and annals.
#[derive(Drop)]
pub(crate) struct Fresh {
    pub(crate) records: Records,
    pub(crate) board: Board,
    pub(crate) seats: BoardSeats,
    pub(crate) streams: Vec<Untaken>,
    pub(crate) lasts: Vec<TidWord>,
    pub(crate) blank: BlankAnnals,
}

/// Annals in which nothing stands, as the engine and the book have them, and the pass with which the book keeps them.
#[derive(Drop)]
pub(crate) struct BlankAnnals {
    pub(crate) annals: Arc<Annals<Entry>, Global>,
    pub(crate) lent: Arc<Annals<Entry>, Global>,
    pub(crate) annalist: Annalist<Entry>,
}

/// Tables that a run goes on from, as recovery gives them: the HISTORY rows that they have behind the population's, how
/// many commits made them, and the last epoch of which anything is known.
#[derive(Drop)]
pub struct Base {
    pub tables: Tables,
    pub rows: Vec<History>,
    pub commits: u32,
    pub epoch: u64,
}

impl Parts {
    /// The parts of an engine over this population, for 1 to 8 loggers and 1 to 16 terminals, of which each gets a
    /// seat, with a board at epoch 1. Costs what `first_versions`, `first_texts`, `Cells::with_wide` and `Totals::of`
    /// cost: passes over the tables and the records, and a step a record and terminal. May wait, at a record's cell
    /// alone.
    ///
    /// # Errors
    ///
    /// `OutOfMemory`, and no other.
    pub fn new<R: Wait>(
        rt: &R,
        alloc: Global,
        population: Population,
        loggers: u16,
        terminals: u16,
    ) -> Result<Parts, Refusal>
        requires loggers { (0 < loggers) × (loggers ≤ MAX_LOGGERS) }
        requires terminals { (0 < terminals) × (terminals ≤ MAX_TERMINALS) }
        ensures parts { IfOk result (ArePartsOf (initial population) (initial population) (seed_of population) 0 0
            loggers terminals) }
        ensures only_memory { IfErr result (λ refusal. refusal ≡ OutOfMemory) }
    {
        let (records, totals) = records_of(rt, alloc, population.tables(), terminals)?;
        let begun = Begun {
            base: None,
            rows: Vec::new(alloc),
            past: 0,
            totals,
        };
        assembled(alloc, population, begun, records, 0, loggers, terminals)
    }

    /// The parts of an engine that goes on behind a base: numbers of commits go on from its own, and the board opens at
    /// the epoch behind its last one. Costs what `new` does; the tables stay in memory until the engine is opened. May
    /// wait, at a record's cell alone.
    ///
    /// # Errors
    ///
    /// `OutOfMemory`, and no other.
    pub fn behind<R: Wait>(
        rt: &R,
        alloc: Global,
        population: Population,
        base: Base,
        loggers: u16,
        terminals: u16,
    ) -> Result<Parts, Refusal>
        requires base { MayBegin (initial population) (database base.tables) base.rows.items base.commits }
        requires epoch { base.epoch < last_epoch }
        requires loggers { (0 < loggers) × (loggers ≤ MAX_LOGGERS) }
        requires terminals { (0 < terminals) × (terminals ≤ MAX_TERMINALS) }
        ensures parts { IfOk result (ArePartsOf (initial population) (database base.tables) (seed_of population)
            base.commits base.epoch loggers terminals) }
        ensures only_memory { IfErr result (λ refusal. refusal ≡ OutOfMemory) }
    {
        let Base {
            tables,
            rows,
            commits,
            epoch,
        } = base;
        let (records, totals) = records_of(rt, alloc, &tables, terminals)?;
        let begun = Begun {
            base: Some(tables),
            rows,
            past: commits,
            totals,
        };
        assembled(alloc, population, begun, records, epoch, loggers, terminals)
    }
}

/// The records of tables, with a reader a terminal, and the tables' totals. `OutOfMemory` is the only refusal.
fn records_of<R: Wait>(
    rt: &R,
    alloc: Global,
    tables: &Tables,
    terminals: u16,
) -> Result<(Records, Totals), Refusal>
    requires well_formed { IsWellFormed (database tables.now) }
    requires consistent { IsConsistent (database tables.now) }
    ensures records { IfOk result (λ made. AreUnwritten (database tables.now) terminals made.0) }
    ensures totals { IfOk result (λ made. AreTotals (database tables.now) made.1) }
    ensures only_memory { IfErr result (λ refusal. refusal ≡ OutOfMemory) }
{
    let mut records = unwritten(rt, alloc, tables, terminals)?;
    let (cells, pen) = (&records.cells, &mut records.pen);
    let totals = Totals::of(alloc, &tables.scale, cells, pen, &tables.history)?;
    Ok((records, totals))
}

/// The records of tables, with a reader a terminal. `OutOfMemory` is the only refusal.
fn unwritten<R: Wait>(
    rt: &R,
    alloc: Global,
    tables: &Tables,
    terminals: u16,
) -> Result<Records, Refusal>
    requires well_formed { IsWellFormed (database tables.now) }
    requires consistent { IsConsistent (database tables.now) }
    ensures records { IfOk result (AreUnwritten (database tables.now) terminals) }
    ensures only_memory { IfErr result (λ refusal. refusal ≡ OutOfMemory) }
{
    let first = first_versions(alloc, tables)?;
    let texts = first_texts(alloc, tables)?;
    let (cells, pen, readers) = Cells::with_wide(rt, alloc, first, texts, terminals as usize)?;
    Ok(Records {
        cells,
        pen,
        readers,
    })
}

/// The parts of an engine that begins so, at these records, with a board behind this epoch. `OutOfMemory` is the only
/// refusal.
fn assembled(
    alloc: Global,
    population: Population,
    begun: Begun,
    records: Records,
    epoch: u64,
    loggers: u16,
    terminals: u16,
) -> Result<Parts, Refusal>
    requires start { IsStart (initial population) (option_map_or database begun.base (initial population))
        begun.rows.items begun.past begun.totals }
    requires records { AreUnwritten (option_map_or database begun.base (initial population)) terminals records }
    requires epoch { epoch < last_epoch }
    requires loggers { (0 < loggers) × (loggers ≤ MAX_LOGGERS) }
    requires terminals { (0 < terminals) × (terminals ≤ MAX_TERMINALS) }
    ensures parts { IfOk result (ArePartsOf (initial population)
        (option_map_or database begun.base (initial population)) (seed_of population) begun.past epoch loggers
        terminals) }
    ensures only_memory { IfErr result (λ refusal. refusal ≡ OutOfMemory) }
{
    let (population, lent) = shared(alloc, population)?;
    let fresh = fresh_of(alloc, records, epoch, loggers, terminals)?;
    Ok(Parts {
        population,
        lent,
        begun,
        history: Vec::new(alloc),
        fresh,
        blank: Blank::new(u64::from(terminals)),
    })
}

/// What a run begins with in which nothing has committed, of these records, with a board behind this epoch.
/// `OutOfMemory` is the only refusal.
fn fresh_of(
    alloc: Global,
    records: Records,
    epoch: u64,
    loggers: u16,
    terminals: u16,
) -> Result<Fresh, Refusal>
    requires epoch { epoch < last_epoch }
    requires loggers { (0 < loggers) × (loggers ≤ MAX_LOGGERS) }
    ensures fresh { IfOk result (λ fresh. (first : Database) → AreUnwritten first terminals records
        → IsUnused first epoch loggers terminals fresh) }
    ensures only_memory { IfErr result (λ refusal. refusal ≡ OutOfMemory) }
{
    let (streams, lasts) = lists_of(alloc, loggers, terminals, epoch)?;
    let (board, seats) = Board::behind(alloc, epoch, u64::from(loggers), u64::from(terminals))?;
    let blank = blank_annals(alloc, epoch)?;
    Ok(Fresh {
        records,
        board,
        seats,
        streams,
        lasts,
        blank,
    })
}

/// Annals behind this epoch in which nothing stands.
fn blank_annals(alloc: Global, epoch: u64) -> Result<BlankAnnals, AllocError>
    ensures { IfOk result (AreBlank epoch) }
{
    let (annals, annalist) = Annals::new(alloc, epoch)?;
    let (annals, lent) = shared(alloc, annals)?;
    Ok(BlankAnnals {
        annals,
        lent,
        annalist,
    })
}

/// The streams of loggers that have taken nothing, at this mark, and the last TIDs of terminals that have committed
/// nothing.
fn lists_of(
    alloc: Global,
    loggers: u16,
    terminals: u16,
    mark: u64,
) -> Result<(Vec<Untaken>, Vec<TidWord>), AllocError>
    ensures streams { IfOk result (λ lists. AreEmpty loggers mark lists.0.items) }
    ensures lasts { IfOk result (λ lists. lists.1.items ≡ replicate terminals 0) }
{
    let streams = streams(alloc, loggers, mark)?;
    let lasts = vec![in alloc; TidWord::new(0); terminals as usize]?;
    Ok((streams, lasts))
}

/// The streams of loggers that have taken nothing, at this mark.
fn streams(alloc: Global, loggers: u16, mark: u64) -> Result<Vec<Untaken>, AllocError>
    ensures { IfOk result (λ streams. AreEmpty loggers mark streams.items) }
{
    let mut streams = Vec::new(alloc);
    for _ in 0..loggers {
        streams.push(Untaken::new(alloc, mark))?;
    }
    Ok(streams)
}
