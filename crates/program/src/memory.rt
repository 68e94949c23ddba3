//! How much memory a command line takes, about, and which option lowers that most.
ghost use Rattle.std.specs.Prelude.{◌≡◌, ◌<◌, ◌^◌, IfOk, IsTrue, string_bytes};
ghost use Rattle.tables.specs.Sizes.{IsScale, sizes};
ghost use Rattle.program.specs.Memory.{cells_bytes, cheaper, dearest, memory_line, memory_of, reads_files, rows_bytes};
ghost use Rattle.program.specs.Memory.{bare_line, line_on_files, line_with_advice, megabytes, runs, saves};

use program_options::Subcommand;
use std::alloc::{AllocError, Global};
use tables::limits::{MIN_CUSTOMERS, MIN_ITEMS};
use tables::{Scale, Table, narrow_count, record_count};

/// What the cell of a narrow record takes.
const NARROW_BYTES: u64 = 64;

/// What the cell of a wide record takes.
const WIDE_BYTES: u64 = 512;

/// What a record takes where log files are only read.
const READ_BYTES: u64 = 8;

/// What the rows take that a customer begins with, about: its own, and those of its first order.
const CUSTOMER_BYTES: u64 = 1_240;

/// What a row of STOCK takes, about.
const STOCK_BYTES: u64 = 42;

/// What a row of ITEM takes, about.
const ITEM_BYTES: u64 = 61;

/// What the program takes whatever it is to do, about.
const PROGRAM_BYTES: u64 = 2_500_000;

const MEGABYTE: u64 = 1_000_000;

/// An option of a scale that memory goes by.
#[derive(Clone, Copy, Debug, PartialEq, Eq)]
pub(crate) enum Sizing {
    Warehouses,
    Districts,
    Customers,
    Items,
    Orders,
}

impl Sizing {
    ghost use Rattle.std.specs.Prelude.{◌≡◌};
    ghost use Rattle.program.specs.Memory.{sizing_name, with_least};

    /// What the command line calls it.
    fn name(self) -> &'static str
        ensures { result.now ≡ sizing_name self }
    {
        match self {
            Sizing::Warehouses => "warehouses",
            Sizing::Districts => "districts",
            Sizing::Customers => "customers",
            Sizing::Items => "items",
            Sizing::Orders => "orders",
        }
    }

    /// A scale with the least lawful number for this option.
    fn least(self, scale: &Scale) -> Scale
        ensures { result ≡ with_least self scale.now }
    {
        let (warehouses, districts) = (scale.warehouses(), scale.districts());
        let (customers, items) = (scale.customers(), scale.items());
        let (orders, commits) = (scale.orders(), scale.commits());
        match self {
            Sizing::Warehouses => scale_of(1, districts, customers, items, orders, commits),
            Sizing::Districts => scale_of(warehouses, 1, customers, items, orders, commits),
            Sizing::Customers => {
                scale_of(warehouses, districts, MIN_CUSTOMERS, items, orders, commits)
            }
            Sizing::Items => scale_of(warehouses, districts, customers, MIN_ITEMS, orders, commits),
            Sizing::Orders => scale_of(warehouses, districts, customers, items, customers, commits),
        }
    }
}

/// The scale of lawful numbers.
fn scale_of(
    warehouses: u32,
    districts: u32,
    customers: u32,
    items: u32,
    orders: u32,
    commits: u32,
) -> Scale
    requires { IsScale (sizes warehouses districts customers items orders commits) }
    ensures { result ≡ sizes warehouses districts customers items orders commits }
{
    match Scale::new(warehouses, districts, customers, items, orders, commits) {
        Ok(scale) => scale,
        Err(_) => unreachable!(),
    }
}

/// The line on the memory that a command line takes, about: `some 36 MB for these options: a lower --orders takes the
/// least`.
pub(crate) fn memory_line(
    alloc: Global,
    subcommand: &Subcommand,
    scale: &Scale,
) -> Result<String, AllocError>
    ensures { IfOk result (λ line. string_bytes line ≡ memory_line subcommand.now scale.now) }
{
    let megabytes = megabytes(subcommand, scale);
    if reads_files(subcommand) {
        return line_on_files(alloc, megabytes);
    }
    let option = dearest(subcommand, scale);
    if saves(subcommand, scale, option) {
        return line_with_advice(alloc, megabytes, option.name());
    }
    bare_line(alloc, megabytes)
}

/// What is told of so many megabytes where the options are those of log files.
fn line_on_files(alloc: Global, megabytes: u64) -> Result<String, AllocError>
    ensures { IfOk result (λ line. string_bytes line ≡ line_on_files megabytes) }
{
    format!(in alloc;
        "some {megabytes} MB for these options, and more for what the log files hold\n"
    )
}

/// What is told of them where lowering this option saves most.
fn line_with_advice(alloc: Global, megabytes: u64, option: &str) -> Result<String, AllocError>
    ensures { IfOk result (λ line. string_bytes line ≡ line_with_advice megabytes option.now) }
{
    format!(in alloc; "some {megabytes} MB for these options: a lower --{option} takes the least\n")
}

/// What is told of them where none saves anything.
fn bare_line(alloc: Global, megabytes: u64) -> Result<String, AllocError>
    ensures { IfOk result (λ line. string_bytes line ≡ bare_line megabytes) }
{
    format!(in alloc; "some {megabytes} MB for these options\n")
}

/// What a subcommand takes at a scale, in megabytes.
fn megabytes(subcommand: &Subcommand, scale: &Scale) -> u64
    ensures { result ≡ megabytes (memory_of subcommand.now scale.now) }
{
    (memory_of(subcommand, scale) + MEGABYTE / 2) / MEGABYTE
}

/// Whether less is taken with the least lawful number for an option.
fn saves(subcommand: &Subcommand, scale: &Scale, option: Sizing) -> bool
    ensures { result ≡ saves subcommand.now scale.now option }
{
    memory_of(subcommand, &option.least(scale)) < memory_of(subcommand, scale)
}

/// The option whose least lawful number lowers what is taken most.
fn dearest(subcommand: &Subcommand, scale: &Scale) -> Sizing
    ensures { result ≡ dearest subcommand.now scale.now }
{
    let places = cheaper(subcommand, scale, Sizing::Warehouses, Sizing::Districts);
    let rows = cheaper(subcommand, scale, Sizing::Customers, Sizing::Items);
    cheaper(
        subcommand,
        scale,
        cheaper(subcommand, scale, places, rows),
        Sizing::Orders,
    )
}

/// The option of two whose least lawful number takes less; the first where both take as much.
fn cheaper(subcommand: &Subcommand, scale: &Scale, first: Sizing, second: Sizing) -> Sizing
    ensures { result ≡ cheaper subcommand.now scale.now first second }
{
    if memory_of(subcommand, &second.least(scale)) < memory_of(subcommand, &first.least(scale)) {
        second
    } else {
        first
    }
}

/// What a subcommand takes at a scale, about, before it commits or reads any entry.
#[tactic(auto, unfolding(crate::specs::Memory::memory_of))]
fn memory_of(subcommand: &Subcommand, scale: &Scale) -> u64
    ensures value { result ≡ memory_of subcommand.now scale.now }
    ensures fits { result < 2 ^ 48 }
{
    let rows = rows_bytes(scale);
    let records = if runs(subcommand) {
        cells_bytes(scale)
    } else {
        READ_BYTES * u64::from(record_count(scale))
    };
    let rows = if reads_files(subcommand) {
        2 * rows
    } else {
        rows
    };
    PROGRAM_BYTES + (records + rows)
}

/// Whether a subcommand runs transactions, so that each record has its cell.
fn runs(subcommand: &Subcommand) -> bool
    ensures { result ≡ runs subcommand.now }
{
    matches!(subcommand, Subcommand::Script(_) | Subcommand::Run(_))
}

/// Whether it reads log files that are there. Then there are the first tables, and those that are recovered.
fn reads_files(subcommand: &Subcommand) -> bool
    ensures { result ≡ reads_files subcommand.now }
{
    match subcommand {
        Subcommand::Script(_) => false,
        Subcommand::Run(options) => options.resume,
        Subcommand::Recover(_) | Subcommand::Check(_) => true,
    }
}

/// What the cells of all records take.
#[tactic(auto, unfolding(crate::specs::Memory::cells_bytes))]
fn cells_bytes(scale: &Scale) -> u64
    ensures value { result ≡ cells_bytes scale.now }
    ensures fits { result < 2 ^ 42 }
{
    let wide = Table::CustomerData.size(scale);
    NARROW_BYTES * u64::from(narrow_count(scale)) + WIDE_BYTES * u64::from(wide)
}

/// What the rows of the first tables take, about.
#[tactic(auto, unfolding(crate::specs::Memory::rows_bytes))]
fn rows_bytes(scale: &Scale) -> u64
    ensures value { result ≡ rows_bytes scale.now }
    ensures fits { result < 2 ^ 44 }
{
    let customers = u64::from(Table::Customer.size(scale));
    let stock = u64::from(Table::Stock.size(scale));
    CUSTOMER_BYTES * customers + (STOCK_BYTES * stock + ITEM_BYTES * u64::from(scale.items()))
}
