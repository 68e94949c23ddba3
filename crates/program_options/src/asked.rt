//! What a command line asks for.
ghost use Rattle.std.specs.Prelude.{◌≤◌};
ghost use Rattle.tables.specs.declared.limits.TheConstants.{MAX_LOGGERS, MAX_TERMINALS};
ghost use Rattle.program_options.specs.declared.asked.TheConstants.{MAX_RECOVERY_THREADS};

use money::Refusal;
use tables::Scale;

/// The most inputs of a terminal in a run.
pub const MAX_INPUTS: u32 = 1_000_000;

/// The most threads that read log files: as many as a database can have of those.
pub const MAX_RECOVERY_THREADS: u32 = 8;

/// What a command line asks for.
#[derive(Debug, Drop, PartialEq, Eq)]
pub enum Asked {
    /// A subcommand on tables of a scale and a population.
    OnTables(Options),
    /// `info`: tells what log files say of themselves.
    Info(InfoOptions),
}

/// What `info` is to tell of.
#[derive(Debug, Drop, PartialEq, Eq)]
pub struct InfoOptions {
    /// `--logs`: the path of the folder of the log files.
    pub folder: String,
}

/// What the program is to do on tables.
#[derive(Debug, Drop, PartialEq, Eq)]
pub enum Subcommand {
    /// `script`: answers the lines of standard input.
    Script(ScriptOptions),
    /// `run`: runs terminals beside loggers.
    Run(RunOptions),
    /// `recover`: shows what log files recover to.
    Recover(RecoverOptions),
    /// `check`: reports the conditions of what log files recover to.
    Check(RecoverOptions),
}

/// Where the log files of a database lie: in one folder, a file for each logger, `log-0`, `log-1` and so on.
#[derive(Debug, Drop, PartialEq, Eq)]
pub struct LogFiles {
    /// `--logs`: the folder's path.
    pub folder: String,
    /// `--loggers`, 1 to 8.
    pub loggers: u32,
}

/// How `script` is to answer.
#[derive(Debug, Drop, PartialEq, Eq)]
pub struct ScriptOptions {
    /// `--explain`: whether it tells of each refused line what is wrong with it.
    pub explain: bool,
}

/// What `recover` and `check` are to recover, and how.
#[derive(Debug, Drop, PartialEq, Eq)]
pub struct RecoverOptions {
    /// The log files.
    pub files: LogFiles,
    /// `--threads`, 1 to 8: in how many threads the files are read.
    pub threads: u32,
    ghost readers: { (1 ≤ threads) × (threads ≤ MAX_RECOVERY_THREADS) },
}

/// What `run` is to run.
#[derive(Debug, Drop, PartialEq, Eq)]
pub struct RunOptions {
    /// Where the log files are made, or are to be found.
    pub files: LogFiles,
    /// `--terminals`, 1 to 16.
    pub terminals: u32,
    /// `--count`: how many inputs each terminal has, 0 to 1,000,000.
    pub count: u32,
    /// `--seed`, which the inputs are drawn from.
    pub seed: u64,
    /// `--resume`: whether it goes on from the log files that are there.
    pub resume: bool,
    ghost loggers: { (1 ≤ files.loggers) × (files.loggers ≤ MAX_LOGGERS) },
    ghost stations: { (1 ≤ terminals) × (terminals ≤ MAX_TERMINALS) },
}

/// A subcommand on tables, and its options.
#[derive(Debug, Drop, PartialEq, Eq)]
pub struct Options {
    pub subcommand: Subcommand,
    /// `--warehouses`.
    pub warehouses: u32,
    /// `--districts`, of each warehouse.
    pub districts: u32,
    /// `--customers`, of each district.
    pub customers: u32,
    /// `--items`.
    pub items: u32,
    /// `--orders`, the order cap of a district.
    pub orders: u32,
    /// `--commits`, the commit cap.
    pub commits: u32,
    /// `--population`: 0 is the plain one, and any other is the one seeded by that number.
    pub population: u64,
}

impl Options {
    ghost use Rattle.std.specs.Prelude.{◌≡◌, MatchResult};
    ghost use Rattle.tables.specs.Sizes.{IsScale, sizes};
    ghost use Rattle.money.specs.declared.refusal.Refusal.TheVariants.{BadScale};

    /// The scale that is asked for, or `BadScale` exactly where a number is outside its limits.
    pub fn scale(&self) -> Result<Scale, Refusal>
        ensures limits { let asked = sizes self.now.warehouses self.now.districts self.now.customers self.now.items
            self.now.orders self.now.commits in
            MatchResult result (λ scale. (scale ≡ asked)
            × IsScale asked) (λ refusal. (refusal ≡ BadScale) × ¬ IsScale asked) }
    {
        Scale::new(
            self.warehouses,
            self.districts,
            self.customers,
            self.items,
            self.orders,
            self.commits,
        )
    }
}
