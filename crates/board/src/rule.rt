//! The rule of the board's words: what they promise to all seats, and what a seat's own steps have told it.

use atomic_table::{Join, Play, Split, TableRule};
use std::collections::LinkedList;

/// What a board opens with.
#[derive(Clone, Copy, Debug, PartialEq, Eq)]
pub struct Plan {
    /// How many loggers, from 1 to 8.
    pub loggers: u64,
    /// The epoch up to which all is past: E opens one above it, and D, the floors and the local marks open at it.
    pub base: u64,
}

/// Who steps with a seat. No value of it is made.
pub enum Role {
    /// Waits for D.
    Terminal,
    /// Commits, and takes the loggers' batches. Of this seat there is one.
    Book,
    /// Adds to E. Of this seat there is one.
    Clock,
    /// Keeps commits, and raises D. Of this seat there is one for each logger, from logger 0.
    Logger(u64),
    /// Nobody: what its seat knew, another one knows.
    Gone,
}

/// One step at one word, with what it found or wrote. No value of it is made.
pub enum WordStep {
    /// E was loaded.
    LoadEpoch(u64),
    /// One was added to E, which became this.
    AddEpoch(u64),
    /// One was added to the commit count, for a commit of this epoch.
    CountCommit(u64),
    /// A logger's floor became this epoch.
    StoreFloor(u64, u64),
    /// A logger's local mark became this epoch.
    StoreMark(u64, u64),
    /// A logger's local mark was loaded.
    LoadMark(u64, u64),
    /// D was raised to this epoch, where it was lower.
    RaiseDurable(u64),
    /// D was loaded.
    LoadDurable(u64),
}

/// What a seat knows: the board's plan, its role, its steps, newest first, and in the book's seat how many roles have a
/// seat. No value of it is made.
pub struct View {
    pub plan: Plan,
    pub role: Role,
    pub dealt: u64,
    pub steps: LinkedList<WordStep>,
}

/// The rule.
pub struct EpochRule;

impl TableRule<(), View, Plan> for EpochRule {
    ghost use Rattle.board.specs.Rule.{IsLawfulBoard};
    ghost use Rattle.board.specs.Dealing.{first_view};

    ghost holds = { λ plan s. IsLawfulBoard plan s.words s.views };

    ghost first = { first_view };
}

/// A seat for the clock, out of the book's.
pub(crate) struct DealsClock;

impl Split<View> for DealsClock {
    ghost use Rattle.board.specs.Dealing.{dealt_on, clock_view};

    ghost left = { dealt_on };

    ghost right = { clock_view };
}

/// A seat for the next logger, out of the book's.
pub(crate) struct DealsLogger;

impl Split<View> for DealsLogger {
    ghost use Rattle.board.specs.Dealing.{dealt_on, logger_view};

    ghost left = { dealt_on };

    ghost right = { logger_view };
}

/// A seat for a terminal, out of the book's.
pub(crate) struct DealsTerminal;

impl Split<View> for DealsTerminal {
    ghost use Rattle.board.specs.Dealing.{terminal_view};

    ghost left = { λ v. v };

    ghost right = { terminal_view };
}

/// A terminal's seat more, that knows what this one knows.
pub(crate) struct TellsDurable;

impl Split<View> for TellsDurable {
    ghost use Rattle.board.specs.Dealing.{told_view};

    ghost left = { λ v. v };

    ghost right = { told_view };
}

/// A seat learns what another one has seen of D, which is then gone.
pub(crate) struct GathersDurable;

impl Join<View> for GathersDurable {
    ghost use Rattle.board.specs.Dealing.{gone_view};
    ghost use Rattle.board.specs.Plays.{with_seen};

    ghost both = { with_seen };

    ghost spent = { gone_view };
}

/// E is loaded: at least the last E that the seat knows.
pub(crate) struct LoadsEpoch;

impl Play<(), View> for LoadsEpoch {
    ghost use Rattle.board.specs.Plays.{LoadsEpochOf};

    ghost then = { λ _ v found w. LoadsEpochOf v.0 found w.0 };
}

/// One is added to E, by the clock, which knows it.
pub(crate) struct AddsEpoch;

impl Play<(), View> for AddsEpoch {
    ghost use Rattle.board.specs.Plays.{AddsEpochOf};

    ghost then = { λ _ v found w. AddsEpochOf v.0 found w.0 };
}

/// One is added to the commit count, by the book, for the last E that it knows.
pub(crate) struct CountsCommit;

impl Play<(), View> for CountsCommit {
    ghost use Rattle.board.specs.Plays.{CountsCommitOf};

    ghost then = { λ _ v _ w. CountsCommitOf v.0 w.0 };
}

/// A floor is stored, by the book.
pub(crate) struct StoresFloor;

impl Play<(), View> for StoresFloor {
    ghost use Rattle.board.specs.Plays.{StoresFloorOf};

    ghost then = { λ s v stored w. StoresFloorOf s.word v.0 stored w.0 };
}

/// A local mark is stored, by its logger.
pub(crate) struct StoresMark;

impl Play<(), View> for StoresMark {
    ghost use Rattle.board.specs.Plays.{StoresMarkOf};

    ghost then = { λ s v stored w. StoresMarkOf s.word v.0 stored w.0 };
}

/// A local mark is loaded.
pub(crate) struct LoadsMark;

impl Play<(), View> for LoadsMark {
    ghost use Rattle.board.specs.Plays.{LoadsMarkOf};

    ghost then = { λ s v found w. LoadsMarkOf s.word v.0 found w.0 };
}

/// D is raised.
pub(crate) struct RaisesDurable;

impl Play<(), View> for RaisesDurable {
    ghost use Rattle.board.specs.Plays.{RaisesDurableOf};

    ghost then = { λ s v _ w. RaisesDurableOf s.first v.0 w.0 };
}

/// D is loaded: at least what the seat has seen of it.
pub(crate) struct LoadsDurable;

impl Play<(), View> for LoadsDurable {
    ghost use Rattle.std.specs.Prelude.{◌≡◌};
    ghost use Rattle.board.specs.Plays.{LoadsDurableOf};

    ghost then = { λ _ v found w. (w.1 ≡ v.1) × LoadsDurableOf v.0 found w.0 };
}
