//! The rule of one page of records: a record's versions rise, its readers see them in order, and the holder of the pen
//! knows them all. A record has `N` words side by side, of which the first is its TID word; while a version is being
//! stored that word is odd (Silo, section 4.5).

use atomic_table::{Join, Play, Split, TableRule};
use std::collections::LinkedList;

/// What a seat knows. By place in the page: the versions that it has seen, how often it has loaded, and of another
/// seat the same (`told`, `told_loads`). While it loads a record: its place, the versions that the place had at the
/// first load, and the words loaded so far. While the pen stores a version (`busy`): its place, and the words that
/// now stand there (`next`). No value of it is made.
pub struct View {
    pub pen: bool,
    pub seen: LinkedList<LinkedList<LinkedList<u64>>>,
    pub loads: LinkedList<u64>,
    pub told: LinkedList<LinkedList<LinkedList<u64>>>,
    pub told_loads: LinkedList<u64>,
    pub place: u64,
    pub begun: LinkedList<LinkedList<u64>>,
    pub bits: LinkedList<u64>,
    pub busy: bool,
    pub next: LinkedList<u64>,
}

/// The rule of a page of records of `N` words. It is told the words that the page begins with.
pub struct PageRule<const N: usize>;

impl<const N: usize> TableRule<(), View, Vec<u64>> for PageRule<N> {
    ghost use Rattle.cells_pages.specs.Rule.{KeepsPage, first_versions};
    ghost use Rattle.cells_pages.specs.Views.{pen_view};

    ghost holds = { λ _. KeepsPage N };

    ghost first = { λ words. pen_view (first_versions N words.items) };
}

/// A reader begins to load a record, by its first word.
pub(crate) struct Begins<const N: usize>;

impl<const N: usize> Play<(), View> for Begins<N> {
    ghost use Rattle.cells_pages.specs.Plays.{BeginsOf};

    ghost then = { λ s v found w. BeginsOf N s.word v.0 found w.0 };
}

/// It loads the record's next word.
pub(crate) struct Follows;

impl Play<(), View> for Follows {
    ghost use Rattle.cells_pages.specs.Plays.{FollowsOf};

    ghost then = { λ _ v found w. FollowsOf v.0 found w.0 };
}

/// It loads the record's first word again.
pub(crate) struct Checks<const N: usize>;

impl<const N: usize> Play<(), View> for Checks<N> {
    ghost use Rattle.cells_pages.specs.Plays.{ChecksOf};

    ghost then = { λ _ v found w. ChecksOf N v.0 found w.0 };
}

/// The pen, which stores no version, loads a word of a record.
pub(crate) struct Shows<const N: usize>;

impl<const N: usize> Play<(), View> for Shows<N> {
    ghost use Rattle.cells_pages.specs.Plays.{ShowsOf};

    ghost then = { λ s v found w. ShowsOf N s.word v.0 found w.0 };
}

/// The pen marks a record, by an odd first word.
pub(crate) struct Opens<const N: usize>;

impl<const N: usize> Play<(), View> for Opens<N> {
    ghost use Rattle.cells_pages.specs.Plays.{OpensOf};

    ghost then = { λ s v stored w. OpensOf N s.word v.0 stored w.0 };
}

/// It loads another word of the marked record.
pub(crate) struct Looks<const N: usize>;

impl<const N: usize> Play<(), View> for Looks<N> {
    ghost use Rattle.cells_pages.specs.Plays.{LooksOf};

    ghost then = { λ s v found w. LooksOf N s.word v.0 found w.0 };
}

/// It stores another word of the marked record.
pub(crate) struct Puts<const N: usize>;

impl<const N: usize> Play<(), View> for Puts<N> {
    ghost use Rattle.cells_pages.specs.Plays.{PutsOf};

    ghost then = { λ s v stored w. PutsOf N s.word v.0 stored w.0 };
}

/// It stores the first word, by which the version is there.
pub(crate) struct Publishes;

impl Play<(), View> for Publishes {
    ghost use Rattle.cells_pages.specs.Plays.{PublishesOf};

    ghost then = { λ _ v stored w. PublishesOf v.0 stored w.0 };
}

/// The pen loads a record's first word, and compares what it was told.
pub(crate) struct Compares<const N: usize>;

impl<const N: usize> Play<(), View> for Compares<N> {
    ghost use Rattle.cells_pages.specs.Plays.{ComparesOf};

    ghost then = { λ s v found w. ComparesOf N s.word v.0 found w.0 };
}

/// A new reader, which has seen what the pen has.
pub(crate) struct Starts;

impl Split<View> for Starts {
    ghost use Rattle.cells_pages.specs.Plays.{starting};

    ghost left = { λ v. v };

    ghost right = { starting };
}

/// A reader tells what it knows.
pub(crate) struct Tells;

impl Split<View> for Tells {
    ghost use Rattle.cells_pages.specs.Views.{sight};

    ghost left = { λ v. v };

    ghost right = { λ v. sight v.seen v.loads };
}

/// The pen is told it.
pub(crate) struct Hears;

impl Join<View> for Hears {
    ghost use Rattle.std.specs.Prelude.{[]};
    ghost use Rattle.cells_pages.specs.Plays.{heard};
    ghost use Rattle.cells_pages.specs.Views.{sight};

    ghost both = { heard };

    ghost spent = { sight [] [] };
}

/// The pen gives the reader back what it told, with all versions of the record that it looked at.
pub(crate) struct Gives;

impl Split<View> for Gives {
    ghost use Rattle.cells_pages.specs.Plays.{having_met};
    ghost use Rattle.cells_pages.specs.Views.{pen_view};

    ghost left = { λ v. pen_view v.seen };

    ghost right = { having_met };
}
