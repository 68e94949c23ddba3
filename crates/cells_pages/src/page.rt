//! A page of records of `N` words, its seats, and where a word of a record stands.
ghost use Rattle.std.specs.Prelude.{◌≡◌, ℕ, ◌+◌, ◌*◌, ◌<◌, ◌≤◌, [], length, IfOk};
ghost use Rattle.cells_pages.specs.Views.{pen_view};
ghost use Rattle.cells_pages.specs.Rule.{first_versions};
ghost use Rattle.cells_pages.specs.Plays.{starting};

use crate::rule::{PageRule, Starts, View};
use atomic_table::{Seat, Shared, Table};
use std::alloc::{AllocError, Global};

/// A page of records of `N` words.
pub type Page<const N: usize> = Table<(), View, Vec<u64>, PageRule<N>, Global>;

/// A page, as threads see it.
pub type PageWords<const N: usize> = Shared<(), View, Vec<u64>, PageRule<N>>;

/// What one holder knows of one page. It has no bytes.
pub type PageSeat = Seat<(), View>;

/// How many records a page has, but for the last, which may have fewer.
pub const PAGE_RECORDS: usize = 4_096;

// Which word of its page the i-th word of the record at a place is.
pub(crate) fn word_at<const N: usize>(place: usize, i: usize) -> usize
    requires place { place < 4096 }
    requires word { (i < N) × (N ≤ 4096) }
    ensures { result ≡ place * N + i }
{
    place * N + i
}

// A page that begins with these words, and its pen.
pub fn open<const N: usize>(
    alloc: Global,
    words: &Vec<u64>,
) -> Result<(Page<N>, PageSeat), AllocError>
    requires { (0 < N) × ((count : ℕ) × (length words.now.items ≡ count * N)) }
    ensures { IfOk result (λ made. (made.0.shared.table_id.words ≡ length words.now.items)
        × (made.1.table_id ≡ made.0.shared.table_id)
        × (made.1.me.0 ≡ pen_view (first_versions N words.now.items))) }
{
    Table::of_words(alloc, words, words)
}

// A new reader, which has seen what the pen has.
pub fn start<const N: usize>(page: &PageWords<N>, pen: &mut PageSeat) -> PageSeat
    requires { (pen.old.table_id ≡ page.now.table_id) × (0 < page.now.table_id.words) }
    ensures kept { (pen.new.table_id ≡ pen.old.table_id) × (pen.new.me.0 ≡ pen.old.me.0) }
    ensures started { (result.table_id ≡ pen.old.table_id) × (result.me.0 ≡ starting pen.old.me.0) }
{
    page.split_seat::<Starts>(pen)
}
