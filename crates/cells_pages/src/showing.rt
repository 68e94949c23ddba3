//! What a record of a page holds, by the pen, which knows all versions and stores none meanwhile: so one load of each
//! word tells it, where a reader has to look again.
//!
//! A method of a ruled table is dear to prove where it is called, so each is called in one small function.
ghost use Rattle.std.specs.Prelude.{◌≡◌, ◌<◌, slice_index};
ghost use Rattle.cells_pages.specs.Versions.{AreVersions, newest, word_in};
ghost use Rattle.cells_pages.specs.Versions.{at};
ghost use Rattle.cells_pages.specs.Views.{IsPen};
ghost use Rattle.cells_pages.specs.Seats.{IsSeatOf};

use crate::page::{PageSeat, PageWords, word_at};
use crate::rule::Shows;

// Loads word i of the record at a place.
#[inline(always)]
fn show<const N: usize>(page: &PageWords<N>, pen: &mut PageSeat, place: usize, i: usize) -> u64
    requires own { IsSeatOf N page.now.table_id pen.old place }
    requires pen { IsPen pen.old.me.0 }
    requires word { i < N }
    ensures own { pen.new.table_id ≡ pen.old.table_id }
    ensures same { pen.new.me.0 ≡ pen.old.me.0 }
    ensures found { result ≡ slice_index (newest (at pen.old.me.0.seen place)) i }
    ensures sound { AreVersions N (at pen.old.me.0.seen place) }
{
    page.load::<Shows<N>>(pen, word_at::<N>(place, i))
}

// The words of the newest version of the record at a place.
#[inline(always)]
pub fn held<const N: usize>(page: &PageWords<N>, pen: &mut PageSeat, place: usize) -> [u64; N]
    requires own { IsSeatOf N page.now.table_id pen.old place }
    requires pen { IsPen pen.old.me.0 }
    ensures own { pen.new.table_id ≡ pen.old.table_id }
    ensures same { pen.new.me.0 ≡ pen.old.me.0 }
    ensures held { result ≡ newest (at pen.old.me.0.seen place) }
    ensures sound { AreVersions N (at pen.old.me.0.seen place) }
{
    let first = show(page, pen, place, 0);
    let mut words = [first; N];
    for i in 1..N {
        words[i] = show(page, pen, place, i);
    }
    words
}

// The first of them, the TID word.
#[inline(always)]
pub fn head<const N: usize>(page: &PageWords<N>, pen: &mut PageSeat, place: usize) -> u64
    requires own { IsSeatOf N page.now.table_id pen.old place }
    requires pen { IsPen pen.old.me.0 }
    ensures own { pen.new.table_id ≡ pen.old.table_id }
    ensures same { pen.new.me.0 ≡ pen.old.me.0 }
    ensures head { result ≡ word_in (newest (at pen.old.me.0.seen place)) }
    ensures sound { AreVersions N (at pen.old.me.0.seen place) }
{
    show(page, pen, place, 0)
}
