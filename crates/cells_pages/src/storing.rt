//! How the pen stores a version in a page: it marks the record by an odd first word, stores the other words where they
//! differ, and then the first. There is one pen, so no store waits.
//!
//! A method of a ruled table is dear to prove where it is called, so each is called in one small function.
ghost use Rattle.std.specs.Prelude.{◌≡◌, ℕ, ◌<◌, ◌∷◌, ◌++◌, [], length, slice_index, slice_set};
ghost use Rattle.cells_pages.specs.Versions.{AreVersions, last_tid, newest, tid};
ghost use Rattle.cells_pages.specs.Versions.{at};
ghost use Rattle.cells_pages.specs.Views.{pen_view, writing, IsPen, IsWriting};
ghost use Rattle.cells_pages.specs.Seats.{IsSeatOf};

use crate::page::{PageSeat, PageWords, word_at};
use crate::rule::{Looks, Opens, Publishes, Puts};

// The first word of a record while a version is being stored there.
const MARK: u64 = 1;

// Marks the record.
fn mark<const N: usize>(page: &PageWords<N>, pen: &mut PageSeat, place: usize)
    requires own { IsSeatOf N page.now.table_id pen.old place }
    requires pen { IsPen pen.old.me.0 }
    ensures own { pen.new.table_id ≡ pen.old.table_id }
    ensures marked { pen.new.me.0
        ≡ writing pen.old.me.0.seen place (slice_set (newest (at pen.old.me.0.seen place)) 0 1) }
    ensures sound { AreVersions N (at pen.old.me.0.seen place) }
{
    page.store::<Opens<N>>(pen, word_at::<N>(place, 0), MARK);
}

// Loads word i of the marked record.
fn look<const N: usize>(page: &PageWords<N>, pen: &mut PageSeat, place: usize, i: usize) -> u64
    requires own { IsSeatOf N page.now.table_id pen.old place }
    requires marked { IsWriting pen.old.me.0 × (pen.old.me.0.place ≡ place) }
    requires word { i < N }
    ensures own { pen.new.table_id ≡ pen.old.table_id }
    ensures same { pen.new.me.0 ≡ pen.old.me.0 }
    ensures found { result ≡ slice_index pen.old.me.0.next i }
{
    page.load::<Looks<N>>(pen, word_at::<N>(place, i))
}

// Stores word i of the marked record.
fn write<const N: usize>(page: &PageWords<N>, pen: &mut PageSeat, place: usize, i: usize, word: u64)
    requires own { IsSeatOf N page.now.table_id pen.old place }
    requires marked { IsWriting pen.old.me.0 × (pen.old.me.0.place ≡ place) }
    requires word { (0 < i) × (i < N) }
    ensures own { pen.new.table_id ≡ pen.old.table_id }
    ensures written { pen.new.me.0
        ≡ writing pen.old.me.0.seen place (slice_set pen.old.me.0.next i word) }
{
    page.store::<Puts<N>>(pen, word_at::<N>(place, i), word);
}

// Makes word i of the marked record this one: a store costs more than a load, and most words stay.
fn put<const N: usize>(page: &PageWords<N>, pen: &mut PageSeat, place: usize, i: usize, word: u64)
    requires own { IsSeatOf N page.now.table_id pen.old place }
    requires marked { IsWriting pen.old.me.0 × (pen.old.me.0.place ≡ place) }
    requires word { (0 < i) × (i < N) }
    ensures own { pen.new.table_id ≡ pen.old.table_id }
    ensures written { pen.new.me.0
        ≡ writing pen.old.me.0.seen place (slice_set pen.old.me.0.next i word) }
{
    if look(page, pen, place, i) == word {
        return;
    }
    write(page, pen, place, i, word);
}

// Stores the first word of the marked record, by which the version is there.
fn publish<const N: usize>(page: &PageWords<N>, pen: &mut PageSeat, place: usize, word: u64)
    requires own { IsSeatOf N page.now.table_id pen.old place }
    requires marked { IsWriting pen.old.me.0 × (pen.old.me.0.place ≡ place) }
    requires sound { AreVersions N (at pen.old.me.0.seen place ++ slice_set pen.old.me.0.next 0 word ∷ []) }
    ensures own { pen.new.table_id ≡ pen.old.table_id }
    ensures published { let seen = pen.old.me.0.seen in pen.new.me.0 ≡ pen_view
        (slice_set seen place (at seen place ++ slice_set pen.old.me.0.next 0 word ∷ [])) }
{
    page.store::<Publishes>(pen, word_at::<N>(place, 0), word);
}

// Makes the words of the marked record, but the first, those of a version.
fn put_all<const N: usize>(
    page: &PageWords<N>,
    pen: &mut PageSeat,
    place: usize,
    version: &[u64; N],
)
    requires own { IsSeatOf N page.now.table_id pen.old place }
    requires marked { IsWriting pen.old.me.0 × (pen.old.me.0.place ≡ place) }
    requires wide { length pen.old.me.0.next ≡ N }
    ensures own { pen.new.table_id ≡ pen.old.table_id }
    ensures written { pen.new.me.0 ≡ writing pen.old.me.0.seen place pen.new.me.0.next }
    ensures wide { length pen.new.me.0.next ≡ N }
    ensures words { (i : ℕ) → 0 < i → i < N → slice_index pen.new.me.0.next i ≡ slice_index version.now i }
{
    for i in 1..N {
        put(page, pen, place, i, version[i]);
    }
}

// Stores a version with a larger TID at a place.
pub fn store<const N: usize>(
    page: &PageWords<N>,
    pen: &mut PageSeat,
    place: usize,
    version: [u64; N],
)
    requires own { IsSeatOf N page.now.table_id pen.old place }
    requires pen { IsPen pen.old.me.0 }
    requires larger { last_tid (at pen.old.me.0.seen place) < tid version }
    ensures own { pen.new.table_id ≡ pen.old.table_id }
    ensures stored { let seen = pen.old.me.0.seen in
        pen.new.me.0 ≡ pen_view (slice_set seen place (at seen place ++ version.entry ∷ [])) }
{
    mark(page, pen, place);
    put_all(page, pen, place, &version);
    publish(page, pen, place, version[0]);
}
