//! How a reader loads a record of a page: its words, and then the first again, until that is even and the same.
//!
//! A method of a ruled table is dear to prove where it is called, so each is called in one small function.
ghost use Rattle.std.specs.Prelude.{◌≡◌, ◌%◌, ◌<◌, [], ◌∷◌, length};
ghost use Rattle.cells_pages.specs.Versions.{Versions, word_in};
ghost use Rattle.cells_pages.specs.Views.{reading};
ghost use Rattle.cells_pages.specs.Plays.{FollowsOf, ChecksOf, IsLoaded};
ghost use Rattle.cells_pages.specs.Seats.{IsSeatOf};

use crate::page::{PageSeat, PageWords, word_at};
use crate::rule::{Begins, Checks, Follows};
use std::sync::Wait;
use std::thread;

// Loads the first word.
fn begin<const N: usize>(page: &PageWords<N>, reader: &mut PageSeat, place: usize) -> u64
    requires { IsSeatOf N page.now.table_id reader.old place }
    ensures own { reader.new.table_id ≡ reader.old.table_id }
    ensures begun { (begun : Versions)
        × (reader.new.me.0 ≡ reading reader.old.me.0.seen reader.old.me.0.loads place begun (result ∷ [])) }
{
    page.load::<Begins<N>>(reader, word_at::<N>(place, 0))
}

// Loads word i, the next.
fn follow<const N: usize>(page: &PageWords<N>, reader: &mut PageSeat, place: usize, i: usize) -> u64
    requires own { IsSeatOf N page.now.table_id reader.old place }
    requires place { reader.old.me.0.place ≡ place }
    requires word { (0 < i) × (i < N) × (length reader.old.me.0.bits ≡ i) }
    ensures own { reader.new.table_id ≡ reader.old.table_id }
    ensures followed { FollowsOf reader.old.me.0 result reader.new.me.0 }
{
    page.load::<Follows>(reader, word_at::<N>(place, i))
}

// Loads the first word again.
fn check<const N: usize>(page: &PageWords<N>, reader: &mut PageSeat, place: usize) -> u64
    requires own { IsSeatOf N page.now.table_id reader.old place }
    requires place { reader.old.me.0.place ≡ place }
    requires words { (length reader.old.me.0.bits ≡ N) × (word_in reader.old.me.0.bits % 2 ≡ 0) }
    ensures own { reader.new.table_id ≡ reader.old.table_id }
    ensures checked { ChecksOf N reader.old.me.0 result reader.new.me.0 }
{
    page.load::<Checks<N>>(reader, word_at::<N>(place, 0))
}

// Loads the other words, after the first.
fn follow_all<const N: usize>(
    page: &PageWords<N>,
    reader: &mut PageSeat,
    place: usize,
    first: u64,
) -> [u64; N]
    requires own { IsSeatOf N page.now.table_id reader.old place }
    requires begun { let v = reader.old.me.0 in v ≡ reading v.seen v.loads place v.begun (first ∷ []) }
    ensures own { reader.new.table_id ≡ reader.old.table_id }
    ensures words { let v = reader.old.me.0 in reader.new.me.0 ≡ reading v.seen v.loads place v.begun result }
    ensures first { (length result ≡ N) × (word_in result ≡ first) }
{
    let mut words = [first; N];
    for i in 1..N {
        words[i] = follow(page, reader, place, i);
    }
    words
}

// Loads the last version of the record at a place.
pub fn read<const N: usize, R: Wait>(
    rt: &R,
    page: &PageWords<N>,
    reader: &mut PageSeat,
    place: usize,
) -> [u64; N]
    requires { IsSeatOf N page.now.table_id reader.old place }
    ensures own { reader.new.table_id ≡ reader.old.table_id }
    ensures loaded { IsLoaded N place reader.old.me.0.seen reader.old.me.0.loads result reader.new.me.0 }
{
    for _ in rt.forever() {
        let first = begin(page, reader, place);
        if first % 2 == 0 {
            let words = follow_all(page, reader, place, first);
            if check(page, reader, place) == first {
                return words;
            }
        }
        // A version is being stored here.
        thread::yield_now();
    }
    unreachable!()
}
