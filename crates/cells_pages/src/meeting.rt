//! How a reader meets the pen at a record: it then knows all versions of it.
//!
//! A method of a ruled table is dear to prove where it is called, so each is called in one small function.
ghost use Rattle.std.specs.Prelude.{◌≡◌, ◌<◌, [], length, slice_set};
ghost use Rattle.cells_pages.specs.Versions.{StartsWith, AreVersions, newest, word_in};
ghost use Rattle.cells_pages.specs.Versions.{at};
ghost use Rattle.cells_pages.specs.Views.{pen_view, told_pen, sight, IsPen, IsReader, IsToldPen};
ghost use Rattle.cells_pages.specs.Plays.{having_met};
ghost use Rattle.cells_pages.specs.Seats.{IsSeatOf};

use crate::page::{PageSeat, PageWords, word_at};
use crate::rule::{Compares, Gives, Hears, Tells};

// A reader tells what it knows, by a seat of its own.
fn tell<const N: usize>(page: &PageWords<N>, reader: &mut PageSeat) -> PageSeat
    requires { (reader.old.table_id ≡ page.now.table_id) × (0 < page.now.table_id.words) }
    ensures { (result.table_id ≡ page.now.table_id)
        × (result.me ≡ (sight reader.old.me.0.seen reader.old.me.0.loads, [])) }
{
    page.split_seat::<Tells>(reader)
}

// The pen is told it.
fn hear<const N: usize>(page: &PageWords<N>, pen: &mut PageSeat, told: PageSeat)
    requires own { (pen.old.table_id ≡ page.now.table_id) × (0 < page.now.table_id.words) }
    requires pen { IsPen pen.old.me.0 }
    requires told { (told.table_id ≡ page.now.table_id) × (told.me.1 ≡ []) }
    ensures own { pen.new.table_id ≡ pen.old.table_id }
    ensures heard { pen.new.me.0 ≡ told_pen pen.old.me.0.seen told.me.0.seen told.me.0.loads 0 }
{
    page.join_seat::<Hears>(pen, told);
}

// The pen loads the first word of the record at a place, and compares.
fn compare<const N: usize>(page: &PageWords<N>, pen: &mut PageSeat, place: usize) -> u64
    requires own { IsSeatOf N page.now.table_id pen.old place }
    requires told { IsToldPen pen.old.me.0 }
    ensures own { pen.new.table_id ≡ pen.old.table_id }
    ensures place { let v = pen.old.me.0 in pen.new.me.0 ≡ told_pen v.seen v.told v.told_loads place }
    ensures newest { result ≡ word_in (newest (at pen.old.me.0.seen place)) }
    ensures grows { StartsWith (at pen.old.me.0.seen place) (at pen.old.me.0.told place) }
    ensures sound { AreVersions N (at pen.old.me.0.seen place) }
{
    page.load::<Compares<N>>(pen, word_at::<N>(place, 0))
}

// The reader's seat, by what the pen was told, with all versions of the record at the pen's place.
fn give<const N: usize>(page: &PageWords<N>, pen: &mut PageSeat) -> PageSeat
    requires own { (pen.old.table_id ≡ page.now.table_id) × (0 < page.now.table_id.words) }
    requires told { IsToldPen pen.old.me.0 }
    requires within { pen.old.me.0.place < length pen.old.me.0.told }
    ensures own { pen.new.table_id ≡ pen.old.table_id }
    ensures pen { pen.new.me.0 ≡ pen_view pen.old.me.0.seen }
    ensures given { (result.table_id ≡ pen.old.table_id) × (result.me.0 ≡ having_met pen.old.me.0) }
{
    page.split_seat::<Gives>(pen)
}

// Lets a reader see all versions of the record at a place, and gives the TID word of the last.
pub fn meet<const N: usize>(
    page: &PageWords<N>,
    pen: &mut PageSeat,
    reader: &mut PageSeat,
    place: usize,
) -> u64
    requires own { IsSeatOf N page.now.table_id pen.old place × IsSeatOf N page.now.table_id reader.old place }
    requires pen { IsPen pen.old.me.0 }
    ensures own { (pen.new.table_id ≡ pen.old.table_id) × (reader.new.table_id ≡ reader.old.table_id) }
    ensures pen { pen.new.me.0 ≡ pen.old.me.0 }
    ensures reader { reader.new.me.0 ≡ sight
        (slice_set reader.old.me.0.seen place (at pen.old.me.0.seen place)) reader.old.me.0.loads }
    ensures grows { StartsWith (at pen.old.me.0.seen place) (at reader.old.me.0.seen place) }
    ensures sound { AreVersions N (at pen.old.me.0.seen place) }
    ensures newest { result ≡ word_in (newest (at pen.old.me.0.seen place)) }
{
    let told = tell(page, reader);
    hear(page, pen, told);
    let word = compare(page, pen, place);
    *reader = give(page, pen);
    word
}
