//! Two threads at the cells of pages: one stores a narrow record and a wide one again and again, while the other reads
//! them, and one of each kind beside them.
ghost use Rattle.std.specs.Prelude.{◌≡◌, ℕ, ◌+◌, ◌*◌, ◌<◌, ◌^◌, All, length, IfOk};
ghost use Rattle.tidword.specs.TidWord.{tid_of};
ghost use Rattle.cells.specs.Records.{at};
ghost use Rattle.cells.specs.Versions.{last_tid};

use cells::{
    Cells, FirstVersions, FirstWideVersions, Newest, Pen, Reader, Version, WideNewest, WideVersion,
};
use money::Refusal;
use std::alloc::Global;
use std::sync::Wait;
use std::test::Fail;
use std::thread::{Threads, join};
use tidword::TidWord;

/// How often each thread stores or reads.
const TURNS: u64 = 100_000;

/// How many cells of each kind there are. A page has 4,096, so of either kind the last two are in a second one. The
/// wide records come behind all narrow ones.
const CELLS: u32 = 4_098;

/// The cells, their pen, and a reader for a thread and one for the end.
#[derive(Drop)]
struct Pages {
    cells: Cells,
    pen: Pen,
    reader: Reader,
    last: Reader,
}

/// The version of a narrow record that is stored in a turn, where that of turn 0 is the first: its payload is the
/// record's number, and no other record's.
fn version_of(record: u32, turn: u64) -> Version
    requires { turn < 2 ^ 61 }
    ensures word { result.word ≡ turn * 8 + 2 }
{
    Version {
        record,
        word: TidWord::new(turn * 8 + 2),
        payload: [mark_of(record, turn); 7],
    }
}

/// The same of a wide record.
fn wide_of(record: u32, turn: u64) -> WideVersion
    requires { turn < 2 ^ 61 }
    ensures word { result.word ≡ turn * 8 + 2 }
{
    WideVersion {
        record,
        word: TidWord::new(turn * 8 + 2),
        payload: [mark_of(record, turn); 63],
    }
}

/// The word that a payload consists of.
fn mark_of(record: u32, turn: u64) -> u64 {
    if turn == 0 { u64::from(record) } else { turn }
}

/// The turn of a version.
fn turn_of(word: TidWord) -> u64
    ensures { result < 2 ^ 61 }
{
    word.word() / 8
}

/// The versions that the narrow cells begin with.
fn first_versions(alloc: Global) -> Result<FirstVersions, Refusal>
    ensures count { IfOk result (λ first. length first ≡ 4098) }
    ensures zero { IfOk result (All (λ newest. tid_of newest.word ≡ 0)) }
{
    let mut first = FirstVersions::absent(alloc, CELLS as usize)?;
    for record in 0..CELLS {
        let Version { word, payload, .. } = version_of(record, 0);
        first.set(record as usize, Newest { word, payload })?;
    }
    Ok(first)
}

/// Those of the wide cells.
fn first_wide(alloc: Global) -> Result<FirstWideVersions, Refusal>
    ensures count { IfOk result (λ first. length first ≡ 4098) }
    ensures zero { IfOk result (All (λ newest. tid_of newest.word ≡ 0)) }
{
    let mut first = FirstWideVersions::new(alloc);
    for record in 0..CELLS {
        let WideVersion { word, payload, .. } = wide_of(CELLS + record, 0);
        first.push(WideNewest { word, payload })?;
    }
    Ok(first)
}

/// The cells, with their pen and two readers.
fn made<R: Wait>(rt: &R, alloc: Global) -> Result<(Cells, Pen, Vec<Reader>), Refusal>
    ensures count { IfOk result (λ p. (length p.0.narrow ≡ 4098) × (length p.0.wide ≡ 4098)) }
    ensures pen { IfOk result (λ p. p.1.cells ≡ p.0) }
    ensures readers { IfOk result (λ p. All (λ reader. reader.cells ≡ p.0) p.2.items) }
    ensures first { IfOk result (λ p. (n : ℕ) → n < 8196 → last_tid (at p.1.all n) ≡ 0) }
{
    let first = first_versions(alloc)?;
    let wide = first_wide(alloc)?;
    Cells::with_wide(rt, alloc, first, wide, 2)
}

fn open<R: Wait>(rt: &R, alloc: Global) -> Result<Pages, Fail>
    ensures count { IfOk result (λ p. (length p.cells.narrow ≡ 4098) × (length p.cells.wide ≡ 4098)) }
    ensures pen { IfOk result (λ p. p.pen.cells ≡ p.cells) }
    ensures readers { IfOk result (λ p. (p.reader.cells ≡ p.cells) × (p.last.cells ≡ p.cells)) }
    ensures first { IfOk result (λ p. (n : ℕ) → n < 8196 → last_tid (at p.pen.all n) ≡ 0) }
{
    let (cells, pen, mut readers) = made(rt, alloc)?;
    let reader = readers.pop().ok_or("reader")?;
    let last = readers.pop().ok_or("reader")?;
    Ok(Pages {
        cells,
        pen,
        reader,
        last,
    })
}

/// Stores the versions of a record of all turns, of a narrow one and of the wide one at the same place.
fn store_turns<R: Wait>(rt: &R, cells: &Cells, mut pen: Pen, stored: u32)
    requires own { pen.cells ≡ cells.now }
    requires record { (length cells.now.narrow ≡ 4098) × (length cells.now.wide ≡ 4098) × (stored < 4098) }
    requires first { (last_tid (at pen.all stored) ≡ 0) × (last_tid (at pen.all (4098 + stored)) ≡ 0) }
{
    for turn in 1..TURNS {
        let version = version_of(stored, turn);
        cells.store(rt, &mut pen, stored, version.word, version.payload);
        let wide = wide_of(CELLS + stored, turn);
        cells.store_wide(rt, &mut pen, CELLS + stored, wide.word, &wide.payload);
    }
}

/// Whether versions of a narrow and of a wide record that are read are those of a turn that may come: where they are
/// stored, one no earlier than these; elsewhere the first.
fn may_come(version: &Version, wide: &WideVersion, is_stored: bool, last: (u64, u64)) -> bool {
    let turns = (turn_of(version.word), turn_of(wide.word));
    let is_next = if is_stored {
        last.0 <= turns.0 && last.1 <= turns.1
    } else {
        turns == (0, 0)
    };
    is_next
        && *version == version_of(version.record, turns.0)
        && *wide == wide_of(wide.record, turns.1)
}

/// Reads the records at two places in turn, of which a thread stores one, and tells whether all versions are ones that
/// may come.
fn read_turns<R: Wait>(rt: &R, cells: &Cells, mut reader: Reader, stored: u32, beside: u32) -> bool
    requires own { reader.cells ≡ cells.now }
    requires count { (length cells.now.narrow ≡ 4098) × (length cells.now.wide ≡ 4098) }
    requires records { (stored < 4098) × (beside < 4098) }
{
    let mut last = (0, 0);
    let mut is_well = true;
    for look in 0..TURNS {
        let place = if look % 2 == 0 { beside } else { stored };
        let version = cells.read(rt, &mut reader, place);
        let wide = cells.read_wide(rt, &mut reader, CELLS + place);
        is_well = is_well && may_come(&version, &wide, place == stored, last);
        if place == stored {
            last = (turn_of(version.word), turn_of(wide.word));
        }
    }
    is_well
}

fn both<R: Threads + Wait + Sync>(
    rt: &R,
    cells: &Cells,
    pen: Pen,
    reader: Reader,
    stored: u32,
    beside: u32,
) -> bool
    requires own { (pen.cells ≡ cells.now) × (reader.cells ≡ cells.now) }
    requires count { (length cells.now.narrow ≡ 4098) × (length cells.now.wide ≡ 4098) }
    requires records { (stored < 4098) × (beside < 4098) }
    requires first { (last_tid (at pen.all stored) ≡ 0) × (last_tid (at pen.all (4098 + stored)) ≡ 0) }
{
    let (_, is_well) = join(
        rt,
        move || store_turns(rt, cells, pen, stored),
        move || read_turns(rt, cells, reader, stored, beside),
    );
    is_well
}

/// The versions of the narrow and of the wide record at a place.
type Pair = (Version, WideVersion);

/// Whether each version that was read is one that may come, and the versions at both places in the end.
#[derive(Clone, Copy, Debug, PartialEq, Eq)]
struct Outcome {
    is_well: bool,
    stored: Pair,
    beside: Pair,
}

/// The versions at a place.
fn pair_at<R: Wait>(rt: &R, cells: &Cells, reader: &mut Reader, place: u32) -> Pair
    requires own { reader.old.cells ≡ cells.now }
    requires count { (length cells.now.narrow ≡ 4098) × (length cells.now.wide ≡ 4098) }
    requires place { place < 4098 }
    ensures { reader.new.cells ≡ cells.now }
{
    let version = cells.read(rt, reader, place);
    let wide = cells.read_wide(rt, reader, CELLS + place);
    (version, wide)
}

fn outcome_of<R: Threads + Wait + Sync>(
    rt: &R,
    alloc: Global,
    stored: u32,
    beside: u32,
) -> Result<Outcome, Fail>
    requires records { (stored < 4098) × (beside < 4098) }
{
    let Pages {
        cells,
        pen,
        reader,
        mut last,
    } = open(rt, alloc)?;
    let is_well = both(rt, &cells, pen, reader, stored, beside);
    let stored = pair_at(rt, &cells, &mut last, stored);
    let beside = pair_at(rt, &cells, &mut last, beside);
    Ok(Outcome {
        is_well,
        stored,
        beside,
    })
}

/// What is to come of it: the last versions at the one place, and the only ones at the other.
fn wanted(stored: u32, beside: u32) -> Outcome
    requires { (stored < 4098) × (beside < 4098) }
{
    let last = TURNS - 1;
    let turn = if beside == stored { last } else { 0 };
    Outcome {
        is_well: true,
        stored: (version_of(stored, last), wide_of(CELLS + stored, last)),
        beside: (version_of(beside, turn), wide_of(CELLS + beside, turn)),
    }
}

/// What comes of it where the first of two records is stored, and where the second is.
fn both_ways<R: Threads + Wait + Sync>(
    rt: &R,
    alloc: Global,
    first: u32,
    second: u32,
) -> Result<(Outcome, Outcome), Fail>
    requires records { (first < 4098) × (second < 4098) }
{
    let one = outcome_of(rt, alloc, first, second)?;
    let other = outcome_of(rt, alloc, second, first)?;
    Ok((one, other))
}

#[test]
fn two_threads_at_one_cell(rt: HostRuntime) -> Result<(), Fail> {
    let outcome = outcome_of(&rt, rt.alloc(), 0, 0)?;
    assert_eq!(rt; outcome, wanted(0, 0));
    Ok(())
}

#[test]
fn two_threads_at_neighbours(rt: HostRuntime) -> Result<(), Fail> {
    let outcomes = both_ways(&rt, rt.alloc(), 1, 2)?;
    assert_eq!(rt; outcomes, (wanted(1, 2), wanted(2, 1)));
    Ok(())
}

/// The cell at place 4,095 is the last of a page.
#[test]
fn two_threads_at_the_border_of_two_pages(rt: HostRuntime) -> Result<(), Fail> {
    let outcomes = both_ways(&rt, rt.alloc(), 4_095, 4_096)?;
    assert_eq!(rt; outcomes, (wanted(4_095, 4_096), wanted(4_096, 4_095)));
    Ok(())
}

/// The last narrow cell and the first wide one: places 4,097 and 0.
#[test]
fn two_threads_at_the_border_of_two_kinds(rt: HostRuntime) -> Result<(), Fail> {
    let outcomes = both_ways(&rt, rt.alloc(), 4_097, 0)?;
    assert_eq!(rt; outcomes, (wanted(4_097, 0), wanted(0, 4_097)));
    Ok(())
}
