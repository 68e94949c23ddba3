//! Measures record cells. `bench_cells CELLS TURNS` makes that many narrow cells (1 to 100,000,000), and as many wide
//! ones. It prints the bytes of a narrow and a wide one, and what a call costs: the mean over TURNS calls, in
//! nanoseconds. With no words it does nothing.
#![tactic(auto)]

ghost use Rattle.std.specs.Prelude.{◌≡◌, ◌*◌, ◌<◌, ◌≤◌, length, IfOk};
ghost use Rattle.cells.specs.Versions.{last_tid};
ghost use Rattle.cells.specs.Records.{at};

use anyhow::bail;
use cells::{Cells, FirstVersions, FirstWideVersions, Pen, Reader, WideNewest};
use std::rt::{Clock, Env, Files};
use std::sync::Wait;
use std::time::Instant;
use std::{env, fs};
use tidword::TidWord;

/// The most cells of a kind.
const MAX_CELLS: u32 = 100_000_000;

/// Bytes of a page of memory.
const PAGE: u64 = 4096;

/// A step between records that scatters them: a prime, so that all of them come.
const SCATTERED: u32 = 148_381;

/// What a wide cell begins with: an absent record.
const ABSENT: WideNewest = WideNewest {
    word: TidWord::ABSENT,
    payload: [0; 63],
};

/// The cells and their holders.
#[derive(Drop)]
struct Bench {
    cells: Cells,
    pen: Pen,
    reader: Reader,
    /// How many cells of each kind there are, so that this is the first wide record.
    count: u32,
    /// The place that is read next, and how far on the one after it is.
    next: u32,
    stride: u32,
    /// The next TID of record 0 and of the first wide one is 8 times this.
    turn: u64,
    ghost counted: { (length cells.narrow ≡ count) × (length cells.wide ≡ count) × (count ≤ 100000000) },
    ghost own: { (pen.cells ≡ cells) × (reader.cells ≡ cells) },
    ghost there: { (next < count) × (stride < count) },
    ghost larger: { last_tid (at pen.all 0) < turn * 8 },
    ghost larger_wide: { last_tid (at pen.all count) < turn * 8 },
}

/// What is measured: a read of the next record, a store in the first record, or a read of the first record and whether
/// its version is the latest; and the same of wide records.
#[derive(Clone, Copy)]
enum Call {
    Read,
    Store,
    ReadAndMeet,
    WideRead,
    WideStore,
    WideReadAndMeet,
}

impl Bench {
    fn read<R: Wait>(&mut self, rt: &R) {
        self.cells.read(rt, &mut self.reader, self.next);
        self.advance();
    }

    fn read_wide<R: Wait>(&mut self, rt: &R) {
        let number = self.count + self.next;
        self.cells.read_wide(rt, &mut self.reader, number);
        self.advance();
    }

    /// Goes on to the next place.
    fn advance(&mut self) {
        let next = self.next + self.stride;
        self.next = if next < self.count {
            next
        } else {
            next - self.count
        };
    }

    fn store<R: Wait>(&mut self, rt: &R) {
        if self.turn < 1 << 60 {
            let word = TidWord::new(self.turn * 8 + 2);
            self.cells.store(rt, &mut self.pen, 0, word, [self.turn; 7]);
            self.turn += 1;
        }
    }

    /// Stores a version all of whose words change.
    fn store_wide<R: Wait>(&mut self, rt: &R) {
        if self.turn < 1 << 60 {
            let word = TidWord::new(self.turn * 8 + 2);
            let data = [self.turn; 63];
            self.cells
                .store_wide(rt, &mut self.pen, self.count, word, &data);
            self.turn += 1;
        }
    }

    fn read_and_meet<R: Wait>(&mut self, rt: &R) {
        let version = self.cells.read(rt, &mut self.reader, 0);
        self.cells
            .meet(rt, &mut self.pen, &mut self.reader, &version);
    }

    fn read_and_meet_wide<R: Wait>(&mut self, rt: &R) {
        let version = self.cells.read_wide(rt, &mut self.reader, self.count);
        self.cells
            .meet_wide(rt, &mut self.pen, &mut self.reader, &version);
    }

    /// What a call costs, in tenths of a nanosecond.
    fn cost<R: Wait + Clock>(
        &mut self,
        rt: &R,
        call: Call,
        stride: u32,
        turns: u32,
    ) -> anyhow::Result<u128> {
        self.stride = stride % self.count;
        let start = Instant::now(rt)?;
        for _ in 0..turns {
            match call {
                Call::Read => self.read(rt),
                Call::Store => self.store(rt),
                Call::ReadAndMeet => self.read_and_meet(rt),
                Call::WideRead => self.read_wide(rt),
                Call::WideStore => self.store_wide(rt),
                Call::WideReadAndMeet => self.read_and_meet_wide(rt),
            }
        }
        let nanos = start.elapsed(rt)?.as_nanos();
        Ok(nanos.saturating_mul(10) / u128::from(turns.max(1)))
    }
}

/// The bytes of memory that this process has now.
fn resident<R: Files + AllocGlobal>(rt: &R) -> anyhow::Result<u64> {
    let text = fs::read_to_string(rt, "/proc/self/statm")?;
    let pages = text.split(' ').nth(1).unwrap_or("0").parse::<u64>()?;
    Ok(pages.saturating_mul(PAGE))
}

/// An eighth of a TID above those of record 0 and of the first wide one.
fn next_turn<R: Wait>(
    rt: &R,
    cells: &Cells,
    pen: &mut Pen,
    reader: &mut Reader,
    first_wide: u32,
) -> anyhow::Result<u64>
    requires own { (pen.old.cells ≡ cells.now) × (reader.old.cells ≡ cells.now) }
    requires first { (length cells.now.narrow ≡ first_wide) × (0 < first_wide) × (0 < length cells.now.wide) }
    ensures own { (pen.new.cells ≡ cells.now) × (reader.new.cells ≡ cells.now) }
    ensures larger { IfOk result (λ turn. last_tid (at pen.new.all 0) < turn * 8) }
    ensures larger_wide { IfOk result (λ turn. last_tid (at pen.new.all first_wide) < turn * 8) }
{
    let narrow = cells.learn(rt, pen, reader, 0);
    let wide = cells.learn(rt, pen, reader, first_wide);
    Ok(narrow.word().max(wide.word()) / 8 + 1)
}

/// The first versions of this many wide cells: absent ones.
fn first_wide<R: AllocGlobal>(rt: &R, count: u32) -> anyhow::Result<FirstWideVersions>
    ensures { IfOk result (λ first. length first ≡ count) }
{
    let mut first = FirstWideVersions::new(rt.alloc());
    for _ in 0..count {
        first.push(ABSENT)?;
    }
    Ok(first)
}

/// This many cells of each kind, with their holders, and the bytes of one of each.
fn bench_of<R: Wait + Files + AllocGlobal>(rt: &R, count: u32) -> anyhow::Result<(Bench, u64)> {
    if count == 0 || count > MAX_CELLS {
        bail!("CELLS is from 1 to {MAX_CELLS}");
    }
    let before = resident(rt)?;
    let first = FirstVersions::absent(rt.alloc(), count as usize)?;
    let wide = first_wide(rt, count)?;
    let (cells, mut pen, mut readers) = Cells::with_wide(rt, rt.alloc(), first, wide, 1)?;
    let bytes = resident(rt)?.saturating_sub(before);
    let Some(mut reader) = readers.pop() else {
        bail!("no reader");
    };
    let turn = next_turn(rt, &cells, &mut pen, &mut reader, count)?;
    let bench = Bench {
        cells,
        pen,
        reader,
        count,
        next: 0,
        stride: 0,
        turn,
    };
    Ok((bench, bytes / u64::from(count)))
}

/// This many cells, with their holders. Prints how many they are, the bytes of one, and how long they took to make.
fn made<R: Wait + Files + Clock + Print + AllocGlobal>(
    rt: &R,
    count: u32,
) -> anyhow::Result<Bench> {
    let start = Instant::now(rt)?;
    let (bench, bytes) = bench_of(rt, count)?;
    let millis = start.elapsed(rt)?.as_millis();
    println!(rt;
        "cells of each kind {}\nbytes a narrow and a wide cell {bytes}\nmade in {millis} ms",
        bench.count
    )?;
    Ok(bench)
}

/// The numbers of cells and of turns that the program's words ask for.
fn asked<R: Env + AllocGlobal>(rt: &R) -> anyhow::Result<Option<(u32, u32)>> {
    let mut words = env::args(rt)?.skip(1);
    let (Some(cells), Some(turns)) = (words.next(), words.next()) else {
        return Ok(None);
    };
    Ok(Some((cells.parse()?, turns.parse()?)))
}

fn main(rt: HostRuntime) -> anyhow::Result<()> {
    let Some((cells, turns)) = asked(&rt)? else {
        return Ok(());
    };
    let mut bench = made(&rt, cells)?;
    for (name, call, stride) in [
        ("hot read", Call::Read, 0),
        ("cold read", Call::Read, SCATTERED),
        ("store", Call::Store, 0),
        ("read and meet", Call::ReadAndMeet, 0),
        ("hot wide read", Call::WideRead, 0),
        ("cold wide read", Call::WideRead, SCATTERED),
        ("wide store", Call::WideStore, 0),
        ("wide read and meet", Call::WideReadAndMeet, 0),
    ] {
        let cost = bench.cost(&rt, call, stride, turns)?;
        println!(rt; "{name} {}.{} ns", cost / 10, cost % 10)?;
    }
    Ok(())
}
