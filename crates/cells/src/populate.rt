//! The cells that a run begins with.
ghost use Rattle.std.specs.Prelude.{◌≡◌, ◌*◌, ◌<◌, ◌≤◌, ◌++◌, All, List, length, replicate, OnOk, IfOk, IfErr};
ghost use Rattle.money.specs.declared.refusal.Refusal.TheVariants.{OutOfMemory};
ghost use Rattle.atomic_table.specs.Seated.{TableId};
ghost use Rattle.cells_pages.specs.Rule.{first_versions};
ghost use Rattle.cells_holders.specs.Opening.{seen_all, opened_with, AreFull};
ghost use Rattle.cells_holders.specs.Records.{PagesPen};
ghost use Rattle.cells.specs.Records.{both_pens};
ghost use Rattle.cells.specs.First.{absent_version, firsts};

use crate::both::{CELL_WORDS, Pen, Reader, WIDE_WORDS};
use crate::cells::{Cells, Newest, words};
use crate::first::{FirstPage, FirstVersions};
use crate::wide_first::FirstWideVersions;
use crate::wide_opening::open_wide;
use cells_holders::{OpeningOf, ReaderOf};
use cells_pages::PAGE_RECORDS;
use money::Refusal;
use std::alloc::Global;
use std::sync::Wait;

impl Cells {
    ghost use Rattle.cells.specs.First.{wide_firsts};

    /// A cell for each of these versions of narrow records, in their order, with the pen and this many readers. Each
    /// reader has seen the version. Costs a step a cell, and a step a reader and page of 4,096 cells. The versions are
    /// spent a page at a time: a page's memory is given back before its cells take theirs.
    ///
    /// # Errors
    ///
    /// `OutOfMemory`, and no other.
    pub fn new<R: Wait>(
        rt: &R,
        alloc: Global,
        first: FirstVersions,
        readers: usize,
    ) -> Result<(Cells, Pen, Vec<Reader>), Refusal>
        ensures cells { IfOk result (λ made. (length made.0.narrow ≡ length first) × (length made.0.wide ≡ 0)) }
        ensures pen { IfOk result (λ made. made.1 ≡ record { cells = made.0; all = firsts first }) }
        ensures readers { IfOk result (λ made. (length made.2.items ≡ readers)
            × All (λ reader. reader ≡ seen_all made.1) made.2.items) }
        ensures only_memory { IfErr result (λ refusal. refusal ≡ OutOfMemory) }
    {
        Cells::with_wide(rt, alloc, first, FirstWideVersions::new(alloc), readers)
    }

    /// The same, with a cell for each of these versions of wide records behind those of the narrow ones. They are spent
    /// a page at a time too.
    ///
    /// # Errors
    ///
    /// `OutOfMemory`, and no other.
    pub fn with_wide<R: Wait>(
        _rt: &R,
        alloc: Global,
        first: FirstVersions,
        wide: FirstWideVersions,
        readers: usize,
    ) -> Result<(Cells, Pen, Vec<Reader>), Refusal>
        ensures cells { IfOk result (λ made. (length made.0.narrow ≡ length first)
            × (length made.0.wide ≡ length wide)) }
        ensures pen { IfOk result (λ made. made.1
            ≡ record { cells = made.0; all = firsts first ++ wide_firsts wide }) }
        ensures readers { IfOk result (λ made. (length made.2.items ≡ readers)
            × All (λ reader. reader ≡ seen_all made.1) made.2.items) }
        ensures only_memory { IfErr result (λ refusal. refusal ≡ OutOfMemory) }
    {
        let first_wide = first.len();
        let count = first_wide
            .checked_add(wide.len())
            .ok_or(Refusal::OutOfMemory)?;
        let (list, pen, narrow) = open_all(alloc, first, readers)?.finish();
        let (wide_list, wide_pen, wide) = open_wide(alloc, wide, readers)?.finish();
        let readers = paired(alloc, narrow, wide)?;
        let cells = Cells::of_lists(list, wide_list, first_wide, count);
        Ok((cells, Pen::of(pen, wide_pen), readers))
    }
}

// The readers of all records: each of one of the narrow ones and one of the wide ones.
fn paired(
    alloc: Global,
    narrow: Vec<ReaderOf<CELL_WORDS>>,
    wide: Vec<ReaderOf<WIDE_WORDS>>,
) -> Result<Vec<Reader>, Refusal>
    requires { length narrow.items ≡ length wide.items }
    ensures count { IfOk result (λ readers. length readers.items ≡ length narrow.items) }
    ensures seen { (a : PagesPen) → (b : PagesPen) → All (λ r. r ≡ seen_all a) narrow.items
        → All (λ r. r ≡ seen_all b) wide.items
        → IfOk result (λ readers. All (λ r. r ≡ seen_all (both_pens a b)) readers.items) }
    ensures memory { IfErr result (λ refusal. refusal ≡ OutOfMemory) }
{
    let (mut narrow, mut wide) = (narrow, wide);
    let mut readers = Vec::new(alloc);
    while let Some(reader) = narrow.pop() {
        let Some(wide) = wide.pop() else {
            unreachable!()
        };
        readers.push(Reader::of(reader, wide))?;
    }
    Ok(readers)
}

// The pages, in the order of the versions.
fn open_all(
    alloc: Global,
    first: FirstVersions,
    readers: usize,
) -> Result<OpeningOf<CELL_WORDS>, Refusal>
    ensures cells { IfOk result (λ made. length made.written.cells ≡ length first) }
    ensures all { IfOk result (λ made. made.written.all ≡ firsts first) }
    ensures readers { IfOk result (λ made. made.readers ≡ readers) }
    ensures only_memory { IfErr result (λ refusal. refusal ≡ OutOfMemory) }
{
    let mut opening = OpeningOf::new(alloc, readers)?;
    let blank = blank(alloc)?;
    let mut laid = Vec::new(alloc);
    for page in first.into_pages() {
        opening = add(alloc, opening, page, &blank, &mut laid)?;
    }
    Ok(opening)
}

// Adds a page of cells, which begin with these versions: where all are absent, by a block that was laid before.
fn add(
    alloc: Global,
    opening: OpeningOf<CELL_WORDS>,
    page: FirstPage,
    blank: &Vec<u64>,
    laid: &mut Vec<u64>,
) -> Result<OpeningOf<CELL_WORDS>, Refusal>
    requires full { AreFull opening.written.cells }
    requires page { (0 < length page) × (length page ≤ 4096) }
    requires wide { length blank.now.items ≡ 4096 * 8 }
    requires blank { first_versions 8 blank.now.items ≡ firsts (replicate 4096 absent_version) }
    ensures ok { IfOk result (λ made. (cells : List TableId) × (length cells ≡ length (firsts page))
        × (made ≡ opened_with opening cells (firsts page))) }
    ensures only_memory { IfErr result (λ refusal. refusal ≡ OutOfMemory) }
{
    if page.is_blank() {
        return opening.add(alloc, blank);
    }
    lay_page(page, laid)?;
    opening.add(alloc, laid)
}

// The words of a page of absent records.
fn blank(alloc: Global) -> Result<Vec<u64>, Refusal>
    ensures wide { IfOk result (λ laid. length laid.items ≡ 4096 * 8) }
    ensures blank { IfOk result (λ laid. first_versions 8 laid.items ≡ firsts (replicate 4096 absent_version)) }
    ensures memory { IfErr result (λ refusal. refusal ≡ OutOfMemory) }
{
    let mut laid = Vec::new(alloc);
    lay_page(FirstPage::absent(alloc, PAGE_RECORDS), &mut laid)?;
    Ok(laid)
}

// The words of a page's versions, in place of what was laid before. The page is spent.
fn lay_page(page: FirstPage, laid: &mut Vec<u64>) -> Result<(), Refusal>
    ensures wide { OnOk result (length laid.new.items ≡ length page * 8) }
    ensures ok { OnOk result (first_versions 8 laid.new.items ≡ firsts page) }
    ensures memory { IfErr result (λ refusal. refusal ≡ OutOfMemory) }
{
    let versions = page.into_versions()?;
    lay(&versions, laid)
}

// The words of these versions, one after another, in place of what was laid before.
fn lay(block: &[Newest], laid: &mut Vec<u64>) -> Result<(), Refusal>
    ensures wide { OnOk result (length laid.new.items ≡ length block.now * 8) }
    ensures ok { OnOk result (first_versions 8 laid.new.items ≡ firsts block.now) }
    ensures memory { IfErr result (λ refusal. refusal ≡ OutOfMemory) }
{
    laid.clear();
    for newest in block {
        laid.extend_from_slice(&words(newest.word, newest.payload))?;
    }
    Ok(())
}
