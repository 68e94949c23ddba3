//! The pages of the wide records that a run begins with.
ghost use Rattle.std.specs.Prelude.{◌≡◌, ◌*◌, ◌<◌, ◌≤◌, List, length, OnOk, IfOk, IfErr};
ghost use Rattle.money.specs.declared.refusal.Refusal.TheVariants.{OutOfMemory};
ghost use Rattle.atomic_table.specs.Seated.{TableId};
ghost use Rattle.cells_pages.specs.Rule.{first_versions};
ghost use Rattle.cells_holders.specs.Opening.{opened_with, AreFull};
ghost use Rattle.cells.specs.First.{wide_firsts};

use crate::both::WIDE_WORDS;
use crate::wide::{WideNewest, wide_words};
use crate::wide_first::FirstWideVersions;
use cells_holders::OpeningOf;
use money::Refusal;
use std::alloc::Global;

// The pages, in the order of the versions.
pub(crate) fn open_wide(
    alloc: Global,
    wide: FirstWideVersions,
    readers: usize,
) -> Result<OpeningOf<WIDE_WORDS>, Refusal>
    ensures cells { IfOk result (λ made. length made.written.cells ≡ length wide) }
    ensures all { IfOk result (λ made. made.written.all ≡ wide_firsts wide) }
    ensures readers { IfOk result (λ made. made.readers ≡ readers) }
    ensures only_memory { IfErr result (λ refusal. refusal ≡ OutOfMemory) }
{
    let mut opening = OpeningOf::new(alloc, readers)?;
    let mut laid = Vec::new(alloc);
    for page in wide.into_pages() {
        lay_wide_page(page, &mut laid)?;
        opening = opening.add(alloc, &laid)?;
    }
    Ok(opening)
}

// The words of a page's versions, in place of what was laid before. The page is spent.
fn lay_wide_page(page: Vec<WideNewest>, laid: &mut Vec<u64>) -> Result<(), Refusal>
    ensures wide { OnOk result (length laid.new.items ≡ length page.items * 64) }
    ensures ok { OnOk result (first_versions 64 laid.new.items ≡ wide_firsts page.items) }
    ensures memory { IfErr result (λ refusal. refusal ≡ OutOfMemory) }
{
    lay_wide(&page, laid)
}

// The words of these versions, one after another, in place of what was laid before.
fn lay_wide(block: &[WideNewest], laid: &mut Vec<u64>) -> Result<(), Refusal>
    ensures wide { OnOk result (length laid.new.items ≡ length block.now * 64) }
    ensures ok { OnOk result (first_versions 64 laid.new.items ≡ wide_firsts block.now) }
    ensures memory { IfErr result (λ refusal. refusal ≡ OutOfMemory) }
{
    laid.clear();
    for newest in block {
        laid.extend_from_slice(&wide_words(newest.word, &newest.payload))?;
    }
    Ok(())
}
