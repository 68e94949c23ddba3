//! Two narrow cells, of which the second is there, and two wide ones.
ghost use Rattle.std.specs.Prelude.{◌≡◌, length, IfOk};

use cells::{Cells, FirstVersions, FirstWideVersions, Newest, Reader, WideNewest};
use money::Payload;
use std::alloc::{AllocError, Global};
use std::sync::Wait;
use std::test::Fail;
use tidword::TidWord;

/// What record 1 begins with. Record 0 is absent.
pub(crate) const NARROW: Payload = [1, 2, 3, 4, 5, 6, 7];

/// What the wide records begin with: records 2 and 3.
const WIDE: [WideNewest; 2] = [
    WideNewest {
        word: TidWord::POPULATED,
        payload: [2; 63],
    },
    WideNewest {
        word: TidWord::POPULATED,
        payload: [3; 63],
    },
];

/// These, as the cells are made of them.
fn wide_versions(alloc: Global) -> Result<FirstWideVersions, AllocError>
    ensures { IfOk result (λ wide. length wide ≡ 2) }
{
    let mut wide = FirstWideVersions::new(alloc);
    wide.push(WIDE[0])?;
    wide.push(WIDE[1])?;
    Ok(wide)
}

/// The cells, and a reader.
#[derive(Drop)]
pub(crate) struct Stage {
    pub(crate) cells: Cells,
    pub(crate) reader: Reader,
}

pub(crate) fn open<R: Wait>(rt: &R, alloc: Global) -> Result<Stage, Fail>
    ensures narrow { IfOk result (λ s. length s.cells.narrow ≡ 2) }
    ensures wide { IfOk result (λ s. length s.cells.wide ≡ 2) }
    ensures reader { IfOk result (λ s. s.reader.cells ≡ s.cells) }
{
    let mut first = FirstVersions::absent(alloc, 2)?;
    first.set(
        1,
        Newest {
            word: TidWord::POPULATED,
            payload: NARROW,
        },
    )?;
    let wide = wide_versions(alloc)?;
    let (cells, _, mut readers) = Cells::with_wide(rt, alloc, first, wide, 1)?;
    let reader = readers.pop().ok_or("reader")?;
    Ok(Stage { cells, reader })
}
