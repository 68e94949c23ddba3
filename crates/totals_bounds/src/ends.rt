//! The least and the greatest number that has a row, among the numbers of one district. The row of the number n is in
//! the record `first + n - 1`.

ghost use Rattle.std.specs.Prelude.{◌≡◌, ℕ, ◌≤◌, ◌<◌, ◌^◌, true, is_some, max, length};
ghost use Rattle.tables.specs.Sizes.{IsNumber};
ghost use Rattle.cells.specs.Records.{cell_count, held_by};
ghost use Rattle.totals_bounds.specs.Ends.{is_there};

use cells::{Cells, Pen};

/// Whether a record is there. None is at a number beyond the records.
fn has_row(cells: &Cells, pen: &mut Pen, number: usize) -> bool
    requires own { pen.old.cells ≡ cells.now }
    requires few { cell_count cells.now < 2 ^ 32 }
    ensures pen { pen.new ≡ pen.old }
    ensures present { result ≡ is_some (held_by pen.old number) }
{
    pen.knows_its_cells();
    if number >= cells.len() {
        return false;
    }
    cells.is_present(pen, number as u32)
}

/// Whether the row of a number is there.
fn is_there(cells: &Cells, pen: &mut Pen, first: u32, number: u32) -> bool
    requires own { pen.old.cells ≡ cells.now }
    requires few { cell_count cells.now < 2 ^ 32 }
    requires number { 1 ≤ number }
    ensures pen { pen.new ≡ pen.old }
    ensures there { result ≡ is_there (held_by pen.old) first number }
{
    has_row(cells, pen, first as usize + (number as usize - 1))
}

/// The least number from `low` to `high` whose row is there, 0 where none is. A step for each number up to that.
pub fn least_there(cells: &Cells, pen: &mut Pen, first: u32, low: u32, high: u32) -> u32
    requires own { pen.old.cells ≡ cells.now }
    requires few { cell_count cells.now < 2 ^ 32 }
    ensures pen { pen.new ≡ pen.old }
    ensures there { 1 ≤ result → is_there (held_by pen.old) first result ≡ true }
    ensures least { (n : ℕ) → 1 ≤ n → low ≤ n → n ≤ high → is_there (held_by pen.old) first n ≡ true
        → IsNumber n result }
    ensures limit { result ≤ high }
{
    for place in low.saturating_sub(1)..high {
        if is_there(cells, pen, first, place + 1) {
            return place + 1;
        }
    }
    0
}

/// The greatest number up to `high` whose row is there, `low` where none above that is. A step for each number down to
/// that.
pub fn greatest_there(cells: &Cells, pen: &mut Pen, first: u32, low: u32, high: u32) -> u32
    requires own { pen.old.cells ≡ cells.now }
    requires few { cell_count cells.now < 2 ^ 32 }
    ensures pen { pen.new ≡ pen.old }
    ensures there { low < result → is_there (held_by pen.old) first result ≡ true }
    ensures greatest { (n : ℕ) → n ≤ high → is_there (held_by pen.old) first n ≡ true → low ≤ n → n ≤ result }
    ensures floor { low ≤ result }
    ensures limit { result ≤ max low high }
{
    let mut number = high;
    while number > low {
        if is_there(cells, pen, first, number) {
            return number;
        }
        number -= 1;
    }
    low
}

/// The least number whose row is there, where a number's row may have changed, and these were the least and the
/// greatest before.
pub fn least_after(
    cells: &Cells,
    pen: &mut Pen,
    first: u32,
    number: u32,
    least: u32,
    greatest: u32,
) -> u32
    requires own { pen.old.cells ≡ cells.now }
    requires few { cell_count cells.now < 2 ^ 32 }
    requires number { 1 ≤ number }
    ensures pen { pen.new ≡ pen.old }
    ensures there { 1 ≤ result → is_there (held_by pen.old) first result ≡ true }
    ensures number { is_there (held_by pen.old) first number ≡ true → IsNumber number result }
    ensures others { (n : ℕ) → is_there (held_by pen.old) first n ≡ true → IsNumber n least → n ≤ greatest
        → IsNumber n result }
    ensures limit { result ≤ max number greatest }
{
    if !is_there(cells, pen, first, number) {
        return least_there(cells, pen, first, least, greatest);
    }
    let low = if least == 0 {
        number
    } else {
        least.min(number)
    };
    least_there(cells, pen, first, low, greatest.max(number))
}

/// The greatest number whose row is there, where a number's row may have changed, and this was the greatest before;
/// none below `low` has a row.
pub fn greatest_after(
    cells: &Cells,
    pen: &mut Pen,
    first: u32,
    number: u32,
    low: u32,
    greatest: u32,
) -> u32
    requires own { pen.old.cells ≡ cells.now }
    requires few { cell_count cells.now < 2 ^ 32 }
    requires number { 1 ≤ number }
    requires low { 1 ≤ low → is_there (held_by pen.old) first low ≡ true }
    ensures pen { pen.new ≡ pen.old }
    ensures there { 1 ≤ result → is_there (held_by pen.old) first result ≡ true }
    ensures number { is_there (held_by pen.old) first number ≡ true → low ≤ number → number ≤ result }
    ensures others { (n : ℕ) → is_there (held_by pen.old) first n ≡ true → low ≤ n → n ≤ greatest → n ≤ result }
    ensures limit { result ≤ max low (max number greatest) }
{
    let high = if is_there(cells, pen, first, number) {
        number.max(greatest)
    } else {
        greatest
    };
    greatest_there(cells, pen, first, low, high)
}

/// The greatest number whose row is there, where a number's row may have changed, this was the greatest before, and
/// `least` is now the least, 0 where none is.
pub fn greatest_beside(
    cells: &Cells,
    pen: &mut Pen,
    first: u32,
    number: u32,
    least: u32,
    greatest: u32,
) -> u32
    requires own { pen.old.cells ≡ cells.now }
    requires few { cell_count cells.now < 2 ^ 32 }
    requires number { 1 ≤ number }
    requires least { 1 ≤ least → is_there (held_by pen.old) first least ≡ true }
    ensures pen { pen.new ≡ pen.old }
    ensures there { 1 ≤ result → is_there (held_by pen.old) first result ≡ true }
    ensures number { is_there (held_by pen.old) first number ≡ true → IsNumber number least → number ≤ result }
    ensures others { (n : ℕ) → is_there (held_by pen.old) first n ≡ true → IsNumber n least → n ≤ greatest
        → n ≤ result }
    ensures limit { result ≤ max least (max number greatest) }
{
    if least == 0 {
        return 0;
    }
    greatest_after(cells, pen, first, number, least, greatest)
}
