//! The skewed draw NURand (TPC-C 2.1.6), which takes some numbers of a range far oftener than others, and its
//! constants.

ghost use Rattle.std.specs.Prelude.{◌≡◌, ◌≤◌};
ghost use Rattle.population_draws.specs.Drawn.{IsDrawnFrom, skewed};

/// A of NURand for last names (TPC-C 2.1.6).
pub const LAST_NAME_SPREAD: u32 = 255;

/// A of NURand for customers (TPC-C 2.1.6).
pub const CUSTOMER_SPREAD: u32 = 1_023;

/// A of NURand for items (TPC-C 2.1.6).
pub const ITEM_SPREAD: u32 = 8_191;

/// C of NURand for last names, where no other is chosen. Each C is from 0 to its A (TPC-C 2.1.6).
pub const LAST_NAME_CONSTANT: u32 = 100;

/// C of NURand for customers, where no other is chosen.
pub const CUSTOMER_CONSTANT: u32 = 500;

/// C of NURand for items, where no other is chosen.
pub const ITEM_CONSTANT: u32 = 4_000;

/// NURand(A, x, y) of the draws a, from 0 to A, and b, from x to y: `(((a | b) + C) % (y - x + 1)) + x`
/// (TPC-C 2.1.6), a number from x to y.
pub fn nurand(a: u32, b: u32, x: u32, y: u32, c: u32) -> u32
    requires { x ≤ y }
    ensures value { result ≡ skewed a b x y c }
    ensures range { IsDrawnFrom x y result }
{
    let mixed = u64::from(a | b) + u64::from(c);
    let width = u64::from(y - x) + 1;
    (mixed % width) as u32 + x
}
