//! The lines of an order, as one value.

ghost use Rattle.std.specs.Prelude.{◌≡◌, IfOk};

use std::alloc::AllocError;
use std::marker::Model;

/// The lines of an order, in their order. Contracts see the list of them.
#[derive(Debug, Drop)]
pub struct Lines<T> {
    lines: Vec<T>,
}

impl<T> Model for Lines<T> {
    ghost use Rattle.std.specs.Prelude.{List};

    ghost Value = { List T };

    ghost view = { λ l. l.lines.items };
}

impl<T> Lines<T> {
    /// These lines.
    pub fn new(lines: Vec<T>) -> Lines<T>
        ensures { result ≡ lines.items }
    {
        Lines { lines }
    }

    /// A copy. Costs a pass over the lines, and memory for them.
    pub fn copied(&self) -> Result<Lines<T>, AllocError>
    where
        T: Copy,
        ensures { IfOk result (λ copy. copy ≡ self.now) }
    {
        let lines = Vec::from_slice(*self.lines.allocator(), self.lines.as_slice())?;
        Ok(Lines { lines })
    }

    /// The lines.
    pub fn as_slice(&self) -> &[T]
        ensures { result.now ≡ self.now }
    {
        self.lines.as_slice()
    }
}

impl<T: PartialEq> PartialEq for Lines<T> {
    ghost use Rattle.std.specs.Cmp.Lexicographic.{pointwise, lists_per};

    ghost eq = { λ v w. pointwise T.eq v w };

    ghost laws = { lists_per T.laws };

    fn eq(&self, other: &Self) -> bool {
        self.as_slice() == other.as_slice()
    }
}
