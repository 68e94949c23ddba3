//! What is told of refused lines, beside their answers.
ghost use Rattle.std.specs.Prelude.{ℕ, List, Option};
ghost use Rattle.program_script.specs.Hints.{TellsMore};

use money::Refusal;

/// Who is told of each line that is refused, beside its answer.
pub trait Hints {
    /// What was told so far, where that is known.
    ghost told: { Self → Option (List ℕ) };

    /// The line of this number, which has these bytes, is refused so. None is a line that is too long. What can't be
    /// told is left aside.
    fn refused(&mut self, line: Option<&[u8]>, number: u32, refusal: Refusal)
        ensures { TellsMore (told self.old) (told self.new) };
}

/// Nobody is told.
#[derive(Drop)]
pub struct NoHints;

impl Hints for NoHints {
    ghost use Rattle.std.specs.Prelude.{None};

    ghost told = { λ _. None };

    #[inline(always)]
    fn refused(&mut self, _line: Option<&[u8]>, _number: u32, _refusal: Refusal) {}
}
