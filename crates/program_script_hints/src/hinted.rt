//! The errors of a program, with hints on a script's refused lines.

ghost use Rattle.std.specs.Prelude.{◌≡◌};
ghost use Rattle.std.specs.Io.{WritesAtMost};
ghost use Rattle.std.specs.Io.KnownBytes.{Keeps, WriteAppends};
ghost use Rattle.program_script.specs.Hints.{TellsMore};

use crate::explaining::explanation;
use money::Refusal;
use program_script::Hints;
use program_streams::write_text;
use std::alloc::Global;
use std::io::{self, Write};
use tables::Scale;

/// A writer of errors, to which a hint on each refused line of a script goes once that is asked for. A hint that can't
/// be written, or has no memory, is left aside.
#[derive(Drop)]
pub struct Hinted<E: Write> {
    alloc: Global,
    errors: E,
    /// The scale of the tables that a script is over, where hints on its lines are asked for.
    scale: Option<Scale>,
}

impl<E: Write> Hinted<E> {
    /// The errors that this writer takes; no hints are asked for.
    pub fn new(alloc: Global, errors: E) -> Hinted<E>
        ensures { result.errors ≡ errors }
    {
        Hinted {
            alloc,
            errors,
            scale: None,
        }
    }

    /// Asks for hints on the lines of a script over tables of this scale.
    pub fn hint(&mut self, scale: Scale)
        ensures { self.new.errors ≡ self.old.errors }
    {
        self.scale = Some(scale);
    }

    /// The writer.
    pub fn errors(&self) -> &E
        ensures { result.now ≡ self.now.errors }
    {
        &self.errors
    }
}

impl<E: Write> Hints for Hinted<E> {
    ghost told = { λ hinted. E.contents hinted.errors };

    fn refused(&mut self, line: Option<&[u8]>, number: u32, refusal: Refusal) {
        let Some(scale) = self.scale else {
            return;
        };
        if let Ok(text) = explanation(self.alloc, &scale, line, number, refusal) {
            let _ = write_text(&mut self.errors, text.as_bytes());
        }
    }
}

impl<E: Write> Write for Hinted<E> {
    ghost contents = { λ hinted. E.contents hinted.errors };

    fn write(&mut self, buf: &[u8]) -> io::Result<usize>
        ensures bound { WritesAtMost result buf.now }
        ensures bytes { WriteAppends (E.contents self.old.errors) (E.contents self.new.errors) result buf.now }
    {
        self.errors.write(buf)
    }

    fn flush(&mut self) -> io::Result<()>
        ensures bytes { Keeps (E.contents self.old.errors) (E.contents self.new.errors) }
    {
        self.errors.flush()
    }
}
