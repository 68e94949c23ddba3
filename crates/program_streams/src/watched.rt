//! A stream that knows why it failed.

ghost use Rattle.std.specs.Prelude.{◌≡◌, MatchResult};
ghost use Rattle.std.specs.Io.{ReadsAtMost, WritesAtMost};
ghost use Rattle.std.specs.Io.KnownBytes.{Keeps, ReadConsumes, WriteAppends};

use std::io::{self, Error, Read, Write};

/// A reader or a writer that remembers the error of the last call on it, if that failed: a [`Refusal`] tells only that
/// a device did.
///
/// [`Refusal`]: money::Refusal
#[derive(Drop)]
pub struct Watched<S> {
    stream: S,
    failure: Option<Error>,
}

impl<S> Watched<S> {
    /// The stream, of which no call has failed.
    pub fn new(stream: S) -> Watched<S>
        ensures stream { result.stream ≡ stream }
        ensures failure { result.failure ≡ None }
    {
        Watched {
            stream,
            failure: None,
        }
    }

    /// The stream.
    pub fn stream(&self) -> &S
        ensures { result.now ≡ self.now.stream }
    {
        &self.stream
    }

    /// The error of the last call, if it failed.
    pub fn failure(&self) -> Option<Error>
        ensures { result ≡ self.now.failure }
    {
        self.failure
    }
}

impl<R: Read> Read for Watched<R> {
    ghost remaining = { λ w. R.remaining w.stream };

    fn read(&mut self, buf: &mut [u8]) -> io::Result<usize>
        ensures bound { ReadsAtMost result buf.new }
        ensures bytes { ReadConsumes (R.remaining self.old.stream) (R.remaining self.new.stream) result buf.new }
        ensures failure { MatchResult result (λ _. self.new.failure ≡ None)
            (λ error. self.new.failure ≡ Some error) }
    {
        let read = self.stream.read(buf);
        self.failure = failure_of(&read);
        read
    }
}

impl<W: Write> Write for Watched<W> {
    ghost contents = { λ w. W.contents w.stream };

    fn write(&mut self, buf: &[u8]) -> io::Result<usize>
        ensures bound { WritesAtMost result buf.now }
        ensures bytes { WriteAppends (W.contents self.old.stream) (W.contents self.new.stream) result buf.now }
        ensures failure { MatchResult result (λ _. self.new.failure ≡ None)
            (λ error. self.new.failure ≡ Some error) }
    {
        let written = self.stream.write(buf);
        self.failure = failure_of(&written);
        written
    }

    fn flush(&mut self) -> io::Result<()>
        ensures bytes { Keeps (W.contents self.old.stream) (W.contents self.new.stream) }
        ensures failure { MatchResult result (λ _. self.new.failure ≡ None)
            (λ error. self.new.failure ≡ Some error) }
    {
        let flushed = self.stream.flush();
        self.failure = failure_of(&flushed);
        flushed
    }
}

/// The error of a call, if it failed.
fn failure_of<T>(outcome: &io::Result<T>) -> Option<Error>
    ensures { MatchResult outcome.now (λ _. result ≡ None) (λ error. result ≡ Some error) }
{
    match outcome {
        Ok(_) => None,
        Err(error) => Some(*error),
    }
}
