//! What keeps a logger's commits.
ghost use Rattle.std.specs.Prelude.{◌≡◌, ℕ};

/// What keeps a logger's commits, as a log file does.
pub trait Keeper {
    /// The epoch up to which it keeps them, whatever happens next.
    ghost mark: { Self → ℕ };

    /// The epoch up to which it keeps them. Constant time, no memory.
    fn kept(&self) -> u64
        ensures { result ≡ mark self.now };
}
