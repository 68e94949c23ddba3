//! What passes claim.

use std::collections::LinkedList;

/// What has an epoch, as what commits has.
pub trait Dated {
    /// The epoch.
    ghost date: { Self → ℕ };

    ghost use Rattle.std.specs.Prelude.{ℕ};
}

/// A claim on a history: it begins with this front, all that follows is of epochs above the mark, and these are in it.
/// No value of it is made.
pub struct Claim<S> {
    pub front: LinkedList<S>,
    pub mark: u64,
    pub has: LinkedList<S>,
}

/// What a pass knows: whether it is the keeper's, and behind which epoch the annals began if so; its own claim, and one
/// that it has heard of. No value of it is made.
pub struct Known<S> {
    pub keeps: bool,
    pub base: u64,
    pub own: Claim<S>,
    pub heard: Claim<S>,
}
