//! What was recorded of a run.
ghost use Rattle.std.specs.Prelude.{◌≡◌, ◌<◌, ◌+◌, ◌^◌, ◌≤◌, Some, map, length, MatchOption, IfSome, All, slice_range};
ghost use Rattle.std.specs.Arc.{arc_value};
ghost use Rattle.std.specs.List.{slice_get};
ghost use Rattle.book.specs.Loggable.{IsLoggable};
ghost use Rattle.traces.specs.Told.{TraceView, calls_of};

use book::Entry;
use log_disk::{Memory, MemoryCall};
use std::alloc::Global;
use std::marker::Model;
use std::sync::Arc;
use tables::Scale;

/// What was recorded of a run: what has committed, in order, and the disks in memory of its log files, by loggers, with
/// the calls that they have done.
#[derive(Drop)]
pub struct Trace<'a> {
    scale: Scale,
    history: &'a [Arc<Entry, Global>],
    disks: &'a [Memory],
}

impl<'a> Model for Trace<'a> {
    ghost use Rattle.std.specs.Prelude.{map, All};
    ghost use Rattle.std.specs.Arc.{arc_value};
    ghost use Rattle.book.specs.Loggable.{IsLoggable};
    ghost use Rattle.traces.specs.Told.{TraceView};

    ghost Value = { TraceView };

    ghost view = { λ t. record { scale = t.scale; history = map arc_value t.history.now; disks = t.disks.now } };

    ghost invariant = { λ t. All (IsLoggable t.scale) (map arc_value t.history.now) };
}

impl<'a> Trace<'a> {
    /// Of a database of this scale. Constant time, no memory.
    pub fn new(scale: Scale, history: &'a [Arc<Entry, Global>], disks: &'a [Memory]) -> Trace<'a>
        requires { All (IsLoggable scale) (map arc_value history.now) }
        ensures { result
            ≡ record { scale = scale; history = map arc_value history.entry.now; disks = disks.entry.now } }
    {
        Trace {
            scale,
            history,
            disks,
        }
    }

    /// The database's scale.
    pub(crate) fn scale(&self) -> Scale
        ensures { result ≡ self.now.scale }
    {
        self.scale
    }

    /// How many loggers there are.
    pub(crate) fn loggers(&self) -> usize
        ensures { result ≡ length self.now.disks }
    {
        self.disks.len()
    }

    /// The entry of the history at this place.
    pub(crate) fn entry(&self, place: usize) -> Option<&Entry>
        ensures at { MatchOption result (length self.now.history ≤ place)
            (λ e. slice_get self.now.history place ≡ Some e.now) }
        ensures few { length self.now.history < 2 ^ 63 }
    {
        let entry = self.history.get(place)?;
        Some(&**entry)
    }

    /// The entries of the history from one place to another, if it reaches so far.
    pub(crate) fn entries(&self, from: usize, to: usize) -> Option<&[Arc<Entry, Global>]>
        ensures entries { IfSome result (λ entries.
            map arc_value entries.now ≡ slice_range self.now.history from to) }
        ensures loggable { IfSome result (λ entries. All (IsLoggable self.now.scale) (map arc_value entries.now)) }
    {
        self.history.get(from..to)
    }

    /// The call at this place of those that a logger's disk has done.
    pub(crate) fn call(&self, logger: usize, place: usize) -> Option<&MemoryCall>
        ensures at { MatchOption result (length (calls_of self.now logger) ≤ place)
            (λ call. slice_get (calls_of self.now logger) place ≡ Some call.now) }
        ensures few { length (calls_of self.now logger) < 2 ^ 63 }
    {
        self.disks.get(logger)?.calls().get(place)
    }
}
