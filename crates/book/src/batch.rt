//! What a logger takes from the book, and writes outside the lock.
ghost use Rattle.std.specs.Prelude.{◌≡◌, map};
ghost use Rattle.std.specs.Arc.{arc_value};

use crate::entry::Entry;
use std::alloc::Global;
use std::marker::Model;
use std::sync::Arc;
use tables::Scale;

/// A part of a logger's stream, with the mark up to which the stream is then whole (Silo, section 4.10): each commit of
/// the logger's terminals that isn't in this batch or an earlier one has a later epoch than the mark. Only a take makes
/// one, and its type keeps what a log file asks of it.
#[derive(Drop)]
pub struct Batch {
    pub(crate) logger: u16,
    pub(crate) loggers: u16,
    pub(crate) scale: Scale,
    pub(crate) seed: u64,
    pub(crate) first: u64,
    pub(crate) number_before: u32,
    pub(crate) mark_before: u64,
    pub(crate) entries: Vec<Arc<Entry, Global>>,
    pub(crate) mark: u64,
}

impl Model for Batch {
    ghost use Rattle.std.specs.Prelude.{map};
    ghost use Rattle.std.specs.Arc.{arc_value};
    ghost use Rattle.book.specs.Batches.{BatchView, IsBatch};

    ghost Value = { BatchView };

    ghost view = { λ b. record {
      logger = b.logger;
      loggers = b.loggers;
      scale = b.scale;
      seed = b.seed;
      first = b.first;
      number_before = b.number_before;
      mark_before = b.mark_before;
      entries = map arc_value b.entries.items;
      mark = b.mark;
    } };

    ghost invariant = { λ b. IsBatch (record {
      logger = b.logger;
      loggers = b.loggers;
      scale = b.scale;
      seed = b.seed;
      first = b.first;
      number_before = b.number_before;
      mark_before = b.mark_before;
      entries = map arc_value b.entries.items;
      mark = b.mark;
    }) };
}

impl Batch {
    ghost use Rattle.book.specs.Batches.{IsBatch};

    /// The logger's number, from 0.
    pub fn logger(&self) -> u16
        ensures { result ≡ self.now.logger }
    {
        self.logger
    }

    /// How many loggers there are, from 1 to 8.
    pub fn loggers(&self) -> u16
        ensures { result ≡ self.now.loggers }
    {
        self.loggers
    }

    /// The scale of the population that the run began with.
    pub fn scale(&self) -> Scale
        ensures { result ≡ self.now.scale }
    {
        self.scale
    }

    /// The seed of that population: 0 of the plain one.
    pub fn seed(&self) -> u64
        ensures { result ≡ self.now.seed }
    {
        self.seed
    }

    /// How many entries of the stream were taken before these.
    pub fn first(&self) -> u64
        ensures { result ≡ self.now.first }
    {
        self.first
    }

    /// The commit number of the last entry before these, and 0 where there is none.
    pub fn number_before(&self) -> u32
        ensures { result ≡ self.now.number_before }
    {
        self.number_before
    }

    /// The mark of the take before this one, and that with which the board opened where there is none: 0.
    pub fn mark_before(&self) -> u64
        ensures { result ≡ self.now.mark_before }
    {
        self.mark_before
    }

    /// The entries, in the order in which they committed. The batch is as a log file asks: its type keeps it.
    pub fn entries(&self) -> &[Arc<Entry, Global>]
        ensures entries { map arc_value result.now ≡ self.now.entries }
        ensures lawful { IsBatch self.now }
    {
        self.entries.as_slice()
    }

    /// The epoch up to which nothing of the stream is behind these entries.
    pub fn mark(&self) -> u64
        ensures { result ≡ self.now.mark }
    {
        self.mark
    }
}
