//! Which entries of log files count.
ghost use Rattle.std.specs.Prelude.{◌≡◌, map, IfOk};
ghost use Rattle.recover_found.specs.Found.{bodies_in, counts_by, durable_of as durable_epoch, keeps as keeps_of};

use crate::durable::durable_of;
use crate::spans::{Span, is_within, reaching, voids_of};
use log_text::Body;
use std::alloc::{AllocError, Global};
use std::marker::Model;

/// Which entries of log files count, by their epochs: those of no later epoch than the durable one, but for the epochs
/// that a void body of any file declares void.
#[derive(Drop)]
pub struct Keeps {
    durable: u64,
    // By their lows; each high is the greatest up to it.
    voids: Vec<Span>,
}

impl Model for Keeps {
    ghost use Rattle.recover_found.specs.Found.{KeepsView};
    ghost use Rattle.recover_found.specs.Spans.{AreReaching};

    ghost Value = { KeepsView };

    ghost view = { λ k. record { durable = k.durable; voids = k.voids.items } };

    ghost invariant = { λ k. AreReaching k.voids.items };
}

impl Keeps {
    /// Which entries of these files count. A pass over their bodies, and a sort of the ranges that they declare void.
    pub fn of(alloc: Global, files: &[Vec<Body>]) -> Result<Keeps, AllocError>
        ensures durable { IfOk result (λ k. k.durable ≡ durable_epoch
            (map (λ bodies. bodies_in bodies.items) files.now)) }
        ensures keeps { IfOk result (λ k. counts_by k ≡ keeps_of
            (map (λ bodies. bodies_in bodies.items) files.now)) }
    {
        let voids = reaching(voids_of(alloc, files)?);
        Ok(Keeps {
            durable: durable_of(files),
            voids,
        })
    }

    /// The durable epoch: the least of the files' last marks.
    pub fn durable(&self) -> u64
        ensures { result ≡ self.now.durable }
    {
        self.durable
    }

    /// Whether entries of this epoch count. Costs the logarithm of how many ranges are void.
    pub fn keeps(&self, epoch: u64) -> bool
        ensures { result ≡ counts_by self.now epoch }
    {
        epoch <= self.durable && !is_within(epoch, &self.voids)
    }
}
