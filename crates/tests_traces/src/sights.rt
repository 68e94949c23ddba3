//! What was seen of a run, by the stamps that it has.

use std::alloc::{AllocError, Global};
use tests_recorded::{Notes, Tape};
use traces::Start;

/// What a stamp was given behind.
#[derive(Clone, Copy, Debug, PartialEq, Eq)]
pub(crate) enum Sight {
    /// A call of a logger's disk.
    Call { logger: usize },
    /// The release of the reply of the history's entry at this place.
    Release { place: usize },
}

/// What was seen, by stamps.
#[derive(Drop)]
pub(crate) struct Sights {
    all: Vec<Option<Sight>>,
}

impl Sights {
    /// Of a life whose disks had done so many calls when it began, and whose commits have numbers behind this one.
    pub(crate) fn of(
        alloc: Global,
        notes: &Notes,
        tapes: &[Tape],
        starts: &[Start],
        past: usize,
    ) -> Result<Sights, AllocError> {
        let mut sights = Sights {
            all: Vec::new(alloc),
        };
        for _ in 0..=notes.stamps() {
            sights.all.push(None)?;
        }
        for (logger, (tape, start)) in tapes.iter().zip(starts).enumerate() {
            sights.add_calls(logger, tape, start.calls);
        }
        sights.add_releases(notes, past);
        Ok(sights)
    }

    /// The calls of a logger's disk, from this one on.
    fn add_calls(&mut self, logger: usize, tape: &Tape, first: usize) {
        let before = first.saturating_sub(tape.base);
        for stamp in tape.stamps.iter().skip(before) {
            self.set(*stamp as usize, Sight::Call { logger });
        }
    }

    /// The releases of replies of commits behind so many.
    fn add_releases(&mut self, notes: &Notes, past: usize) {
        let first = past.saturating_add(1);
        for number in first..notes.len() {
            if let Some(fact) = notes.fact(number) {
                let place = number.saturating_sub(first);
                self.set(fact.stamp as usize, Sight::Release { place });
            }
        }
    }

    fn set(&mut self, stamp: usize, sight: Sight) {
        if let Some(own) = self.all.get_mut(stamp) {
            *own = Some(sight);
        }
    }

    /// How many stamps there are, with 0, which nothing has.
    pub(crate) fn len(&self) -> usize {
        self.all.len()
    }

    /// How many replies were released.
    pub(crate) fn releases(&self) -> usize {
        let all = self.all.iter();
        all.filter(|own| matches!(own, Some(Sight::Release { .. })))
            .count()
    }

    /// What has this stamp.
    pub(crate) fn at(&self, stamp: usize) -> Option<Sight> {
        self.all.get(stamp).copied().flatten()
    }

    /// Exchanges two stamps.
    pub(crate) fn exchange(&mut self, one: usize, other: usize) {
        let (first, second) = (self.at(one), self.at(other));
        if let Some(own) = self.all.get_mut(one) {
            *own = second;
        }
        if let Some(own) = self.all.get_mut(other) {
            *own = first;
        }
    }
}
