//! Going through the crashes of a run.

use crate::images::Image;
use crate::judging::{Found, Seen};
use crate::lives::plain;
use log_disk::Memory;
use money::Refusal;
use std::alloc::{AllocError, Global};
use tests_disks::Torn;
use tests_log_files::disk_of;
use tests_recorded::{Notes, Tape};

/// How the last writes of the first disk and of any other are torn.
const MIXES: [(Torn, Torn); 5] = [
    (Torn::Old, Torn::Old),
    (Torn::New, Torn::New),
    (Torn::FirstHalf, Torn::FirstHalf),
    (Torn::Old, Torn::New),
    (Torn::New, Torn::Old),
];

/// The disks of a run at a moment.
#[derive(Drop)]
pub(crate) struct Walk<'a> {
    alloc: Global,
    tapes: &'a [Tape],
    images: Vec<Image>,
}

impl<'a> Walk<'a> {
    /// Before the run.
    pub(crate) fn new(alloc: Global, tapes: &'a [Tape]) -> Result<Walk<'a>, AllocError> {
        let mut images = Vec::new(alloc);
        for tape in tapes {
            images.push(Image::new(alloc, tape)?)?;
        }
        Ok(Walk {
            alloc,
            tapes,
            images,
        })
    }

    /// Goes on to this stamp.
    pub(crate) fn advance(&mut self, stamp: u64) -> Result<(), AllocError> {
        for (image, tape) in self.images.iter_mut().zip(self.tapes) {
            image.advance(tape, stamp)?;
        }
        Ok(())
    }

    /// Whether all log files are whole: no input runs before.
    fn is_made(&self) -> bool {
        self.images.iter().all(|image| image.is_made())
    }

    /// How many of the mixes leave something else.
    fn mixes(&self) -> usize {
        match self.images.iter().filter(|image| image.is_open()).count() {
            0 => 1,
            1 => 3,
            _ => MIXES.len(),
        }
    }

    /// The disks that a crash leaves.
    pub(crate) fn left(&self, mix: (Torn, Torn)) -> Result<Vec<Memory>, Refusal> {
        let mut disks = Vec::new(self.alloc);
        for (n, (image, tape)) in self.images.iter().zip(self.tapes).enumerate() {
            let torn = if n == 0 { mix.0 } else { mix.1 };
            let bytes = image.left(self.alloc, tape, torn)?;
            disks.push(disk_of(self.alloc, &bytes)?)?;
        }
        Ok(disks)
    }
}

/// The stamps of all calls of disks, in order.
pub(crate) fn moments(alloc: Global, tapes: &[Tape]) -> Result<Vec<u64>, AllocError> {
    let mut all = Vec::new(alloc);
    for tape in tapes {
        all.extend_from_slice(&tape.stamps)?;
    }
    all.sort_unstable();
    Ok(all)
}

/// Crashes of a run: at about so many calls of its disks, all if there are no more.
pub(crate) fn crashes(
    alloc: Global,
    notes: &Notes,
    tapes: &[Tape],
    calls: usize,
) -> Result<Seen, Refusal> {
    let population = plain(alloc)?;
    let first = Found::first(&population);
    let moments = moments(alloc, tapes)?;
    let mut walk = Walk::new(alloc, tapes)?;
    let mut seen = Seen::default();
    // A batch has four calls, so an odd step comes to each of them.
    let step = (moments.len() / calls.max(1) | 1).max(1);
    for (n, stamp) in moments.iter().enumerate().step_by(step) {
        walk.advance(*stamp)?;
        let next = moments.get(n.saturating_add(1));
        let until = next.map_or(notes.stamps(), |next| next.saturating_sub(1));
        if !walk.is_made() {
            continue;
        }
        for mix in MIXES.iter().take(walk.mixes()) {
            let mut disks = walk.left(*mix)?;
            let found = Found::on(alloc, &population, &mut disks);
            seen.count(notes, &first, until, found);
        }
    }
    Ok(seen)
}
