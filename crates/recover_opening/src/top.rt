//! The epoch above which log files have nothing.
ghost use Rattle.std.specs.Prelude.{◌≡◌, ℕ, List, length, map, max};
ghost use Rattle.log_text.specs.Bodies.{body_of, entries_in};
ghost use Rattle.recover_files.specs.Files.{AreFiles};
ghost use Rattle.recover_found.specs.Found.{bodies_in, last_mark};
ghost use Rattle.recover_opening.specs.Tops.{IsTopOfAll, epoch_behind, epoch_from};
ghost use Rattle.tables.specs.Sizes.{Sizes};

use log_text::Body;

/// The last epoch of which log files say anything: the greatest of all marks, epochs of entries, and epochs that void
/// bodies declare void, and 0 where there is none. What comes behind it is new to every file. In a log file neither
/// marks nor epochs fall, so the last mark and the last entry are asked: a pass over the bodies, none over the
/// entries.
pub fn top_epoch(files: &[Vec<Body>]) -> u64
    requires { (s : Sizes) × (seed : ℕ) × (strings : List (List ℕ))
        × AreFiles s seed strings (map (λ bodies. bodies_in bodies.items) files.now) }
    ensures { IsTopOfAll (map (λ bodies. bodies_in bodies.items) files.now) result }
{
    let mut top = 0;
    for bodies in files {
        top = top_of(bodies).max(top);
    }
    top
}

/// The greater of a file's last mark and the epoch of its last entry.
fn top_of(bodies: &[Body]) -> u64
    ensures { result ≡ max (last_mark 0 (bodies_in bodies.now)) (epoch_from 0 (bodies_in bodies.now)) }
{
    let mut mark = 0;
    let mut epoch = 0;
    for body in bodies {
        mark = body.mark();
        epoch = last_epoch_of(body, epoch);
    }
    mark.max(epoch)
}

/// The epoch of a body's last entry, the upper half of its TID, and this one where the body has none.
fn last_epoch_of(body: &Body, before: u64) -> u64
    ensures { result ≡ epoch_behind before (entries_in (body_of body.now)) }
{
    if let Body::Entries(_, entries) = body {
        if let Some(entry) = entries.last() {
            return entry.tid >> 32;
        }
    }
    before
}
