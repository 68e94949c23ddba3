//! Reading a log file back.
ghost use Rattle.std.specs.Prelude.{◌≡◌, ◌≢◌, ◌<◌, ◌^◌, ℕ, List, length, map, IfOk, IfErr, IsErrOf};
ghost use Rattle.money.specs.declared.refusal.Refusal.TheVariants.{OutOfMemory, Damaged, Device};
ghost use Rattle.log_disk.specs.Calls.{CountsDevice, OnlyReads};
ghost use Rattle.log_header.specs.Header.{HeaderView};
ghost use Rattle.log_text.specs.Bodies.{BodyView, body_of};
ghost use Rattle.log_text.specs.File.{IsFile};

use crate::reading::text;
use log_disk::Disk;
use log_header::Header;
use log_text::{Body, read_file};
use money::Refusal;
use recover_progress::Progress;
use std::alloc::Global;

/// The header and the bodies of the log file on a disk: those in front of its first closed gate. What stands behind it
/// is neither read nor takes memory; the calls of the disk are those of `text`. One pass over the text.
///
/// Refuses by `Device` only where one of these calls fails, by `Damaged` exactly where none fails and the bytes are no
/// log file, unless it refuses for memory.
pub fn scan<D: Disk>(alloc: Global, disk: &mut D) -> Result<(Header, Vec<Body>), Refusal>
    ensures found { D.is_modelled → IfOk result (λ x. IsFile (D.seen disk.old) x.0 (map body_of x.1.items)) }
    ensures read { IfOk result (λ x. (file : List ℕ) × (length file < 2 ^ 64)
        × (D.is_modelled → file ≡ D.seen disk.old) × IsFile file x.0 (map body_of x.1.items)) }
    ensures damaged { IsErrOf result Damaged → (file : List ℕ) × (D.is_modelled → file ≡ D.seen disk.old)
        × ((h : HeaderView) (bodies : List BodyView) → IsFile file h bodies → ⊥) }
    ensures counts { CountsDevice result (D.failed disk.old) (D.failed disk.new) }
    ensures others { IfErr result
        (λ refusal. (refusal ≢ OutOfMemory) → (refusal ≢ Device) → refusal ≡ Damaged) }
    ensures reads { OnlyReads D.is_modelled D.seen D.story disk.old disk.new }
{
    let unshown = Progress::of(Vec::new(alloc));
    scan_noted(alloc, disk, &unshown)
}

/// The same, and what is read is noted as it is read.
pub fn scan_noted<D: Disk>(
    alloc: Global,
    disk: &mut D,
    progress: &Progress,
) -> Result<(Header, Vec<Body>), Refusal>
    ensures found { D.is_modelled → IfOk result (λ x. IsFile (D.seen disk.old) x.0 (map body_of x.1.items)) }
    ensures read { IfOk result (λ x. (file : List ℕ) × (length file < 2 ^ 64)
        × (D.is_modelled → file ≡ D.seen disk.old) × IsFile file x.0 (map body_of x.1.items)) }
    ensures damaged { IsErrOf result Damaged → (file : List ℕ) × (D.is_modelled → file ≡ D.seen disk.old)
        × ((h : HeaderView) (bodies : List BodyView) → IsFile file h bodies → ⊥) }
    ensures counts { CountsDevice result (D.failed disk.old) (D.failed disk.new) }
    ensures others { IfErr result
        (λ refusal. (refusal ≢ OutOfMemory) → (refusal ≢ Device) → refusal ≡ Damaged) }
    ensures reads { OnlyReads D.is_modelled D.seen D.story disk.old disk.new }
{
    let bytes = text(alloc, disk, progress)?;
    read_file(alloc, &bytes)
}
