//! Reading what stands in a log file that is opened again.
ghost use Rattle.std.specs.Prelude.{◌≡◌, ◌≢◌, ℕ, ◌^◌, ◌<◌, ◌∷◌, List, length, map, IfOk, IfErr, IsErrOf, OnOk};
ghost use Rattle.money.specs.declared.refusal.Refusal.TheVariants.{OutOfMemory, Damaged, Device};
ghost use Rattle.log_disk.specs.Calls.{CountsDevice, Synced};
ghost use Rattle.log_header.specs.Header.{HeaderView};
ghost use Rattle.log_header.specs.declared.header.TheConstants.{VERSION};
ghost use Rattle.log_text.specs.Bodies.{BodyView, body_of};
ghost use Rattle.log_text.specs.File.{IsFile, IsFileTo};
ghost use Rattle.logfile.specs.Refused.{IsOnlySynced};

use log_disk::Disk;
use log_header::{Header, VERSION};
use log_scan::text;
use log_text::{Body, Last, read_to_end};
use money::Refusal;
use recover_progress::Progress;
use std::alloc::Global;

/// Syncs a disk, and then reads the log file on it: its header and bodies, where it stands behind them, and the place
/// of the gate that ends its text.
///
/// # Errors
///
/// `Damaged`, of a modelled disk only where its bytes are no log file of the version that is written today; `Device`
/// exactly where a call of the device fails; `OutOfMemory`. Nothing is written.
pub(crate) fn read_again<D: Disk>(
    alloc: Global,
    disk: &mut D,
    progress: &Progress,
) -> Result<(Header, Vec<Body>, Last, u64), Refusal>
    ensures read { IfOk result (λ x. (bytes : List ℕ) × ((length bytes < 2 ^ 64)
        × (D.is_modelled → bytes ≡ D.seen disk.old) × IsFileTo bytes x.0 (map body_of x.1.items) x.2 x.3)) }
    ensures reaches { IfOk result (λ x. x.3 < 2 ^ 63) }
    ensures version { IfOk result (λ x. x.0.version ≡ VERSION) }
    ensures synced { D.is_modelled → OnOk result ((D.seen disk.new ≡ D.seen disk.old)
        × (D.story disk.new ≡ Synced (D.seen disk.old) ∷ D.story disk.old)) }
    ensures damaged { D.is_modelled → IsErrOf result Damaged → (h : HeaderView) (bodies : List BodyView)
        → h.version ≡ VERSION → IsFile (D.seen disk.old) h bodies → ⊥ }
    ensures unwritten { IsOnlySynced D.is_modelled D.seen D.story disk.old disk.new }
    ensures counts { CountsDevice result (D.failed disk.old) (D.failed disk.new) }
    ensures others { IfErr result (λ refusal. (refusal ≢ OutOfMemory) → (refusal ≢ Device)
        → refusal ≡ Damaged) }
{
    disk.sync()?;
    let bytes = text(alloc, disk, progress)?;
    let (header, bodies, last, end) = read_to_end(alloc, &bytes)?;
    // Behind bodies of another version none may stand that are written today.
    if header.version != VERSION {
        return Err(Refusal::Damaged);
    }
    Ok((header, bodies, last, end as u64))
}
