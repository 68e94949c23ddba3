//! Bytes, put on a disk so that a crash leaves them whole or not at all.
ghost use Rattle.std.specs.Prelude.{◌≡◌, ℕ, ◌+◌, ◌^◌, ◌<◌, ◌≤◌, List, ◌∷◌, ◌++◌, length, drop, IsErr, OnOk};
ghost use Rattle.log_disk.specs.Calls.{written, Counts};
ghost use Rattle.log_disk.specs.Crashes.{Torn, MayLeave, LeavesOnly};
ghost use Rattle.logfile.specs.Called.{PutLeft, StoreLeft};
ghost use Rattle.logfile.specs.Staged.{IsSettled, HasGate, IsStaged};

use log_disk::Disk;
use money::Refusal;

// The gate in front of bytes that count.
const OPEN: u8 = 1;

/// Writes these bytes at a place, and syncs. After it a crash leaves what a read gives; at each moment before, what is
/// outside of the range.
///
/// # Errors
///
/// `Device` where the device fails, and only there. A crash may then leave what was there before, or anything in the
/// range.
pub(crate) fn put<D: Disk>(disk: &mut D, at: u64, bytes: &[u8]) -> Result<(), Refusal>
    requires place { D.is_modelled → at ≤ length (D.seen disk.old) }
    requires settled { D.is_modelled → IsSettled (D.seen disk.old) (D.story disk.old) }
    ensures bytes { D.is_modelled → OnOk result (D.seen disk.new ≡ written (D.seen disk.old) at bytes.now) }
    ensures settled { D.is_modelled → OnOk result (IsSettled (D.seen disk.new) (D.story disk.new)) }
    ensures moments { D.is_modelled
        → LeavesOnly (Torn at (length bytes.now) (D.seen disk.old)) (D.story disk.old) (D.story disk.new) }
    ensures may_stay { D.is_modelled → IsErr result → MayLeave (D.story disk.new) (D.seen disk.old) }
    ensures calls { D.is_modelled → PutLeft result at bytes.now (D.seen disk.old) (D.story disk.old)
        (D.seen disk.new) (D.story disk.new) }
    ensures fits { OnOk result (at + length bytes.now < 2 ^ 63) }
    ensures cause { Counts result (D.failed disk.old) (D.failed disk.new) }
{
    disk.write_at(at, bytes)?;
    disk.sync()
}

/// Puts a text behind the gate at this place, and then opens the gate, by four calls of the device: the text is written
/// and synced before the gate is (Silo, section 4.10). At each moment, also where the device fails, a crash leaves what
/// stood in front of the gate, and where it leaves another gate, the whole text behind it (`IsStaged`).
///
/// # Errors
///
/// `Device` where the device fails, and only there. A crash may then leave the gate as it was.
pub(crate) fn store<D: Disk>(disk: &mut D, end: u64, text: &[u8]) -> Result<(), Refusal>
    requires room { end < 2 ^ 63 }
    requires gate { D.is_modelled → end < length (D.seen disk.old) }
    requires settled { D.is_modelled → IsSettled (D.seen disk.old) (D.story disk.old) }
    ensures bytes { D.is_modelled → (front : List ℕ) (gate : ℕ) (rest : List ℕ)
        → HasGate end front gate rest (D.seen disk.old)
        → OnOk result (D.seen disk.new ≡ front ++ OPEN ∷ (text.now ++ drop (length text.now) rest)) }
    ensures settled { D.is_modelled → OnOk result (IsSettled (D.seen disk.new) (D.story disk.new)) }
    ensures moments { D.is_modelled → (front : List ℕ) (gate : ℕ) (rest : List ℕ)
        → HasGate end front gate rest (D.seen disk.old)
        → LeavesOnly (IsStaged front gate text.now) (D.story disk.old) (D.story disk.new) }
    ensures may_stay { D.is_modelled → (front : List ℕ) (gate : ℕ) (rest : List ℕ)
        → HasGate end front gate rest (D.seen disk.old)
        → IsErr result → (behind : List ℕ) × MayLeave (D.story disk.new) (front ++ gate ∷ behind) }
    ensures calls { D.is_modelled → StoreLeft result end text.now (D.seen disk.old) (D.story disk.old)
        (D.seen disk.new) (D.story disk.new) }
    ensures fits { OnOk result (end + 1 + length text.now < 2 ^ 63) }
    ensures cause { Counts result (D.failed disk.old) (D.failed disk.new) }
{
    put(disk, end + 1, text)?;
    put(disk, end, &[OPEN])
}
