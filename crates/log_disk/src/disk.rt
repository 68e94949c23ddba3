//! The calls of a disk.
ghost use Rattle.std.specs.Prelude.{◌≡◌, ℕ, ◌+◌, ◌^◌, ◌<◌, ◌≤◌, List, length, take, drop, IfOk, OnOk};
ghost use Rattle.log_disk.specs.Calls.{Call, written, WriteLeft, SyncLeft, Counts, OnlyReads};
ghost use Rattle.log_disk.specs.Crashes.{Torn, MayLeave};

use money::Refusal;

/// A disk that holds a string of bytes, with places from 0. Contracts speak of the bytes of modelled disks alone: there
/// a crash leaves what the last sync found, but any bytes in each range written since and past the old end, and any
/// length from the old one (`MayLeave`).
///
/// # Errors
///
/// A call answers `Device` where the device fails, and only there. Each failure is counted, up to 2^64 - 1 of them;
/// after so many, every call fails (`Counts`).
pub trait Disk {
    /// Whether disks of this type are modelled.
    ghost is_modelled: { Type 0 };

    /// The bytes that a read gives.
    ghost seen: { Self → List ℕ };

    /// The writes and syncs so far, newest first.
    ghost story: { Self → List Call };

    /// How many calls have failed.
    ghost failed: { Self → ℕ };

    /// How many bytes it holds.
    fn len(&mut self) -> Result<u64, Refusal>
        ensures value { is_modelled → IfOk result (λ n. n ≡ length (seen self.old)) }
        ensures reads { OnlyReads is_modelled seen story self.old self.new }
        ensures cause { Counts result (failed self.old) (failed self.new) };

    /// Fills `into` with the bytes from this place on. Where there are fewer, that is a failure; after a failure `into`
    /// may hold anything.
    fn read_at(&mut self, at: u64, into: &mut [u8]) -> Result<(), Refusal>
        ensures size { length into.new ≡ length into.old }
        ensures within { is_modelled → OnOk result (at + length into.old ≤ length (seen self.old)) }
        ensures bytes { is_modelled → OnOk result (into.new ≡ take (length into.old) (drop at (seen self.old))) }
        ensures reads { OnlyReads is_modelled seen story self.old self.new }
        ensures cause { Counts result (failed self.old) (failed self.new) };

    /// Writes over what is there, and past the end. It fails where the bytes would end at 2^63 or beyond. After a
    /// failure the range may hold anything; what is outside of it stays.
    fn write_at(&mut self, at: u64, bytes: &[u8]) -> Result<(), Refusal>
        // No gap stays between the end and the place.
        requires { is_modelled → at ≤ length (seen self.old) }
        ensures bytes { is_modelled → OnOk result (seen self.new ≡ written (seen self.old) at bytes.now) }
        ensures outside { is_modelled → Torn at (length bytes.now) (seen self.old) (seen self.new) }
        ensures fits { OnOk result (at + length bytes.now < 2 ^ 63) }
        ensures story { is_modelled
            → WriteLeft result at (length bytes.now) (story self.old) (story self.new) }
        ensures cause { Counts result (failed self.old) (failed self.new) };

    /// After it, a crash leaves what a read gives, until the next write.
    fn sync(&mut self) -> Result<(), Refusal>
        ensures seen { is_modelled → seen self.new ≡ seen self.old }
        ensures story { is_modelled → SyncLeft result (seen self.old) (story self.old) (story self.new) }
        ensures cause { Counts result (failed self.old) (failed self.new) };

    /// How many calls have failed, at most 2^64 - 1.
    fn failures(&self) -> u64
        ensures { result ≡ failed self.now };

    /// What a read gives is what a crash now may leave.
    ghost read_gives: { (disk : Self) → is_modelled → MayLeave (story disk) (seen disk) };
}

/// A disk that is lent.
impl<D: Disk> Disk for &mut D {
    ghost is_modelled = { D.is_modelled };

    ghost seen = { λ disk. D.seen disk.now };

    ghost story = { λ disk. D.story disk.now };

    ghost failed = { λ disk. D.failed disk.now };

    ghost read_gives = { λ disk. D.read_gives disk.now };

    fn len(&mut self) -> Result<u64, Refusal> {
        Disk::len(&mut **self)
    }

    fn read_at(&mut self, at: u64, into: &mut [u8]) -> Result<(), Refusal> {
        Disk::read_at(&mut **self, at, into)
    }

    fn write_at(&mut self, at: u64, bytes: &[u8]) -> Result<(), Refusal> {
        Disk::write_at(&mut **self, at, bytes)
    }

    fn sync(&mut self) -> Result<(), Refusal> {
        Disk::sync(&mut **self)
    }

    fn failures(&self) -> u64 {
        Disk::failures(&**self)
    }
}
