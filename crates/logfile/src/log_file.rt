//! An open log file.
ghost use Rattle.std.specs.Prelude.{◌≡◌, ◌≢◌, ℕ, ◌+◌, ◌^◌, ◌<◌, ◌≤◌, ◌↔◌, true, false, Some, List, [], ◌∷◌, ◌++◌, length, map};
ghost use Rattle.std.specs.Prelude.{IsTrue, IfOk, IfErr, IsErrOf, OnOk, OnErr};
ghost use Rattle.money.specs.declared.refusal.Refusal.TheVariants.{OutOfMemory, Damaged, Device};
ghost use Rattle.log_disk.specs.Calls.{Wrote, Synced, Counts};
ghost use Rattle.log_disk.specs.Crashes.{LeavesOnly};
ghost use Rattle.log_header.specs.Header.{HeaderView, header_text, header_view};
ghost use Rattle.log_header.specs.declared.header.TheConstants.{VERSION};
ghost use Rattle.log_text.specs.Bodies.{BodyView, Void, body_after, body_of, body_text, marked, start};
ghost use Rattle.log_text.specs.File.{IsFile, IsFileTo};
ghost use Rattle.log_text.specs.declared.last.Last.{Last};
ghost use Rattle.log_entries.specs.Following.{Continues};
ghost use Rattle.logfile.specs.Called.{StoreLeft};
ghost use Rattle.logfile.specs.Appended.{Appends, AppendsBody};
ghost use Rattle.logfile.specs.Refused.{IsGivenBack};
ghost use Rattle.logfile.specs.Standing.{Stands, IsWithOrWithout, IsKept};

use crate::refused::Refused;
use crate::reopening::read_again;
use crate::storing::store;
use board::Keeper;
use book::Batch;
use log_codec::put_u8;
use log_disk::Disk;
use log_entries::put_batch;
use log_header::{Header, VERSION, put_header};
use log_text::{Body, Last, void_text};
use money::Refusal;
use recover_progress::Progress;
use std::alloc::{AllocError, Global};
use std::marker::Model;
use std::mem;

// The gate behind the last body: what stands behind it doesn't count.
const CLOSED: u8 = 0;

/// A log file that is open for appending. Its type keeps, of a modelled disk, that the file stands there with its
/// bodies (`Stands`) until the device fails, and what a crash can't take (`IsKept`) whatever fails.
#[derive(Drop)]
pub struct LogFile<D: Disk> {
    disk: D,
    header: Header,
    end: u64,
    last: Last,
    count: u64,
    number: u64,
    failed: bool,
    // The text of a body, kept from one to the next for its room.
    buffer: Vec<u8>,
}

impl<D: Disk> Model for LogFile<D> {
    ghost use Rattle.logfile.specs.Standing.{LogFileView, IsLogFile};

    ghost Value = { LogFileView D };

    ghost view = { λ f. record {
      disk = f.disk;
      header = f.header;
      end = f.end;
      last = f.last;
      count = f.count;
      number = f.number;
      failed = f.failed;
    } };

    ghost invariant = { λ f.
        IsLogFile D.is_modelled (D.seen f.disk) (D.story f.disk) f.header f.end f.last f.count f.number f.failed };
}

impl<D: Disk> LogFile<D> {
    /// A log file on an empty disk: its header, which is put in the version that is written today whichever it has, and
    /// a closed gate, by two calls of the device.
    ///
    /// # Errors
    ///
    /// `Device`; `OutOfMemory`. After Ok no call of the device has failed. An Err drops the disk, so no clause says
    /// more of it; by the code alone `Device` comes exactly where a call of the device fails, and `OutOfMemory` before
    /// the first one.
    pub fn create(alloc: Global, disk: D, header: Header) -> Result<LogFile<D>, Refusal>
    where
        D: Drop,
        requires empty { D.is_modelled → D.seen disk ≡ [] }
        ensures header { IfOk result (λ file. file.header
            ≡ header_view header.logger header.loggers header.scale header.seed) }
        ensures last { IfOk result (λ file. (file.last ≡ start) × (file.count ≡ 0) × (file.number ≡ 0)
            × (file.failed ≡ false)) }
        ensures stands { D.is_modelled → IfOk result (λ file.
            Stands file.header [] file.end file.last (D.seen file.disk) (D.story file.disk)) }
        ensures bytes { D.is_modelled → IfOk result (λ file.
            D.seen file.disk ≡ header_text file.header ++ CLOSED ∷ []) }
        ensures calls { D.is_modelled → IfOk result (λ file.
            D.story file.disk ≡ Synced (D.seen file.disk) ∷ Wrote 0 (file.end + 1) ∷ D.story disk) }
        ensures none_failed { IfOk result (λ file. D.failed file.disk ≡ D.failed disk) }
        ensures others { IfErr result (λ refusal. (refusal ≢ OutOfMemory) → refusal ≡ Device) }
    {
        let header = Header::new(header.scale, header.seed, header.logger, header.loggers);
        let mut disk = disk;
        let buffer = first_text(alloc, &header)?;
        disk.write_at(0, &buffer)?;
        disk.sync()?;
        Ok(LogFile {
            disk,
            header,
            end: buffer.len() as u64 - 1,
            last: Last::start(),
            count: 0,
            number: 0,
            failed: false,
            buffer,
        })
    }

    /// A log file that is opened again: as `open_with_bodies`, without what stands in it.
    ///
    /// # Errors
    ///
    /// As `open_with_bodies`.
    pub fn open(alloc: Global, disk: D) -> Result<LogFile<D>, Refusal>
    where
        D: Drop,
        ensures fresh { IfOk result (λ file. (file.count ≡ 0) × (file.number ≡ 0) × (file.failed ≡ false)) }
        ensures near { IfOk result (λ file. file.last.epoch ≤ file.last.mark + 1) }
        ensures stands { D.is_modelled → IfOk result (λ file. (bodies : List BodyView)
            × Stands file.header bodies file.end file.last (D.seen file.disk) (D.story file.disk)) }
        ensures read { IfOk result (λ file. (bytes : List ℕ) × (bodies : List BodyView) × ((length bytes < 2 ^ 64)
            × (D.is_modelled → bytes ≡ D.seen disk) × IsFileTo bytes file.header bodies file.last file.end)) }
        ensures synced { D.is_modelled → IfOk result (λ file. (D.seen file.disk ≡ D.seen disk)
            × (D.story file.disk ≡ Synced (D.seen disk) ∷ D.story disk)) }
        ensures version { IfOk result (λ file. file.header.version ≡ VERSION) }
        ensures damaged { D.is_modelled → IsErrOf result Damaged → (h : HeaderView) (bodies : List BodyView)
            → h.version ≡ VERSION → IsFile (D.seen disk) h bodies → ⊥ }
        ensures none_failed { IfOk result (λ file. D.failed file.disk ≡ D.failed disk) }
        ensures others { IfErr result (λ refusal. (refusal ≢ OutOfMemory) → (refusal ≢ Device)
            → refusal ≡ Damaged) }
    {
        let unshown = Progress::of(Vec::new(alloc));
        let (file, _) = LogFile::open_with_bodies(alloc, disk, &unshown)?;
        Ok(file)
    }

    /// A log file that is opened again, as `open_or_give_back`, which gives no disk back.
    ///
    /// # Errors
    ///
    /// As `open_or_give_back`. An Err drops the disk.
    pub fn open_with_bodies(
        alloc: Global,
        disk: D,
        progress: &Progress,
    ) -> Result<(LogFile<D>, Vec<Body>), Refusal>
    where
        D: Drop,
        ensures fresh { IfOk result (λ x. (x.0.count ≡ 0) × (x.0.number ≡ 0) × (x.0.failed ≡ false)) }
        ensures near { IfOk result (λ x. x.0.last.epoch ≤ x.0.last.mark + 1) }
        ensures stands { D.is_modelled → IfOk result (λ x. Stands x.0.header (map body_of x.1.items) x.0.end x.0.last
            (D.seen x.0.disk) (D.story x.0.disk)) }
        ensures read { IfOk result (λ x. (bytes : List ℕ) × ((length bytes < 2 ^ 64)
            × (D.is_modelled → bytes ≡ D.seen disk)
            × IsFileTo bytes x.0.header (map body_of x.1.items) x.0.last x.0.end)) }
        ensures synced { D.is_modelled → IfOk result (λ x. (D.seen x.0.disk ≡ D.seen disk)
            × (D.story x.0.disk ≡ Synced (D.seen disk) ∷ D.story disk)) }
        ensures version { IfOk result (λ x. x.0.header.version ≡ VERSION) }
        ensures damaged { D.is_modelled → IsErrOf result Damaged → (h : HeaderView) (bodies : List BodyView)
            → h.version ≡ VERSION → IsFile (D.seen disk) h bodies → ⊥ }
        ensures none_failed { IfOk result (λ x. D.failed x.0.disk ≡ D.failed disk) }
        ensures others { IfErr result (λ refusal. (refusal ≢ OutOfMemory) → (refusal ≢ Device)
            → refusal ≡ Damaged) }
    {
        match LogFile::open_or_give_back(alloc, disk, progress) {
            Ok(opened) => Ok(opened),
            Err(refused) => Err(refused.refusal),
        }
    }

    /// A log file that is opened again for appending, and the bodies that stand in it. The disk is synced before it is
    /// read, so that no crash can take what was read. No entry counts as appended to this open file; its mark is that
    /// of the last body (0 without one), and the next body goes behind the gate that ends the text. Only the text is
    /// read (`log_scan::text`), and noted as it is read. Costs a pass over it.
    ///
    /// # Errors
    ///
    /// With the disk (`IsGivenBack`): nothing was written. `Damaged`, of a modelled disk only where its bytes are no log
    /// file of the version that is written today; `Device` exactly where a call of the device fails; `OutOfMemory`,
    /// where none fails.
    pub fn open_or_give_back(
        alloc: Global,
        disk: D,
        progress: &Progress,
    ) -> Result<(LogFile<D>, Vec<Body>), Refused<D>>
        ensures fresh { IfOk result (λ x. (x.0.count ≡ 0) × (x.0.number ≡ 0) × (x.0.failed ≡ false)) }
        ensures near { IfOk result (λ x. x.0.last.epoch ≤ x.0.last.mark + 1) }
        ensures stands { D.is_modelled → IfOk result (λ x. Stands x.0.header (map body_of x.1.items) x.0.end x.0.last
            (D.seen x.0.disk) (D.story x.0.disk)) }
        ensures read { IfOk result (λ x. (bytes : List ℕ) × ((length bytes < 2 ^ 64)
            × (D.is_modelled → bytes ≡ D.seen disk)
            × IsFileTo bytes x.0.header (map body_of x.1.items) x.0.last x.0.end)) }
        ensures synced { D.is_modelled → IfOk result (λ x. (D.seen x.0.disk ≡ D.seen disk)
            × (D.story x.0.disk ≡ Synced (D.seen disk) ∷ D.story disk)) }
        ensures version { IfOk result (λ x. x.0.header.version ≡ VERSION) }
        ensures none_failed { IfOk result (λ x. D.failed x.0.disk ≡ D.failed disk) }
        ensures damaged { D.is_modelled → IfErr result (λ refused. refused.refusal ≡ Damaged
            → (h : HeaderView) (bodies : List BodyView) → h.version ≡ VERSION → IsFile (D.seen disk) h bodies → ⊥) }
        ensures given_back { IfErr result (λ refused. IsGivenBack D.is_modelled D.seen D.story D.failed
            refused.refusal disk refused.disk) }
        ensures others { IfErr result (λ refused. (refused.refusal ≢ OutOfMemory) → (refused.refusal ≢ Device)
            → refused.refusal ≡ Damaged) }
    {
        let mut disk = disk;
        match read_again(alloc, &mut disk, progress) {
            Ok(found) => {
                let (header, bodies, last, end) = found;
                let file = LogFile {
                    disk,
                    header,
                    end,
                    last,
                    count: 0,
                    number: 0,
                    failed: false,
                    buffer: Vec::new(alloc),
                };
                Ok((file, bodies))
            }
            Err(refusal) => Err(Refused { refusal, disk }),
        }
    }

    /// The disk on which the file stands.
    pub fn into_disk(self) -> D
        ensures { result ≡ self.disk }
    {
        let LogFile {
            disk,
            header: _,
            end: _,
            last: _,
            count: _,
            number: _,
            failed: _,
            buffer: _,
        } = self;
        disk
    }

    /// Whose file it is, and over what.
    pub fn header(&self) -> Header
        ensures { result ≡ self.now.header }
    {
        self.header
    }

    /// How many entries were appended to this open file: those that stood in it when it was opened don't count.
    pub fn count(&self) -> u64
        ensures { result ≡ self.now.count }
    {
        self.count
    }

    /// The commit number of the last entry that was appended to this open file, and 0 where there is none.
    pub fn last(&self) -> u64
        ensures { result ≡ self.now.number }
    {
        self.number
    }

    /// The mark of the last body, and 0 where there is none.
    pub fn mark(&self) -> u64
        ensures { result ≡ self.now.last.mark }
    {
        self.kept()
    }

    /// Whether the device has failed in an append: each one is refused then.
    pub fn has_failed(&self) -> bool
        ensures { result ≡ self.now.failed }
    {
        self.failed
    }

    /// Whether a batch begins where the file ends, as `append` asks: outside of one hold of the book's lock nothing
    /// else tells it.
    pub fn is_continued_by(&self, batch: &Batch) -> bool
        ensures { IsTrue result
            ↔ Continues self.now.header self.now.count self.now.number self.now.last batch.now }
    {
        is_of(&self.header, batch)
            && batch.first() == self.count
            && u64::from(batch.number_before()) == self.number
            && batch.mark_before() == self.mark()
    }

    /// Whether the epochs from `low` to `high` may be declared void where the file ends, as `append_void` asks.
    pub fn may_be_void(&self, low: u64, high: u64) -> bool
        ensures { IsTrue result ↔ (body_after self.now.header self.now.last (Void low high)
            ≡ Some (marked high self.now.last)) }
    {
        self.last.may_be_void(low, high)
    }
}

/// Whether a batch is of this logger and population.
fn is_of(header: &Header, batch: &Batch) -> bool
    ensures { IsTrue result ↔ (batch.now.logger ≡ header.now.logger) × (batch.now.loggers ≡ header.now.loggers)
        × (batch.now.scale ≡ header.now.scale) × (batch.now.seed ≡ header.now.seed) }
{
    batch.logger() == header.logger
        && batch.loggers() == header.loggers
        && batch.scale() == header.scale
        && batch.seed() == header.seed
}

impl<D: Disk> LogFile<D> {
    /// Appends a batch that begins where the file ends (`Continues`), as one body, by four calls of the device: its
    /// text and a closed gate behind the gate that ends the file's text; a sync; that gate as open; a sync (Silo,
    /// section 4.10). `Appends` has all that it says. Costs a pass over the batch; its text is made once, in memory
    /// that the file keeps.
    ///
    /// At each moment of the call, also where the device fails, a crash leaves the bodies before, or these and the
    /// whole new one; after Ok these and the new one.
    ///
    /// # Errors
    ///
    /// `OutOfMemory`, before the first call of the device: the file is then as before. `Device` exactly where the
    /// device fails in this call or an earlier append failed so: from then on every append answers it, without a call
    /// of the device.
    pub fn append(&mut self, batch: &Batch) -> Result<(), Refusal>
        requires { Continues self.old.header self.old.count self.old.number self.old.last batch.now }
        ensures { Appends D.is_modelled D.seen D.story D.failed batch.now result self.old self.new }
    {
        if self.failed {
            return Err(Refusal::Device);
        }
        self.buffer.clear();
        let (now, number) = put_batch(&mut self.buffer, batch, self.last, self.number)?;
        let entries = batch.entries().len() as u64;
        let alloc = *self.buffer.allocator();
        let text = mem::replace(&mut self.buffer, Vec::new(alloc));
        let result = self.add(&text, now, entries, number);
        self.buffer = text;
        result
    }

    /// Declares the epochs from `low` to `high` void, as a restart does with those that it gives up: appends a void
    /// body, by the same four calls of the device as `append`, of which it says the same (`AppendsBody`). Takes no
    /// memory.
    ///
    /// # Errors
    ///
    /// `Device`, as `append`.
    pub fn append_void(&mut self, low: u64, high: u64) -> Result<(), Refusal>
        requires { body_after self.old.header self.old.last (Void low high) ≡ Some (marked high self.old.last) }
        ensures appends { AppendsBody D.is_modelled D.seen D.story D.failed (Void low high) (marked high self.old.last)
            0 self.old.number result self.old self.new }
        ensures only_device { IfErr result (λ refusal. refusal ≡ Device) }
    {
        if self.failed {
            return Err(Refusal::Device);
        }
        let number = self.number;
        let now = Last {
            mark: high,
            ..self.last
        };
        self.add(&void_text(low, high), now, 0, number)
    }

    /// Appends a body, whose text and closed gate these are, behind which the file stands at `now`, with so many
    /// entries more, up to the one of this commit number.
    fn add(&mut self, text: &[u8], now: Last, entries: u64, number: u64) -> Result<(), Refusal>
        requires usable { self.old.failed ≡ false }
        requires body { (body : BodyView) × (text.now ≡ body_text body ++ CLOSED ∷ [])
            × (body_after self.old.header self.old.last body ≡ Some now) }
        requires count { self.old.count + entries ≤ number }
        requires epoch { now.epoch ≤ now.mark + 1 }
        ensures header { self.new.header ≡ self.old.header }
        ensures ok { OnOk result ((self.new.last ≡ now) × (self.new.count ≡ self.old.count + entries)
            × (self.new.number ≡ number) × (self.new.failed ≡ false)) }
        ensures err { OnErr result ((self.new.last ≡ self.old.last) × (self.new.count ≡ self.old.count)
            × (self.new.number ≡ self.old.number) × (self.new.end ≡ self.old.end) × (self.new.failed ≡ true)) }
        ensures added { D.is_modelled → (bodies : List BodyView) (body : BodyView)
            → Stands self.old.header bodies self.old.end self.old.last (D.seen self.old.disk) (D.story self.old.disk)
            → text.now ≡ body_text body ++ CLOSED ∷ []
            → body_after self.old.header self.old.last body ≡ Some now
            → OnOk result (Stands self.new.header (bodies ++ body ∷ []) self.new.end self.new.last
            (D.seen self.new.disk) (D.story self.new.disk)) }
        ensures moments { D.is_modelled → (bodies : List BodyView) (body : BodyView)
            → Stands self.old.header bodies self.old.end self.old.last (D.seen self.old.disk) (D.story self.old.disk)
            → text.now ≡ body_text body ++ CLOSED ∷ []
            → body_after self.old.header self.old.last body ≡ Some now
            → LeavesOnly (IsWithOrWithout self.old.header bodies body) (D.story self.old.disk)
            (D.story self.new.disk) }
        ensures calls { D.is_modelled → StoreLeft result self.old.end text.now (D.seen self.old.disk)
            (D.story self.old.disk) (D.seen self.new.disk) (D.story self.new.disk) }
        ensures end { OnOk result (self.new.end ≡ self.old.end + length text.now) }
        ensures cause { Counts result (D.failed self.old.disk) (D.failed self.new.disk) }
    {
        match store(&mut self.disk, self.end, text) {
            Ok(()) => {
                self.end += text.len() as u64;
                self.last = now;
                self.count += entries;
                self.number = number;
                Ok(())
            }
            Err(refusal) => {
                self.failed = true;
                Err(refusal)
            }
        }
    }
}

/// The text of a file without bodies: its header, and a closed gate.
fn first_text(alloc: Global, header: &Header) -> Result<Vec<u8>, AllocError>
    ensures { IfOk result (λ text. text.items ≡ header_text header.now ++ CLOSED ∷ []) }
{
    let mut text = Vec::new(alloc);
    put_header(&mut text, header)?;
    put_u8(&mut text, CLOSED)?;
    Ok(text)
}

impl<D: Disk> Keeper for LogFile<D> {
    ghost mark = { λ f. f.last.mark };

    /// The mark of the last body that no crash can take, and 0 where there is none: whatever a crash leaves, also
    /// after an append that failed, has the bodies up to this mark, and it may leave no more (`IsKept`).
    fn kept(&self) -> u64
        ensures mark { result ≡ self.now.last.mark }
        ensures kept { D.is_modelled → ∥ IsKept self.now.header (D.story self.now.disk) result ∥₁ }
    {
        self.last.mark
    }
}
