//! What a transaction has read.
ghost use Rattle.std.specs.Prelude.{◌≡◌, ◌≢◌, ℕ, ◌+◌, ◌<◌, ◌≤◌, Some, None, Ok, Err, IfOk, IfErr, OnErr, [], length};
ghost use Rattle.std.specs.Prelude.{All, IfSome, IfNone, slice_index_or};
ghost use Rattle.std.specs.Result.{IsOkAnd};
ghost use Rattle.std.specs.Ordering.{nat_cmp};
ghost use Rattle.std.specs.Map.{keys_of};
ghost use Rattle.std.specs.BTreeMap.{insert_entry};
ghost use Rattle.money.specs.declared.refusal.Refusal.TheVariants.{OutOfMemory};
ghost use Rattle.std.specs.List.Sorted.{IsStrictlySortedBy};
ghost use Rattle.readset.specs.Places.{place};
ghost use Rattle.readset.specs.Arrived.{arrived};
ghost use Rattle.readset.specs.Reads.{as_version, held, value_of, Keeps, AreWithin, AreRead, AreReadOfKind};
ghost use Rattle.readset.specs.Reads.{IsNarrowVersion, IsWideVersion};
ghost use Rattle.cells.specs.Records.{CellsView, ReaderView, LoadsRecord, HasGrown, cell_count};
ghost use Rattle.cells.specs.Records.{words_of, wide_words_of};
ghost use Rattle.cells.specs.declared.cells.Version.{Version};

use crate::arrivals::Arrivals;
use crate::few::Few;
use cells::{Cells, Reader, Version, WideVersion};
use customer_data::DataWords;
use money::{Payload, Refusal};
use std::alloc::Global;
use std::marker::Model;
use std::sync::Wait;
use tidword::TidWord;

/// The versions that a transaction has read, one a record (Silo, section 4.4: the read set). Contracts see
/// them by record number, in the order of the numbers. They stand as they came, so that a transaction that reads
/// some 400 records neither moves versions nor spends more than a few steps on each look-up. Those of wide records
/// stand by themselves, so that a narrow one takes no more memory for them.
#[derive(Drop)]
pub struct ReadSet {
    versions: Arrivals<Version>,
    wide: Few<WideVersion>,
}

impl Model for ReadSet {
    ghost use Rattle.std.specs.Prelude.{◌++◌, map};
    ghost use Rattle.readset.specs.Reads.{ReadSetView, as_read, IsNarrowVersion, IsWideVersion};
    ghost use Rattle.readset.specs.Arrived.{arrived};
    ghost use Rattle.readset.specs.Beside.{AreBeside};

    ghost Value = { ReadSetView };

    ghost view = { λ r. arrived r.versions ++ map as_read r.wide.entries.items };

    ghost invariant = { λ r. AreBeside IsNarrowVersion IsWideVersion (arrived r.versions)
        (map as_read r.wide.entries.items) };
}

impl ReadSet {
    /// Nothing read. Takes no memory.
    pub fn new(alloc: Global) -> ReadSet
        ensures none { result ≡ [] }
        ensures kinds { (cells : CellsView) → AreReadOfKind cells result }
    {
        ReadSet {
            versions: Arrivals::new(alloc),
            wide: Few::new(alloc),
        }
    }

    /// Takes memory for just so many versions of narrow records in one block, where none was taken yet: for a caller
    /// that knows how many it is to read. More may still come.
    ///
    /// # Errors
    ///
    /// `OutOfMemory`, and no other.
    pub(crate) fn reserve(&mut self, count: usize) -> Result<(), Refusal>
        ensures same { self.new ≡ self.old }
        ensures only_memory { IfErr result (λ refusal. refusal ≡ OutOfMemory) }
    {
        self.versions.reserve(count)?;
        Ok(())
    }

    /// The version of a narrow record: the one held, or else what a load of its cell gives, which is held from then
    /// on. Costs constant time, amortized, for a record above all others held; else the logarithm of how many are held,
    /// and for a load a move of 8 bytes for each of those above.
    ///
    /// # Errors
    ///
    /// `OutOfMemory`, and no other. The versions held are then as before, and nothing was loaded.
    pub fn get<R: Wait>(
        &mut self,
        rt: &R,
        cells: &Cells,
        reader: &mut Reader,
        number: u32,
    ) -> Result<Version, Refusal>
        requires own { reader.old.cells ≡ cells.now }
        requires is_record { number < length cells.now.narrow }
        requires kinds { AreReadOfKind cells.now self.old }
        ensures held { (v : Version) → held self.old number ≡ Some v → (result ≡ Ok v)
            × (self.new ≡ self.old) × (reader.new ≡ reader.old) }
        ensures read { held self.old number ≡ None
            → IfOk result (λ v. LoadsRecord reader.old reader.new number (words_of v)
            × (v.record ≡ number)) }
        ensures holds { IfOk result (λ v. held self.new number ≡ Some v) }
        ensures others { (n : ℕ) → n ≢ number → held self.new n ≡ held self.old n }
        ensures limit { length self.new ≤ length self.old + 1 }
        ensures keeps { Keeps self.old self.new }
        ensures within { AreWithin (cell_count cells.now) self.old → AreWithin (cell_count cells.now) self.new }
        ensures kinds { AreReadOfKind cells.now self.new }
        ensures kept { OnErr result (self.new ≡ self.old) }
        ensures unread { OnErr result (reader.new ≡ reader.old) }
        ensures chain { (first : ReaderView) → AreRead first reader.old self.old
            → AreRead first reader.new self.new }
        ensures grown { HasGrown reader.old reader.new }
        ensures grown_since { (first : ReaderView) → HasGrown first reader.old
            → HasGrown first reader.new }
        ensures only_memory { IfErr result (λ refusal. refusal ≡ OutOfMemory) }
    {
        match self.versions.find(number) {
            Ok(at) => Ok(*self.versions.value_in(at)),
            Err(at) => load(rt, cells, reader, &mut self.versions, at, number),
        }
    }

    /// The version of a wide record, as `get` gives that of a narrow one. Costs the logarithm of how many wide versions
    /// are held, and for a load a move of each of those above.
    ///
    /// # Errors
    ///
    /// `OutOfMemory`, and no other. The versions held are then as before, and nothing was loaded.
    pub fn get_wide<R: Wait>(
        &mut self,
        rt: &R,
        cells: &Cells,
        reader: &mut Reader,
        number: u32,
    ) -> Result<WideVersion, Refusal>
        requires own { reader.old.cells ≡ cells.now }
        requires is_record { (length cells.now.narrow ≤ number) × (number < cell_count cells.now) }
        requires kinds { AreReadOfKind cells.now self.old }
        ensures held { (v : Version) → held self.old number ≡ Some v → IsOkAnd result (λ w. as_version w ≡ v)
            × (self.new ≡ self.old) × (reader.new ≡ reader.old) }
        ensures read { held self.old number ≡ None
            → IfOk result (λ w. LoadsRecord reader.old reader.new number (wide_words_of w)
            × (w.record ≡ number)) }
        ensures holds { IfOk result (λ w. held self.new number ≡ Some (as_version w)) }
        ensures others { (n : ℕ) → n ≢ number → held self.new n ≡ held self.old n }
        ensures limit { length self.new ≤ length self.old + 1 }
        ensures keeps { Keeps self.old self.new }
        ensures within { AreWithin (cell_count cells.now) self.old → AreWithin (cell_count cells.now) self.new }
        ensures kinds { AreReadOfKind cells.now self.new }
        ensures kept { OnErr result (self.new ≡ self.old) }
        ensures unread { OnErr result (reader.new ≡ reader.old) }
        ensures chain { (first : ReaderView) → AreRead first reader.old self.old
            → AreRead first reader.new self.new }
        ensures grown { HasGrown reader.old reader.new }
        ensures grown_since { (first : ReaderView) → HasGrown first reader.old
            → HasGrown first reader.new }
        ensures only_memory { IfErr result (λ refusal. refusal ≡ OutOfMemory) }
    {
        match self.wide.find(number) {
            Ok(at) => Ok(*self.wide.value_in(at)),
            Err(at) => load_wide(rt, cells, reader, &mut self.wide, at, number),
        }
    }

    /// The version held of a narrow record. Costs the logarithm of the number of records held.
    pub fn held(&self, number: u32) -> Option<&Version>
        ensures some { IfSome result (λ v. held self.now number ≡ Some v.now) }
        ensures none { IfNone result ((v : Version) → held self.now number ≡ Some v → IsWideVersion v) }
    {
        self.versions.value_at(number)
    }

    /// How many versions are held.
    pub fn len(&self) -> usize
        ensures len { result ≡ length self.now }
        ensures found { All (λ e. held self.now e.0 ≡ Some e.1) self.now }
        ensures ordered { IsStrictlySortedBy nat_cmp (keys_of self.now) }
    {
        self.versions.count() + self.wide.count()
    }

    /// The record and the TID word of the version held at a place in the order of the record numbers. Takes constant
    /// time.
    #[inline(always)]
    pub fn seen(&self, place: usize) -> (u32, TidWord)
        requires { place < length self.now }
        ensures { (d : ℕ × Version) → (result.0 ≡ (slice_index_or self.now place d).1.record)
            × (result.1 ≡ (slice_index_or self.now place d).1.word) }
    {
        let narrow = self.versions.count();
        if place < narrow {
            let version = self.versions.value_in(place);
            return (version.record, version.word);
        }
        let version = self.wide.value_in(place - narrow);
        (version.record, version.word)
    }
}

/// Loads a narrow record's version, for which there is room first: what was loaded is held. This is its place in the
/// order.
fn load<R: Wait>(
    rt: &R,
    cells: &Cells,
    reader: &mut Reader,
    versions: &mut Arrivals<Version>,
    at: usize,
    number: u32,
) -> Result<Version, Refusal>
    requires own { reader.old.cells ≡ cells.now }
    requires is_record { number < length cells.now.narrow }
    requires at { place (arrived versions.old) number ≡ Err at }
    ensures read { IfOk result (λ v. LoadsRecord reader.old reader.new number (words_of v)
        × (v.record ≡ number)) }
    ensures entries { IfOk result (λ v. arrived versions.new
        ≡ insert_entry nat_cmp (arrived versions.old) number v) }
    ensures narrow { IfOk result IsNarrowVersion }
    ensures grown { HasGrown reader.old reader.new }
    ensures unread { OnErr result (reader.new ≡ reader.old) }
    ensures kept { OnErr result (arrived versions.new ≡ arrived versions.old) }
    ensures only_memory { IfErr result (λ refusal. refusal ≡ OutOfMemory) }
{
    versions.make_room(at)?;
    let version = &cells.read(rt, reader, number);
    versions.add(at, number, *version);
    Ok(*version)
}

/// The same of a wide record.
fn load_wide<R: Wait>(
    rt: &R,
    cells: &Cells,
    reader: &mut Reader,
    versions: &mut Few<WideVersion>,
    at: usize,
    number: u32,
) -> Result<WideVersion, Refusal>
    requires own { reader.old.cells ≡ cells.now }
    requires is_record { (length cells.now.narrow ≤ number) × (number < cell_count cells.now) }
    requires at { place versions.old.entries.items number ≡ Err at }
    ensures read { IfOk result (λ w. LoadsRecord reader.old reader.new number (wide_words_of w)
        × (w.record ≡ number)) }
    ensures entries { IfOk result (λ w. versions.new.entries.items
        ≡ insert_entry nat_cmp versions.old.entries.items number w) }
    ensures wide { IfOk result (λ w. IsWideVersion (as_version w)) }
    ensures grown { HasGrown reader.old reader.new }
    ensures unread { OnErr result (reader.new ≡ reader.old) }
    ensures kept { OnErr result (versions.new.entries.items ≡ versions.old.entries.items) }
    ensures only_memory { IfErr result (λ refusal. refusal ≡ OutOfMemory) }
{
    versions.make_room()?;
    let version = &cells.read_wide(rt, reader, number);
    versions.add(at, number, *version);
    Ok(*version)
}

/// What a version says that its record holds: its words, or nothing where it is absent. Takes constant time.
pub fn value_of(version: &Version) -> Option<Payload>
    ensures { result ≡ value_of version.now }
{
    if version.word.is_absent() {
        None
    } else {
        Some(version.payload)
    }
}

/// The same of a wide record's version.
pub(crate) fn wide_value_of(wide: &WideVersion) -> Option<DataWords>
    ensures { result ≡ value_of (as_version wide.now) }
{
    if wide.word.is_absent() {
        None
    } else {
        Some(wide.payload)
    }
}
