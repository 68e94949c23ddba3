//! What a part of the entries of log files says.
ghost use Rattle.std.specs.Prelude.{◌≡◌, true, [], ◌∷◌, ◌++◌, List, length, map, filter, fold, IfOk, OnOk, ℕ};
ghost use Rattle.tables.specs.Records.{record_count as count_of_records};
ghost use Rattle.tables.specs.Sizes.{Sizes, IsScale};
ghost use Rattle.log_text.specs.Bodies.{body_of, entries_in};
ghost use Rattle.log_text.specs.Entries.{EntryView, logged};
ghost use Rattle.log_text.specs.Writes.{are_writes, is_write};
ghost use Rattle.tidword.specs.TidWord.{epoch_of};
ghost use Rattle.recover_found.specs.Found.{counts_by, counted, entries_of};
ghost use Rattle.recover_newest.specs.Known.{known};
ghost use Rattle.recover_files.specs.Parts.{IsPart, HaveLawfulWrites, raised_by};

use crate::history::added_row;
use crate::numbering::Commit;
use log_text::{Body, LoggedEntry, Write};
use recover_found::Keeps;
use recover_newest::{Latest, Newest};
use recover_progress::Progress;
use std::alloc::{AllocError, Global};
use tables::{Scale, Table, rec, record_count};

/// What entries of log files say: of each record what the newest of those that write it has left there, and of each
/// entry its commit number and its row of HISTORY. Takes 4 bytes for each record of the scale; the rest goes by what
/// was written.
#[derive(Drop)]
pub struct Part {
    pub newest: Newest,
    pub commits: Vec<Commit>,
}

impl Part {
    /// A part without entries.
    pub fn new(alloc: Global, scale: &Scale) -> Result<Part, AllocError>
        ensures { IfOk result (λ part. IsPart scale.now [] part) }
    {
        let newest = Newest::new(alloc, record_count(scale) as usize)?;
        Ok(Part {
            newest,
            commits: Vec::new(alloc),
        })
    }

    /// The entries of a file's bodies that count. Constant time a write. Those of a body are noted once they were
    /// looked at.
    pub fn of_file(
        alloc: Global,
        scale: &Scale,
        bodies: Vec<Body>,
        keeps: &Keeps,
        progress: &Progress,
    ) -> Result<Part, AllocError>
        requires scale { IsScale scale.now }
        requires lawful { HaveLawfulWrites scale.now (entries_of (map body_of bodies.items)) }
        ensures { IfOk result (λ part. IsPart scale.now (counted (counts_by keeps.now)
            (map body_of bodies.items)) part) }
    {
        let mut part = Part::new(alloc, scale)?;
        for body in bodies {
            part.add_body(scale, body, keeps, progress)?;
        }
        Ok(part)
    }

    /// Looks at the entries of a body that count.
    fn add_body(
        &mut self,
        scale: &Scale,
        body: Body,
        keeps: &Keeps,
        progress: &Progress,
    ) -> Result<(), AllocError>
        requires scale { IsScale scale.now }
        requires lawful { HaveLawfulWrites scale.now (entries_in (body_of body)) }
        requires records { length self.old.newest.places ≡ count_of_records scale.now }
        ensures part { OnOk result ((es : List EntryView) → IsPart scale.now es self.old → IsPart scale.now
            (es ++ filter (λ e. counts_by keeps.now (epoch_of e.tid)) (entries_in (body_of body))) self.new) }
        ensures records { length self.new.newest.places ≡ length self.old.newest.places }
    {
        match body {
            Body::Entries(_, entries) => self.add_all(scale, entries, keeps, progress),
            Body::Void(_, _) => Ok(()),
        }
    }

    /// Looks at those of some entries that count. Each is given up once it was looked at.
    fn add_all(
        &mut self,
        scale: &Scale,
        entries: Vec<LoggedEntry>,
        keeps: &Keeps,
        progress: &Progress,
    ) -> Result<(), AllocError>
        requires scale { IsScale scale.now }
        requires lawful { HaveLawfulWrites scale.now (map logged entries.items) }
        requires records { length self.old.newest.places ≡ count_of_records scale.now }
        ensures part { OnOk result ((es : List EntryView) → IsPart scale.now es self.old
            → IsPart scale.now (es ++ filter (λ e. counts_by keeps.now (epoch_of e.tid))
            (map logged entries.items)) self.new) }
        ensures records { length self.new.newest.places ≡ length self.old.newest.places }
    {
        let count = entries.len();
        for entry in entries {
            self.look_at(scale, entry, keeps)?;
        }
        progress.note_entries(count);
        Ok(())
    }

    /// Looks at an entry, if it counts.
    fn look_at(
        &mut self,
        scale: &Scale,
        entry: LoggedEntry,
        keeps: &Keeps,
    ) -> Result<(), AllocError>
        requires scale { IsScale scale.now }
        requires lawful { are_writes scale.now entry.writes.items ≡ true }
        requires records { length self.old.newest.places ≡ count_of_records scale.now }
        ensures part { OnOk result ((es : List EntryView) → IsPart scale.now es self.old
            → IsPart scale.now (es ++ filter (λ e. counts_by keeps.now (epoch_of e.tid))
            (logged entry ∷ [])) self.new) }
        ensures records { length self.new.newest.places ≡ length self.old.newest.places }
    {
        if !is_counted(&entry, keeps) {
            return Ok(());
        }
        self.add(scale, entry)
    }

    /// Looks at one entry more.
    fn add(&mut self, scale: &Scale, entry: LoggedEntry) -> Result<(), AllocError>
        requires scale { IsScale scale.now }
        requires lawful { are_writes scale.now entry.writes.items ≡ true }
        requires records { length self.old.newest.places ≡ count_of_records scale.now }
        ensures part { OnOk result ((es : List EntryView) → IsPart scale.now es self.old
            → IsPart scale.now (es ++ logged entry ∷ []) self.new) }
        ensures records { length self.new.newest.places ≡ length self.old.newest.places }
    {
        let commit = Commit {
            number: entry.number,
            row: added_row(&entry.writes),
        };
        raise_all(&mut self.newest, scale, entry)?;
        self.commits.push(commit)?;
        Ok(())
    }

    /// Adds what another part knows, and its commits behind this one's. One pass over the records and the other's
    /// commits; a part without commits becomes the other as it is.
    pub fn merge(&mut self, other: Part) -> Result<(), AllocError>
        requires records { length self.old.newest.places ≡ length other.newest.places }
        ensures part { OnOk result ((s : Sizes) (es more : List EntryView) → IsPart s es self.old → IsPart s more other
            → IsPart s (es ++ more) self.new) }
        ensures records { length self.new.newest.places ≡ length self.old.newest.places }
    {
        if self.commits.is_empty() {
            *self = other;
            return Ok(());
        }
        let Part {
            newest,
            mut commits,
        } = other;
        self.newest.merge(newest)?;
        self.commits.append(&mut commits)?;
        Ok(())
    }
}

/// Whether an entry counts: its epoch is the upper half of its TID.
fn is_counted(entry: &LoggedEntry, keeps: &Keeps) -> bool
    ensures { result ≡ counts_by keeps.now (epoch_of entry.now.tid) }
{
    keeps.keeps(entry.tid >> 32)
}

/// Keeps each write of an entry that is newer than what is known of its record. Rows of HISTORY have no record.
fn raise_all(newest: &mut Newest, scale: &Scale, entry: LoggedEntry) -> Result<(), AllocError>
    requires lawful { are_writes scale.now entry.writes.items ≡ true }
    requires records { length newest.old.places ≡ count_of_records scale.now }
    ensures raised { OnOk result ((n : ℕ) → known newest.new n
        ≡ fold (raised_by scale.now entry.tid entry.number n) (known newest.old n) entry.writes.items) }
    ensures records { length newest.new.places ≡ length newest.old.places }
{
    let (tid, number) = (entry.tid, entry.number);
    for write in entry.writes {
        raise_one(newest, scale, tid, number, write)?;
    }
    Ok(())
}

/// Keeps a write of a commit, where it is newer than what is known of its record.
fn raise_one(
    newest: &mut Newest,
    scale: &Scale,
    tid: u64,
    number: u64,
    write: Write,
) -> Result<(), AllocError>
    requires lawful { is_write scale.now write ≡ true }
    requires records { length newest.old.places ≡ count_of_records scale.now }
    ensures raised { OnOk result ((n : ℕ) → known newest.new n
        ≡ raised_by scale.now tid number n (known newest.old n) write) }
    ensures records { length newest.new.places ≡ length newest.old.places }
{
    if matches!(write.table, Table::History) {
        return Ok(());
    }
    let record = rec(scale, write.table, write.place);
    let value = write.value;
    newest.raise(record as usize, Latest { tid, number, value })
}
