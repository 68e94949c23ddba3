//! The newest write of each record.
ghost use Rattle.std.specs.Prelude.{◌≡◌, ◌≢◌, ◌<◌, ◌==◌, ℕ, Some, None, length, OnOk, OnErr, IfOk, if◌then◌else◌};
ghost use Rattle.std.specs.Option.{option_map};
ghost use Rattle.recover_newest.specs.Latest.{newer, joined};
ghost use Rattle.recover_newest.specs.Known.{known};

use crate::latest::Latest;
use log_text::Value;
use std::alloc::{AllocError, Global};
use std::marker::Model;
use std::mem;

/// The newest writes of records, as far as writes were looked at: a list of them, and of each record its place there.
/// It takes 4 bytes for each record that it was made for, and a write for each record that was written.
#[derive(Drop)]
pub struct Newest {
    /// By record number: 0 where no write is known, else the place of the newest in the list, from 1.
    places: Vec<u32>,
    writes: Vec<Latest>,
}

impl Model for Newest {
    ghost use Rattle.recover_newest.specs.Known.{NewestView, ArePlaces};

    ghost Value = { NewestView };

    ghost view = { λ newest. record { places = newest.places.items; writes = newest.writes.items } };

    ghost invariant = { λ newest. ArePlaces newest.places.items newest.writes.items };
}

impl Newest {
    /// Nothing known of so many records.
    pub fn new(alloc: Global, records: usize) -> Result<Newest, AllocError>
        ensures records { IfOk result (λ newest. length newest.places ≡ records) }
        ensures none { IfOk result (λ newest. (n : ℕ) → known newest n ≡ None) }
    {
        let places = vec![in alloc; 0; records]?;
        Ok(Newest {
            places,
            writes: Vec::new(alloc),
        })
    }

    /// Of how many records a write may be known.
    pub fn records(&self) -> usize
        ensures { result ≡ length self.now.places }
    {
        self.places.len()
    }

    /// The newest write of a record, if one is known. Constant time.
    pub fn get(&self, number: usize) -> Option<&Latest>
        requires { number < length self.now.places }
        ensures { option_map (λ write. write.now) result ≡ known self.now number }
    {
        let place = self.places[number];
        if place == 0 {
            return None;
        }
        Some(&self.writes[place as usize - 1])
    }

    /// Moves the newest write of a record out, if one is known. Nothing is said of what is then known of that record.
    fn take(&mut self, number: usize) -> Option<Latest>
        requires { number < length self.old.places }
        ensures taken { result ≡ known self.old number }
        ensures others { (n : ℕ) → n ≢ number → known self.new n ≡ known self.old n }
        ensures records { length self.new.places ≡ length self.old.places }
    {
        let place = self.places[number];
        if place == 0 {
            return None;
        }
        let left = Latest {
            tid: 0,
            number: 0,
            value: Value::Absent,
        };
        Some(mem::replace(&mut self.writes[place as usize - 1], left))
    }

    /// Keeps a write of the record of this number, where none is known yet that is newer or as new. Constant time;
    /// without memory for it nothing changes.
    pub fn raise(&mut self, number: usize, write: Latest) -> Result<(), AllocError>
        requires { number < length self.old.places }
        ensures records { length self.new.places ≡ length self.old.places }
        ensures kept { OnOk result ((n : ℕ) → known self.new n
            ≡ (if n == number then Some (newer (known self.old n) write) else known self.old n)) }
        ensures err { OnErr result (self.new ≡ self.old) }
    {
        let place = self.places[number];
        if place != 0 {
            keep_newer(&mut self.writes[place as usize - 1], write);
            return Ok(());
        }
        // A place takes 4 bytes.
        if self.writes.len() >= u32::MAX as usize {
            return Err(AllocError);
        }
        self.writes.push(write)?;
        self.places[number] = self.writes.len() as u32;
        Ok(())
    }

    /// Keeps of each record the newer of what either has of it. One pass over the records; no write is copied.
    pub fn merge(&mut self, other: Newest) -> Result<(), AllocError>
        requires { length other.places ≡ length self.old.places }
        ensures records { length self.new.places ≡ length self.old.places }
        ensures merged { OnOk result ((n : ℕ) → known self.new n ≡ joined (known self.old n) (known other n)) }
    {
        let mut rest = other;
        for number in 0..rest.places.len() {
            if let Some(write) = rest.take(number) {
                self.raise(number, write)?;
            }
        }
        Ok(())
    }
}

/// Keeps the newer of two writes of a record: the second where the first is older.
fn keep_newer(known: &mut Latest, write: Latest)
    ensures { known.new ≡ newer (Some known.old) write }
{
    if known.is_older(&write) {
        *known = write;
    }
}
