//! A few entries by record number, in the order of the numbers.
ghost use Rattle.std.proofs.Props.{props};
ghost use Rattle.std.specs.Prelude.{◌≡◌};
ghost use Rattle.std.specs.Ordering.{nat_cmp};
ghost use Rattle.std.specs.Map.{keys_of};
ghost use Rattle.std.specs.List.Sorted.{IsStrictlySortedBy};
ghost use Rattle.std.proofs.lemmas.Map.Keys.{IsStrictlySortedBy-prop};

use crate::places::place_of;
use std::alloc::{AllocError, Global};

/// Entries by record number, one a number, in the order of the numbers: large ones, and so few that moving those behind
/// a new one doesn't count. Most transactions have none.
#[derive(Drop)]
pub(crate) struct Few<V> {
    entries: Vec<(u32, V)>,
    ghost ordered: { IsStrictlySortedBy nat_cmp (keys_of entries.items) } by { Prim.hlevel (props, IsStrictlySortedBy-prop) },
}

impl<V: Copy> Few<V> {
    ghost use Rattle.std.specs.Prelude.{◌<◌, ℕ, [], Ok, Err, OnOk, OnErr, get_or, length};
    ghost use Rattle.std.specs.Vec.{vec_len, vec_capacity};
    ghost use Rattle.std.specs.BTreeMap.{insert_entry};
    ghost use Rattle.readset.specs.Places.{place};

    /// No entries. Takes no memory.
    pub(crate) fn new(alloc: Global) -> Few<V>
        ensures { result.entries.items ≡ [] }
    {
        Few {
            entries: Vec::new(alloc),
        }
    }

    /// How many entries there are.
    #[inline(always)]
    pub(crate) fn count(&self) -> usize
        ensures { result ≡ length self.now.entries.items }
    {
        self.entries.len()
    }

    /// The place of a number, or else the place where it would go.
    pub(crate) fn find(&self, number: u32) -> Result<usize, usize>
        ensures { result ≡ place self.now.entries.items number }
    {
        place_of(self.entries.as_slice(), number)
    }

    /// The value at a place. Takes constant time.
    #[inline(always)]
    pub(crate) fn value_in(&self, at: usize) -> &V
        requires { at < length self.now.entries.items }
        ensures { (d : ℕ × V) → result.now ≡ (get_or self.now.entries.items at d).1 }
    {
        &self.entries[at].1
    }

    /// The entries, in the order of their numbers.
    #[inline(always)]
    pub(crate) fn entries(&self) -> &[(u32, V)]
        ensures { result.now ≡ self.now.entries.items }
    {
        self.entries.as_slice()
    }

    /// Gives a number this value, in the place of the one that it has.
    pub(crate) fn put(&mut self, number: u32, value: V) -> Result<(), AllocError>
        ensures puts { OnOk result (self.new.entries.items ≡ insert_entry nat_cmp self.old.entries.items number value) }
        ensures kept { OnErr result (self.new.entries.items ≡ self.old.entries.items) }
    {
        match self.find(number) {
            Ok(at) => self.replace(at, number, value),
            Err(at) => {
                self.make_room()?;
                self.add(at, number, value);
            }
        }
        Ok(())
    }

    /// Makes room for an entry more: for just one at first, as most transactions with any have one.
    pub(crate) fn make_room(&mut self) -> Result<(), AllocError>
        ensures same { self.new.entries.items ≡ self.old.entries.items }
        ensures room { OnOk result (vec_len self.new.entries < vec_capacity self.new.entries) }
    {
        if self.entries.capacity() == 0 {
            return self.entries.reserve_exact(1);
        }
        self.entries.reserve(1)
    }

    /// Adds the entry of a number that has none, at its place.
    pub(crate) fn add(&mut self, at: usize, number: u32, value: V)
        requires place { place self.old.entries.items number ≡ Err at }
        requires room { vec_len self.old.entries < vec_capacity self.old.entries }
        ensures { self.new.entries.items ≡ insert_entry nat_cmp self.old.entries.items number value }
    {
        let Ok(()) = self.entries.insert(at, (number, value)) else {
            unreachable!()
        };
    }

    /// Gives the number that has this place another value.
    pub(crate) fn replace(&mut self, at: usize, number: u32, value: V)
        requires { place self.old.entries.items number ≡ Ok at }
        ensures { self.new.entries.items ≡ insert_entry nat_cmp self.old.entries.items number value }
    {
        self.entries[at] = (number, value);
    }
}
