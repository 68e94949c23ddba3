//! Entries by record number as they came, beside a list of their places in the order of the numbers.
ghost use Rattle.std.proofs.Props.{props};
ghost use Rattle.std.specs.Prelude.{◌≡◌, ◌<◌, ◌≤◌, length};
ghost use Rattle.std.specs.List.{insert};
ghost use Rattle.std.specs.Vec.{vec_len, vec_capacity};
ghost use Rattle.readset.specs.Arrivals.{AreArrivals, in_order};
ghost use Rattle.readset.specs.Places.{place};
ghost use Rattle.std.proofs.lemmas.Map.Keys.{IsStrictlySortedBy-prop};

use crate::places::place_of;
use std::alloc::{AllocError, Global};

/// Entries by record number, one a number. They stand as they came, and the order of their numbers is a list of their
/// places: a transaction that goes through its records in their order needs no such list, and any other moves 8 bytes
/// an entry in place of 80.
#[derive(Drop)]
pub(crate) struct Arrivals<V> {
    entries: Vec<(u32, V)>,
    order: Vec<(u32, u32)>,
    ghost sound: { AreArrivals entries.items order.items } by { Prim.hlevel (props, IsStrictlySortedBy-prop) },
}

impl<V: Copy> Arrivals<V> {
    ghost use Rattle.std.specs.Prelude.{ℕ, [], Ok, Err, IfOk, OnOk, OnErr, true, get_or};
    ghost use Rattle.std.specs.Option.{option_copied};
    ghost use Rattle.std.specs.Ordering.{nat_cmp};
    ghost use Rattle.std.specs.Map.{lookup};
    ghost use Rattle.std.specs.BTreeMap.{is_at, insert_entry};
    ghost use Rattle.readset.specs.Arrived.{arrived, HasSpaceAt};

    /// No entries. Takes no memory.
    pub(crate) fn new(alloc: Global) -> Arrivals<V>
        ensures { arrived result ≡ [] }
    {
        Arrivals {
            entries: Vec::new(alloc),
            order: Vec::new(alloc),
        }
    }

    /// Where their memory comes from.
    pub(crate) fn allocator(&self) -> Global {
        *self.entries.allocator()
    }

    /// Takes memory for just so many entries, in one block, where none was taken yet.
    pub(crate) fn reserve(&mut self, count: usize) -> Result<(), AllocError>
        ensures same { arrived self.new ≡ arrived self.old }
    {
        if self.entries.capacity() == 0 {
            self.entries.reserve_exact(count)?;
        }
        Ok(())
    }

    /// The place of a number in the order, or else the place where it would go. Takes constant time for a number above
    /// all others, as most are of a transaction that goes through its records in their order; else the logarithm of how
    /// many entries there are.
    #[inline(always)]
    pub(crate) fn find(&self, number: u32) -> Result<usize, usize>
        ensures { result ≡ place (arrived self.now) number }
    {
        place_in(self.entries.as_slice(), self.order.as_slice(), number)
    }

    /// How many numbers have an entry.
    #[inline(always)]
    pub(crate) fn count(&self) -> usize
        ensures { result ≡ length (arrived self.now) }
    {
        if self.order.is_empty() {
            self.entries.len()
        } else {
            self.order.len()
        }
    }

    /// The value at a place in the order. Takes constant time.
    #[inline(always)]
    pub(crate) fn value_in(&self, at: usize) -> &V
        requires { at < length (arrived self.now) }
        ensures { (d : ℕ × V) → result.now ≡ (get_or (arrived self.now) at d).1 }
    {
        if self.order.is_empty() {
            &self.entries[at].1
        } else {
            &self.entries[self.order[at].1 as usize].1
        }
    }

    /// The value of a number. Costs what `find` does.
    pub(crate) fn value_at(&self, number: u32) -> Option<&V>
        ensures { option_copied result ≡ lookup (is_at (nat_cmp number)) (arrived self.now) }
    {
        match self.find(number) {
            Ok(at) => Some(self.value_in(at)),
            Err(_) => None,
        }
    }

    /// Makes room for the entry of a number that has none, where this is its place in the order. A number below others
    /// asks for a list of the order, where there is none yet.
    #[inline(always)]
    pub(crate) fn make_room(&mut self, at: usize) -> Result<(), AllocError>
        requires { at ≤ length (arrived self.old) }
        ensures same { arrived self.new ≡ arrived self.old }
        ensures space { OnOk result (HasSpaceAt self.new at) }
    {
        // A place takes 4 bytes.
        if self.entries.len() >= u32::MAX as usize {
            return Err(AllocError);
        }
        let room = self.entries.len() < self.entries.capacity();
        if room && self.has_place(at) {
            return Ok(());
        }
        self.grow(at)
    }

    /// Whether the order can take a place more, or needs none.
    #[inline(always)]
    fn has_place(&self, at: usize) -> bool
        ensures listed { result ≡ true → 0 < length self.now.order.items
            → vec_len self.now.order < vec_capacity self.now.order }
        ensures unlisted { result ≡ true → self.now.order.items ≡ [] → at ≡ length self.now.entries.items }
    {
        if self.order.is_empty() {
            at == self.entries.len()
        } else {
            self.order.len() < self.order.capacity()
        }
    }

    /// Makes that room where memory may have to be taken: seldom, and so kept out of the steps that need none.
    #[inline(never)]
    fn grow(&mut self, at: usize) -> Result<(), AllocError>
        requires few { length self.old.entries.items < 4_294_967_295 }
        requires at { at ≤ length (arrived self.old) }
        ensures same { arrived self.new ≡ arrived self.old }
        ensures space { OnOk result (HasSpaceAt self.new at) }
    {
        // A dozen first, as a short transaction needs, and then four times as many: growing was a tenth of a long one.
        if self.entries.capacity() <= self.entries.len() {
            self.entries.reserve(self.entries.len() * 3 + 12)?;
        }
        if self.order.is_empty() {
            if at == self.entries.len() {
                return Ok(());
            }
            self.order = self.listed()?;
        }
        self.order.reserve(1)?;
        Ok(())
    }

    /// The places of entries that came in the order of their numbers.
    fn listed(&self) -> Result<Vec<(u32, u32)>, AllocError>
        requires few { length self.now.entries.items < 4_294_967_295 }
        requires unlisted { self.now.order.items ≡ [] }
        ensures same { IfOk result (λ order. in_order self.now.entries.items order.items ≡ self.now.entries.items) }
        ensures sound { IfOk result (λ order. AreArrivals self.now.entries.items order.items) }
        ensures listed { IfOk result (λ order. order.items ≡ [] → self.now.entries.items ≡ []) }
    {
        // More will come: a block of 1 KB costs no more than a small one.
        let alloc = *self.entries.allocator();
        let mut order = Vec::with_capacity(alloc, self.entries.len() + 96)?;
        for place in 0..self.entries.len() {
            order.push((self.entries[place].0, place as u32))?;
        }
        Ok(order)
    }

    /// Adds the entry of a number that has none, at its place in the order. Takes constant time for a number above all
    /// others where no order is listed; else a move of 8 bytes for each number above.
    pub(crate) fn add(&mut self, at: usize, number: u32, value: V)
        requires place { place (arrived self.old) number ≡ Err at }
        requires space { HasSpaceAt self.old at }
        ensures { arrived self.new ≡ insert_entry nat_cmp (arrived self.old) number value }
    {
        if !self.order.is_empty() {
            return self.add_listed(at, number, value);
        }
        self.entries.push_reserved((number, value));
    }

    /// The same, where an order is listed.
    fn add_listed(&mut self, at: usize, number: u32, value: V)
        requires place { place (arrived self.old) number ≡ Err at }
        requires space { HasSpaceAt self.old at }
        requires listed { 0 < length self.old.order.items }
        ensures { arrived self.new ≡ insert_entry nat_cmp (arrived self.old) number value }
    {
        let place = self.entries.len() as u32;
        self.entries.push_reserved((number, value));
        put_place(&mut self.order, at, (number, place));
    }

    /// Gives a number, whose place in the order this is, another value. Where an order is listed, the value that it had
    /// stays in memory.
    pub(crate) fn replace(&mut self, at: usize, number: u32, value: V) -> Result<(), AllocError>
        requires { place (arrived self.old) number ≡ Ok at }
        ensures replaced { OnOk result (arrived self.new ≡ insert_entry nat_cmp (arrived self.old) number value) }
        ensures kept { OnErr result (arrived self.new ≡ arrived self.old) }
    {
        if self.order.is_empty() {
            self.entries[at] = (number, value);
            return Ok(());
        }
        if self.entries.len() >= u32::MAX as usize {
            return Err(AllocError);
        }
        let place = self.entries.len() as u32;
        self.entries.push((number, value))?;
        self.order[at] = (number, place);
        Ok(())
    }

    /// The entries in the order of their numbers. In constant time, in the memory that they came in, where no order is
    /// listed and at most a quarter of it is spare; else in one pass over them, in memory for just these.
    pub(crate) fn into_ordered(self) -> Result<Vec<(u32, V)>, AllocError>
        ensures { IfOk result (λ list. list.items ≡ arrived self) }
    {
        let room = self.entries.capacity();
        if self.order.is_empty() && room - room / 4 <= self.entries.len() {
            let Arrivals { entries, order: _ } = self;
            return Ok(entries);
        }
        self.ordered()
    }

    /// A copy of the entries in the order of their numbers, in memory for just these: what they came in is soon used
    /// again. In one pass over them.
    fn ordered(&self) -> Result<Vec<(u32, V)>, AllocError>
        ensures { IfOk result (λ list. list.items ≡ arrived self.now) }
    {
        let count = self.count();
        let mut list = Vec::with_capacity(*self.entries.allocator(), count)?;
        for place in 0..count {
            list.push(self.entry_in(place))?;
        }
        Ok(list)
    }

    /// The entry at a place in the order. Takes constant time.
    fn entry_in(&self, at: usize) -> (u32, V)
        requires { at < length (arrived self.now) }
        ensures { (d : ℕ × V) → result ≡ get_or (arrived self.now) at d }
    {
        if self.order.is_empty() {
            self.entries[at]
        } else {
            (self.order[at].0, self.entries[self.order[at].1 as usize].1)
        }
    }
}

/// Puts an entry's place into the order, where there is room. In constant time behind all others, as most go of a
/// transaction that goes through a table in order; else in a move of 8 bytes for each behind it.
#[inline(always)]
fn put_place(order: &mut Vec<(u32, u32)>, at: usize, place: (u32, u32))
    requires at { at ≤ length order.old.items }
    requires room { vec_len order.old < vec_capacity order.old }
    ensures { order.new.items ≡ insert order.old.items at place }
{
    if at == order.len() {
        return order.push_reserved(place);
    }
    let Ok(()) = order.insert(at, place) else {
        unreachable!()
    };
}

/// The place of a number in the order of these entries, or else the place where it would go.
#[inline(always)]
fn place_in<V>(entries: &[(u32, V)], order: &[(u32, u32)], number: u32) -> Result<usize, usize>
    requires { AreArrivals entries.now order.now }
    ensures { result ≡ place (in_order entries.now order.now) number }
{
    if order.is_empty() {
        place_of(entries, number)
    } else {
        place_of(order, number)
    }
}
