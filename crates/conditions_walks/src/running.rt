//! Sums by group under way: what the last rows of one group add is held beside the sums, so that rows of one
//! group that come one after another cost no search.

ghost use Rattle.std.specs.Prelude.{IfOk, OnOk, ◌≡◌, ◌+◌, ◌-◌, ◌^◌, ℕ, ℤ, pos, neg_ℤ, ◌+ℤ◌, ◌≤ℤ◌, ◌<ℤ◌, false};
ghost use Rattle.std.specs.Option.{option_map_or};
ghost use Rattle.std.specs.Ordering.{eq_by_cmp};
ghost use Rattle.conditions_walks.specs.Amounts.{amount_at, AreBounded, share};
ghost use Rattle.conditions_walks.specs.Running.{held_at, running_at, IsWithin};

use std::alloc::{AllocError, Global};
use std::cmp::Ordering;
use std::collections::BTreeMap;

/// Sums by group, and what is still to be added to one of them.
#[derive(Drop)]
pub struct Running<G: Ord + Copy> {
    sums: BTreeMap<G, i128>,
    /// The group of the last row that has one.
    group: Option<G>,
    /// What the last rows have added to the sum of that group.
    held: i128,
}

impl<G: Ord + Copy> Running<G> {
    /// No sums. Takes no memory.
    pub fn new(alloc: Global) -> Running<G>
        ensures nothing { (k : G) → running_at G.cmp result k ≡ pos 0 }
        ensures within { IsWithin G.cmp result 0 }
    {
        Running {
            sums: BTreeMap::new(alloc),
            group: None,
            held: 0,
        }
    }

    /// Adds an amount to the sum of a group.
    pub fn add(&mut self, group: G, amount: i64) -> Result<(), AllocError>
        requires { IsWithin G.cmp self.old (2 ^ 63) }
        ensures sums { OnOk result ((k : G) → running_at G.cmp self.new k
            ≡ running_at G.cmp self.old k +ℤ share (eq_by_cmp G.cmp group k) amount) }
        ensures within { OnOk result ((n : ℕ) → IsWithin G.cmp self.old n → IsWithin G.cmp self.new (n + 1)) }
    {
        self.hold(group)?;
        self.held = plus(self.held, i128::from(amount));
        Ok(())
    }

    /// Makes a group the one that is held.
    fn hold(&mut self, group: G) -> Result<(), AllocError>
        requires { IsWithin G.cmp self.old (2 ^ 63) }
        ensures group { OnOk result ((k : G) (sum : ℤ) → held_at G.cmp self.new.group sum k
            ≡ share (eq_by_cmp G.cmp group k) sum) }
        ensures sums { OnOk result ((k : G) → running_at G.cmp self.new k ≡ running_at G.cmp self.old k) }
        ensures within { OnOk result ((n : ℕ) → IsWithin G.cmp self.old n → IsWithin G.cmp self.new n) }
    {
        if is_group(&self.group, &group) {
            return Ok(());
        }
        self.put()?;
        self.group = Some(group);
        Ok(())
    }

    /// Adds what is held to the sums.
    fn put(&mut self) -> Result<(), AllocError>
        requires { IsWithin G.cmp self.old (2 ^ 63) }
        ensures sums { OnOk result ((k : G) → amount_at G.cmp self.new.sums k ≡ running_at G.cmp self.old k) }
        ensures held { OnOk result (self.new.held ≡ pos 0) }
    {
        if let Some(group) = self.group {
            add(&mut self.sums, group, self.held)?;
        }
        self.held = 0;
        Ok(())
    }

    /// All sums.
    pub fn close(self) -> Result<BTreeMap<G, i128>, AllocError>
        requires { IsWithin G.cmp self (2 ^ 63 - 1) }
        ensures sums { IfOk result (λ sums. (k : G) → amount_at G.cmp sums k ≡ running_at G.cmp self k) }
        ensures bound { IfOk result (AreBounded G.cmp) }
    {
        let mut running = self;
        running.put()?;
        let Running { sums, .. } = running;
        Ok(sums)
    }
}

/// Whether a group is the one that is held.
pub fn is_group<G: Ord>(held: &Option<G>, group: &G) -> bool
    ensures { result ≡ option_map_or (λ h. eq_by_cmp G.cmp h group.now) held.now false }
{
    match held {
        Some(held) => held.cmp(group) == Ordering::Equal,
        None => false,
    }
}

/// Adds an amount to the sum of a group.
fn add<G: Ord + Copy>(
    sums: &mut BTreeMap<G, i128>,
    group: G,
    amount: i128,
) -> Result<(), AllocError>
    requires low { neg_ℤ (pos (2 ^ 126)) ≤ℤ (amount_at G.cmp sums.old group +ℤ amount) }
    requires high { (amount_at G.cmp sums.old group +ℤ amount) ≤ℤ pos (2 ^ 126) }
    ensures { OnOk result ((g : G) → amount_at G.cmp sums.new g
        ≡ amount_at G.cmp sums.old g +ℤ share (eq_by_cmp G.cmp group g) amount) }
{
    *sums.entry(group)?.or_insert(0) += amount;
    Ok(())
}

/// A sum with one more amount.
fn plus(sum: i128, amount: i128) -> i128
    requires low { neg_ℤ (pos (2 ^ 127)) ≤ℤ (sum +ℤ amount) }
    requires high { (sum +ℤ amount) <ℤ pos (2 ^ 127) }
    ensures { result ≡ sum +ℤ amount }
{
    sum + amount
}
