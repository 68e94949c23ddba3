//! Sums by group over all rows of a table, in one pass.

ghost use Rattle.std.specs.Prelude.{IfOk, OnOk, IfSome, IfNone, ◌≡◌, ◌+◌, ◌^◌, ℕ, ℤ, pos, neg_ℤ, ◌+ℤ◌, ◌-ℤ◌, ◌≤ℤ◌};
ghost use Rattle.std.specs.Prelude.{◌<ℤ◌, Bool, false, unwrap_or, IsTrue, ◌↔◌};
ghost use Rattle.std.specs.Ordering.{eq_by_cmp};
ghost use Rattle.std.specs.BTreeMap.{IsOrdered, is_at};
ghost use Rattle.std.specs.Map.{lookup};
ghost use Rattle.tables.specs.Maps.{sum_entries, sum_of};
ghost use Rattle.tables.specs.Database.{database};
ghost use Rattle.conditions_walks.specs.Amounts.{amount_at, AreBounded, share};
ghost use Rattle.conditions_walks.specs.Running.{running_at, IsWithin};

use conditions_walks::{Running, Walk};
use std::alloc::{AllocError, Global};
use std::collections::BTreeMap;
use tables::{History, Tables};

/// What each row of a table adds, and to the sum of which group.
pub trait Share<K, X> {
    /// What the sums go by.
    type Group: Ord + Copy;

    ghost is_of: { Self → Self.Group → K → X → Bool };

    ghost amount: { X → ℤ };

    /// The group of a row, if it is of one.
    fn group(&mut self, key: &K, row: &X) -> Option<Self::Group>
        ensures stays { self.new ≡ self.old }
        ensures some { IfSome result (λ own. (g : Self.Group)
            → is_of self.old g key.now row.now ≡ eq_by_cmp Self.Group.cmp own g) }
        ensures none { IfNone result ((g : Self.Group) → is_of self.old g key.now row.now ≡ false) };

    /// What the row adds.
    fn amount_of(row: &X) -> i64
        ensures { result ≡ amount row.now };
}

/// The sums over the rows of a table, by all groups that occur.
pub fn sums_by<K: Ord, X, S: Share<K, X>>(
    alloc: Global,
    by: &mut S,
    rows: &BTreeMap<K, X>,
) -> Result<BTreeMap<S::Group, i128>, AllocError>
    ensures sums { IfOk result (λ sums. (g : S.Group) → amount_at S.Group.cmp sums g
        ≡ sum_entries (λ k r. share (S.is_of by.old g k r) (S.amount r)) rows.now.entries) }
    ensures bound { IfOk result (AreBounded S.Group.cmp) }
    ensures ordered { IsOrdered K.cmp rows.now }
{
    let mut sums = Running::new(alloc);
    for (key, row) in rows.iter() {
        add_row::<K, X, S>(&mut sums, by, key, row)?;
    }
    sums.close()
}

/// The sums over HISTORY, whose rows have no key, by all groups that occur.
pub fn history_by<S: Share<(), History>>(
    alloc: Global,
    by: &mut S,
    tables: &Tables,
) -> Result<BTreeMap<S::Group, i128>, AllocError>
    ensures sums { IfOk result (λ sums. (g : S.Group) → amount_at S.Group.cmp sums g
        ≡ sum_of (λ r. share (S.is_of by.old g tt r) (S.amount r)) (database tables.now).history) }
    ensures bound { IfOk result (AreBounded S.Group.cmp) }
{
    let mut sums = Running::new(alloc);
    for row in &tables.history {
        add_row::<(), History, S>(&mut sums, by, &(), row)?;
    }
    sums.close()
}

/// Adds what a row adds.
pub fn add_row<K, X, S: Share<K, X>>(
    sums: &mut Running<S::Group>,
    by: &mut S,
    key: &K,
    row: &X,
) -> Result<(), AllocError>
    requires { IsWithin S.Group.cmp sums.old (2 ^ 63) }
    ensures stays { by.new ≡ by.old }
    ensures sums { OnOk result ((g : S.Group) → running_at S.Group.cmp sums.new g
        ≡ running_at S.Group.cmp sums.old g +ℤ share (S.is_of by.old g key.now row.now) (S.amount row.now)) }
    ensures within { OnOk result ((n : ℕ) → IsWithin S.Group.cmp sums.old n → IsWithin S.Group.cmp sums.new (n + 1)) }
{
    let Some(group) = by.group(key, row) else {
        return Ok(());
    };
    sums.add(group, S::amount_of(row))
}

/// The sum of a group, or 0 where nothing was added to it.
pub fn amount_of<G: Ord>(sums: &BTreeMap<G, i128>, group: &G) -> i128
    ensures { result ≡ amount_at G.cmp sums.now group.now }
{
    match sums.get(group) {
        Some(sum) => *sum,
        None => 0,
    }
}

/// That sum, on a walk.
pub fn amount_along<G: Ord>(sums: &mut Walk<'_, G, i128>, group: &G) -> i128
    ensures stays { sums.new ≡ sums.old }
    ensures amount { result ≡ unwrap_or (lookup (is_at (G.cmp group.now)) sums.old) (pos 0) }
{
    match sums.get(group) {
        Some(sum) => *sum,
        None => 0,
    }
}

/// Whether two amounts are one.
pub fn equal(one: i128, other: i128) -> bool
    ensures { IsTrue result ↔ (one ≡ other) }
{
    one == other
}

/// What is left of one amount without another.
pub fn difference(one: i128, other: i128) -> i128
    requires one_low { neg_ℤ (pos (2 ^ 126)) ≤ℤ one }
    requires one_high { one <ℤ pos (2 ^ 126) }
    requires other_low { neg_ℤ (pos (2 ^ 126)) ≤ℤ other }
    requires other_high { other <ℤ pos (2 ^ 126) }
    ensures { result ≡ one -ℤ other }
{
    one - other
}
