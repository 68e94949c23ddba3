//! The items of a district's last orders, on record cells (TPC-C 2.8.2.2).
ghost use Rattle.std.specs.Prelude.{◌≡◌, ◌+◌, ◌-◌, ◌*◌, ◌≤◌, ℕ, max, [], ◌∷◌, ◌++◌, length, Option, Some, IfSome, IfOk};
ghost use Rattle.std.specs.Prelude.{IfErr, OnOk, OnErr, ◌==◌, All};
ghost use Rattle.std.specs.List.{list_any};
ghost use Rattle.std.specs.List.Sorted.{IsStrictlyIncreasing};
ghost use Rattle.std.specs.Option.{ForSome, option_map, option_map_or};
ghost use Rattle.std.specs.FinMap.{get};
ghost use Rattle.tables.specs.Sizes.{IsBetween, IsNumber};
ghost use Rattle.tables.specs.Keys.{IsDistrictKey, IsOrderKey, IsLineKey, IsItemKey, district_of_order};
ghost use Rattle.tables.specs.OrderNumbers.{next_order};
ghost use Rattle.tables.specs.StockLevel.{is_sold};
ghost use Rattle.tables.specs.declared.limits.TheConstants.{MAX_ORDER_LINES, RECENT_ORDERS};
ghost use Rattle.readset.specs.Transaction.{AtAll, Finds, IsStepRefusal, ReadsMore};
ghost use Rattle.queries.specs.SoldItems.{order_line_count, order_line_counts, AreItems};

use crate::item_set::each_once;
use money::Refusal;
use readset::{Start, Transaction, read_present, read_row};
use rows::DistrictColumns;
use std::alloc::{AllocError, Global};
use std::sync::Wait;
use tables::limits::RECENT_ORDERS;
use tables::{DistrictKey, LineKey, Order, OrderKey, OrderLine};

/// Reads D_NEXT_O_ID of a district. Costs a load.
///
/// # Errors
///
/// `Stale` only where no tables at which the transaction may have read have the version read; `OutOfMemory`.
pub(crate) fn read_next_order<R: Wait, K: Start>(
    rt: &R,
    transaction: &mut Transaction<'_, K>,
    home: DistrictKey,
) -> Result<u32, Refusal>
    requires { IsDistrictKey K.tables.scale home }
    ensures next { Finds K.tables transaction.new result (λ next t. next_order t home ≡ next) }
    ensures range { IfOk result (λ next. IsNumber (K.tables.scale.orders + 1) next) }
    ensures reads { ReadsMore 1 transaction.old transaction.new }
{
    let district: DistrictColumns = read_present(rt, transaction, home)?;
    Ok(district.next_order)
}

/// The items of the lines of a district's last 20 orders, each once and in the order of their numbers. Reads all those
/// orders, and then the lines that their O_OL_CNT say that they have: so the numbers of the records that it reads rise.
/// Costs at most 320 loads, a step for each 64 items of the scale and a few for each item read, and memory: a bit for
/// each item of the scale, and the items.
///
/// # Errors
///
/// `Stale` only where no tables at which the transaction may have read have the versions read; `OutOfMemory`.
pub(crate) fn sold_items<R: Wait, K: Start>(
    rt: &R,
    alloc: Global,
    transaction: &mut Transaction<'_, K>,
    home: DistrictKey,
    next: u32,
) -> Result<Vec<u32>, Refusal>
    requires home { IsDistrictKey K.tables.scale home }
    requires next { IsNumber (K.tables.scale.orders + 1) next }
    ensures sold { Finds K.tables transaction.new result (λ items t. next_order t home ≡ next
        → (i : ℕ) → is_sold t home i ≡ list_any (λ j. j == i) items.items) }
    ensures items { IfOk result (λ items. All (IsItemKey K.tables.scale) items.items) }
    ensures rising { IfOk result (λ items. IsStrictlyIncreasing items.items) }
    ensures count { IfOk result (λ items. length items.items ≤ RECENT_ORDERS * MAX_ORDER_LINES) }
    ensures reads { ReadsMore (RECENT_ORDERS * (MAX_ORDER_LINES + 1)) transaction.old transaction.new }
{
    let first = first_recent(next);
    let counts = line_counts(rt, alloc, transaction, home, first, next)?;
    let mut items = Vec::new(alloc);
    for order in first..next {
        let count = counts[(order - first) as usize];
        order_items(rt, transaction, &mut items, home.order_key(order), count)?;
    }
    let once = each_once(alloc, transaction.scale().items(), items.as_slice())?;
    Ok(once)
}

/// The number of the first of a district's last 20 orders, where the next one has this number: at least 1.
fn first_recent(next: u32) -> u32
    ensures { result ≡ max 1 (next - RECENT_ORDERS) }
{
    next.saturating_sub(RECENT_ORDERS).max(1)
}

/// O_OL_CNT of a district's orders, from one number on and before another, or 0 where there is no such order. Costs a
/// load and 4 bytes an order.
fn line_counts<R: Wait, K: Start>(
    rt: &R,
    alloc: Global,
    transaction: &mut Transaction<'_, K>,
    home: DistrictKey,
    first: u32,
    next: u32,
) -> Result<Vec<u32>, Refusal>
    requires home { IsDistrictKey K.tables.scale home }
    requires first { IsBetween 1 next first }
    requires next { next ≤ K.tables.scale.orders + 1 }
    ensures counts { Finds K.tables transaction.new result (λ counts t.
        order_line_counts t home first (next - first) ≡ counts.items) }
    ensures range { IfOk result (λ counts. All (λ n. n ≤ MAX_ORDER_LINES) counts.items) }
    ensures all { IfOk result (λ counts. length counts.items ≡ next - first) }
    ensures reads { ReadsMore (next - first) transaction.old transaction.new }
{
    let mut counts = Vec::with_capacity(alloc, (next - first) as usize)?;
    for number in first..next {
        let count = read_line_count(rt, transaction, home.order_key(number))?;
        counts.push(count)?;
    }
    Ok(counts)
}

/// Appends the items of an order's lines, of which it has so many. Costs a load a line.
fn order_items<R: Wait, K: Start>(
    rt: &R,
    transaction: &mut Transaction<'_, K>,
    items: &mut Vec<u32>,
    order: OrderKey,
    count: u32,
) -> Result<(), Refusal>
    requires order { IsOrderKey K.tables.scale order }
    requires count { count ≤ MAX_ORDER_LINES }
    requires counted { AtAll K.tables transaction.old (λ t. order_line_count t order ≡ count) }
    ensures sold { (first : ℕ) → first ≤ order.order
        → AreItems K.tables (district_of_order order) first order.order 0 transaction.old.reads items.old.items
        → OnOk result (AreItems K.tables (district_of_order order) first (order.order + 1) 0 transaction.new.reads
        items.new.items) }
    ensures items { All (IsItemKey K.tables.scale) items.old.items
        → All (IsItemKey K.tables.scale) items.new.items }
    ensures count { length items.new.items ≤ length items.old.items + MAX_ORDER_LINES }
    ensures refused { IfErr result (IsStepRefusal K.tables transaction.new) }
    ensures reads { ReadsMore MAX_ORDER_LINES transaction.old transaction.new }
{
    for done in 0..count {
        let item = read_item(rt, transaction, order.line_key(done + 1))?;
        push_some(items, item)?;
    }
    Ok(())
}

/// Reads O_OL_CNT of an order, or gives 0 where there is no such order. Costs a load.
fn read_line_count<R: Wait, K: Start>(
    rt: &R,
    transaction: &mut Transaction<'_, K>,
    order: OrderKey,
) -> Result<u32, Refusal>
    requires { IsOrderKey K.tables.scale order }
    ensures lines { Finds K.tables transaction.new result (λ count t. order_line_count t order ≡ count) }
    ensures range { IfOk result (λ count. count ≤ MAX_ORDER_LINES) }
    ensures reads { ReadsMore 1 transaction.old transaction.new }
{
    let order: Option<Order> = read_row(rt, transaction, order)?;
    match order {
        Some(order) => Ok(order.line_count),
        None => Ok(0),
    }
}

/// Appends an item, if there is one.
fn push_some(items: &mut Vec<u32>, item: Option<u32>) -> Result<(), AllocError>
    ensures pushed { OnOk result (items.new.items ≡ items.old.items ++ option_map_or (λ i. i ∷ []) item []) }
    ensures stays { OnErr result (items.new.items ≡ items.old.items) }
{
    if let Some(item) = item {
        items.push(item)?;
    }
    Ok(())
}

/// Reads the item of a line, if there is one. Costs a load.
fn read_item<R: Wait, K: Start>(
    rt: &R,
    transaction: &mut Transaction<'_, K>,
    key: LineKey,
) -> Result<Option<u32>, Refusal>
    requires { IsLineKey K.tables.scale key }
    ensures item { Finds K.tables transaction.new result
        (λ item t. option_map (λ r. r.item) (get t.lines key) ≡ item) }
    ensures range { IfOk result (λ item. ForSome item (λ i. IsItemKey K.tables.scale i)) }
    ensures reads { ReadsMore 1 transaction.old transaction.new }
{
    let line: Option<OrderLine> = read_row(rt, transaction, key)?;
    match line {
        Some(line) => Ok(Some(line.item)),
        None => Ok(None),
    }
}
