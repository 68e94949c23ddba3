//! The order numbers of each district, in one pass over a table.

ghost use Rattle.std.specs.Prelude.{◌≡◌, ◌+◌, ◌<◌, ◌≤◌, ◌^◌, IfOk, OnOk, cond};
ghost use Rattle.std.specs.Option.{option_map_or};
ghost use Rattle.std.specs.Ordering.{eq_by_cmp};
ghost use Rattle.std.specs.FinMap.{from_entries};
ghost use Rattle.tables.specs.Keys.{district_cmp, order_cmp};
ghost use Rattle.tables.specs.OrderNumbers.{numbers_in};
ghost use Rattle.tables.specs.declared.keys.DistrictKey.{DistrictKey as KeyOfDistrict};
ghost use Rattle.conditions.specs.Numbers.{no_numbers, with_number, numbers_at, gathered_at, AreNumbersOf};
ghost use Rattle.conditions.specs.declared.numbers.Numbers.{Numbers as KeptNumbers};

use conditions_walks::is_group;
use std::alloc::{AllocError, Global};
use std::collections::BTreeMap;
use tables::{DistrictKey, OrderKey};

/// How many order numbers there are, the least (0 where there is none) and the greatest (likewise).
#[derive(Clone, Copy, PartialEq, Eq)]
pub struct Numbers {
    pub count: u64,
    pub least: u32,
    pub greatest: u32,
}

/// No order numbers.
const NONE: Numbers = Numbers {
    count: 0,
    least: 0,
    greatest: 0,
};

impl Numbers {
    /// With one more.
    fn with(self, order: u32) -> Numbers
        requires { self.count < 2 ^ 63 }
        ensures { result ≡ with_number self order }
    {
        Numbers {
            count: self.count + 1,
            least: if self.count == 0 {
                order
            } else {
                self.least.min(order)
            },
            greatest: self.greatest.max(order),
        }
    }
}

/// The order numbers of each district, where those of the last row's district are held beside the others, so that rows
/// of one district that come one after another cost no search.
#[derive(Drop)]
pub struct Gathered {
    numbers: BTreeMap<DistrictKey, Numbers>,
    district: Option<DistrictKey>,
    held: Numbers,
}

/// The order numbers of each district that occurs in the keys of ORDER or of NEW-ORDER.
pub fn numbers_by<X>(
    alloc: Global,
    rows: &BTreeMap<OrderKey, X>,
) -> Result<BTreeMap<DistrictKey, Numbers>, AllocError>
    ensures { IfOk result (λ numbers. (k : KeyOfDistrict)
        → AreNumbersOf (numbers_in k (from_entries {R = order_cmp} rows.now.entries)) (numbers_at numbers k)) }
{
    let mut gathered = Gathered {
        numbers: BTreeMap::new(alloc),
        district: None,
        held: NONE,
    };
    for (key, _row) in rows.iter() {
        let district = DistrictKey {
            warehouse: key.warehouse,
            district: key.district,
        };
        add_number(&mut gathered, district, key.order)?;
    }
    put(&mut gathered)?;
    let Gathered { numbers, .. } = gathered;
    Ok(numbers)
}

/// Adds an order number to those of a district.
fn add_number(gathered: &mut Gathered, district: DistrictKey, order: u32) -> Result<(), AllocError>
    requires { (k : KeyOfDistrict) → (gathered_at gathered.old k).count < 2 ^ 63 }
    ensures { OnOk result ((k : KeyOfDistrict) → gathered_at gathered.new k
        ≡ cond (eq_by_cmp district_cmp district k)
        (with_number (gathered_at gathered.old k) order) (gathered_at gathered.old k)) }
{
    hold(gathered, district)?;
    gathered.held = gathered.held.with(order);
    Ok(())
}

/// Makes a district the one whose order numbers are held.
fn hold(gathered: &mut Gathered, district: DistrictKey) -> Result<(), AllocError>
    ensures district { OnOk result ((k : KeyOfDistrict) (s : KeptNumbers)
        → option_map_or (λ h. cond (eq_by_cmp district_cmp h k) s (numbers_at gathered.new.numbers k))
        gathered.new.district (numbers_at gathered.new.numbers k)
        ≡ cond (eq_by_cmp district_cmp district k) s (numbers_at gathered.new.numbers k)) }
    ensures held { OnOk result (gathered.new.held ≡ gathered_at gathered.old district) }
    ensures stays { OnOk result ((k : KeyOfDistrict) → gathered_at gathered.new k ≡ gathered_at gathered.old k) }
{
    if is_group(&gathered.district, &district) {
        return Ok(());
    }
    put(gathered)?;
    gathered.held = numbers_of(&gathered.numbers, &district);
    gathered.district = Some(district);
    Ok(())
}

/// Puts those that are held beside the others.
fn put(gathered: &mut Gathered) -> Result<(), AllocError>
    ensures { OnOk result ((k : KeyOfDistrict) → numbers_at gathered.new.numbers k ≡ gathered_at gathered.old k) }
{
    if let Some(district) = gathered.district {
        gathered.numbers.insert(district, gathered.held)?;
    }
    Ok(())
}

/// The order numbers of a district.
pub fn numbers_of(numbers: &BTreeMap<DistrictKey, Numbers>, district: &DistrictKey) -> Numbers
    ensures { result ≡ numbers_at numbers.now district.now }
{
    match numbers.get(district) {
        Some(found) => *found,
        None => NONE,
    }
}
