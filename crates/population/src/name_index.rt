//! The customers of each district by their last names: an index that is made once, since names never change.
ghost use Rattle.std.specs.Prelude.{◌≡◌, ◌<◌, ◌^◌, List, length, IfOk};
ghost use Rattle.std.specs.FinMap.{from_entries};
ghost use Rattle.tables.specs.Names.{names, named, customer_named};
ghost use Rattle.tables.specs.declared.names.NameKey.{NameKey as NameKeyValue};
ghost use Rattle.tables.specs.declared.limits.TheConstants.{LAST_NAMES};

use std::alloc::{AllocError, Global};
use std::collections::btree_set::Range;
use std::collections::{BTreeMap, BTreeSet};
use std::marker::Model;
use tables::{Customer, CustomerKey, DistrictKey, NameKey};

/// The names of customers. Contracts see the list of them, in their order.
#[derive(Debug, Drop)]
pub struct NameIndex {
    names: BTreeSet<NameKey>,
}

impl Model for NameIndex {
    ghost Value = { List NameKeyValue };

    ghost view = { λ index. index.names.keys };
}

impl NameIndex {
    /// The names of these customers. Costs a pass over them, with a few steps for each, and memory for each name.
    pub fn new(
        alloc: Global,
        customers: &BTreeMap<CustomerKey, Customer>,
    ) -> Result<NameIndex, AllocError>
        ensures { IfOk result (λ index. index ≡ names (from_entries customers.now.entries)) }
    {
        let mut names = BTreeSet::new(alloc);
        for (key, row) in customers.iter() {
            names.insert(NameKey {
                warehouse: key.warehouse,
                district: key.district,
                last_name: row.last_name,
                first_name: row.first_name,
                customer: key.customer,
            })?;
        }
        Ok(NameIndex { names })
    }

    /// The customer whom a last name means in a district: of those who have it, in the order of C_FIRST and then of
    /// C_ID, the one at position n/2, rounded up (TPC-C 2.5.2.2); None where nobody has it. A last name is a number
    /// below 1,000. Costs the logarithm of the number of customers, and a pass over those who have the name there.
    pub fn customer(&self, district: DistrictKey, last_name: u32) -> Option<u32>
        requires { last_name < LAST_NAMES }
        ensures { result ≡ customer_named self.now district last_name }
    {
        let count = self.named(district, last_name).count();
        let middle = self
            .named(district, last_name)
            .nth(count.div_ceil(2).saturating_sub(1))?;
        Some(middle.customer)
    }

    /// The names of the customers of a district who have a last name, in their order.
    fn named(&self, district: DistrictKey, last_name: u32) -> Range<'_, NameKey>
        requires { last_name < LAST_NAMES }
        ensures names { result ≡ named self.now district last_name }
        ensures fits { length result < 2 ^ 63 }
    {
        let first = NameKey {
            warehouse: district.warehouse,
            district: district.district,
            last_name,
            first_name: 0,
            customer: 0,
        };
        let behind = NameKey {
            last_name: last_name + 1,
            ..first
        };
        self.names.range(first..behind)
    }
}
