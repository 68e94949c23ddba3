//! How large a database is.

ghost use Rattle.std.specs.Prelude.{◌≡◌, ◌≤◌, ◌↔◌, IsTrue, MatchResult};

use crate::limits::{
    MAX_COMMITS, MAX_CUSTOMERS, MAX_DISTRICTS, MAX_ITEMS, MAX_ORDERS, MAX_WAREHOUSES,
    MIN_CUSTOMERS, MIN_ITEMS,
};
use money::Refusal;
use std::marker::Model;

/// The numbers of warehouses, districts a warehouse, customers a district and items (TPC-C 1.2), the order
/// cap of a district and the commit cap. Each is within its limits:
///
/// | number | from | to |
/// |---|---|---|
/// | warehouses | 1 | 8 |
/// | districts a warehouse | 1 | 10 |
/// | customers a district | 10 | 3,000 |
/// | items | 20 | 100,000 |
/// | order cap | the number of customers | 100,000 |
/// | commit cap | 1 | 600,000 |
#[derive(Clone, Copy, Debug, PartialEq, Eq)]
pub struct Scale {
    warehouses: u32,
    districts: u32,
    customers: u32,
    items: u32,
    orders: u32,
    commits: u32,
}

impl Model for Scale {
    ghost use Rattle.tables.specs.Sizes.{Sizes, IsScale, sizes};

    ghost Value = { Sizes };

    ghost view = { λ s. sizes s.warehouses s.districts s.customers s.items s.orders s.commits };

    ghost invariant = { λ s. IsScale (sizes s.warehouses s.districts s.customers s.items s.orders s.commits) };

    ghost inverse = { λ s. record {
      warehouses = s.warehouses;
      districts = s.districts;
      customers = s.customers;
      items =
          s.items;
      orders = s.orders;
      commits = s.commits;
    } };
}

impl Scale {
    ghost use Rattle.tables.specs.Sizes.{IsScale, sizes, IsBetween};
    ghost use Rattle.money.specs.declared.refusal.Refusal.TheVariants.{BadScale};

    /// The scale of these numbers, or `BadScale` exactly where one is outside its limits.
    pub fn new(
        warehouses: u32,
        districts: u32,
        customers: u32,
        items: u32,
        orders: u32,
        commits: u32,
    ) -> Result<Scale, Refusal>
        ensures limits { let asked = sizes warehouses districts customers items orders commits in
            MatchResult result (λ scale. (scale ≡ asked)
            × IsScale asked) (λ refusal. (refusal ≡ BadScale) × ¬ IsScale asked) }
    {
        let is_lawful = is_between(1, MAX_WAREHOUSES, warehouses)
            && is_between(1, MAX_DISTRICTS, districts)
            && is_between(MIN_CUSTOMERS, MAX_CUSTOMERS, customers)
            && is_between(MIN_ITEMS, MAX_ITEMS, items)
            && is_between(customers, MAX_ORDERS, orders)
            && is_between(1, MAX_COMMITS, commits);
        if !is_lawful {
            return Err(Refusal::BadScale);
        }
        Ok(Scale {
            warehouses,
            districts,
            customers,
            items,
            orders,
            commits,
        })
    }

    /// The number of warehouses.
    pub fn warehouses(&self) -> u32
        ensures value { result ≡ self.now.warehouses }
        ensures limits { IsBetween 1 MAX_WAREHOUSES result }
    {
        self.warehouses
    }

    /// The number of districts of each warehouse.
    pub fn districts(&self) -> u32
        ensures value { result ≡ self.now.districts }
        ensures limits { IsBetween 1 MAX_DISTRICTS result }
    {
        self.districts
    }

    /// The number of customers of each district.
    pub fn customers(&self) -> u32
        ensures value { result ≡ self.now.customers }
        ensures limits { IsBetween MIN_CUSTOMERS MAX_CUSTOMERS result }
    {
        self.customers
    }

    /// The number of items.
    pub fn items(&self) -> u32
        ensures value { result ≡ self.now.items }
        ensures limits { IsBetween MIN_ITEMS MAX_ITEMS result }
    {
        self.items
    }

    /// The greatest order number of a district.
    pub fn orders(&self) -> u32
        ensures value { result ≡ self.now.orders }
        ensures limits { IsBetween self.now.customers MAX_ORDERS result }
    {
        self.orders
    }

    /// The greatest number of commits.
    pub fn commits(&self) -> u32
        ensures value { result ≡ self.now.commits }
        ensures limits { IsBetween 1 MAX_COMMITS result }
    {
        self.commits
    }
}

/// Whether a number stands between two others, which count as between.
pub fn is_between(low: u32, high: u32, number: u32) -> bool
    ensures { IsTrue result ↔ ((low ≤ number) × (number ≤ high)) }
{
    low <= number && number <= high
}
