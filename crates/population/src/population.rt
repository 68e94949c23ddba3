//! The rows that a database begins with.

ghost use Rattle.std.specs.Prelude.{◌≡◌};
ghost use Rattle.std.proofs.Props.{props};
ghost use Rattle.tables.specs.Names.{names as names_of};
ghost use Rattle.population.specs.Unique.{line_order-prop};
ghost use Rattle.population.specs.Prices.{prices_of};
ghost use Rattle.population.specs.Credits.{bad_credits_of};
ghost use Rattle.population.specs.Rates.{discounts_of, district_taxes_of, warehouse_taxes_of};
ghost use Rattle.tables.specs.Conditions.{IsConsistent};
ghost use Rattle.tables.specs.Database.{database};
ghost use Rattle.tables.specs.WellFormed.{IsWellFormed, HasRoom};
ghost use Rattle.tables.specs.Reach.{IsInReach};
ghost use Rattle.tables.specs.declared.limits.TheConstants.{MAX_COMMITS};

use crate::credits::bad_credits;
use crate::name_index::NameIndex;
use crate::prices::prices;
use crate::rates::{
    discounts, district_taxes, has_customer, has_district, no_rate, warehouse_taxes,
};
use money::{Cents, Rate, Refusal};
use population_tables::{plain_tables, seeded_tables};
use std::alloc::{AllocError, Global};
use tables::{
    CustomerKey, DistrictKey, Numbering, Scale, Tables, Who, is_between, place_of_customer,
    place_of_district,
};

/// The rows that a database begins with, its customers by name, and lists of what no transaction changes: prices,
/// discounts, taxes and whose credit is bad. Its type keeps that the rows are well-formed and consistent, have room for
/// 600,000 commits, and are in reach of none.
#[derive(Debug, Drop)]
pub struct Population {
    tables: Tables,
    numbering: Numbering,
    names: NameIndex,
    prices: Vec<Option<Cents>>,
    discounts: Vec<Rate>,
    district_taxes: Vec<Rate>,
    warehouse_taxes: Vec<Rate>,
    bad_credits: Vec<bool>,
    seed: u64,
    pub ghost room: { HasRoom MAX_COMMITS (database tables) } by { Prim.hlevel props },
    pub ghost reach: { IsInReach 0 (database tables) } by { Prim.hlevel props },
    pub ghost well_formed: { IsWellFormed (database tables) } by { Prim.hlevel (props, line_order-prop) },
    pub ghost numbered: { numbering.scale ≡ tables.scale } by { Prim.hlevel props },
    pub ghost named: { names ≡ names_of (database tables).customers } by { Prim.hlevel props },
    pub ghost priced: { prices.items ≡ prices_of (database tables) } by { Prim.hlevel props },
    pub ghost discounted: { discounts.items ≡ discounts_of (database tables) } by { Prim.hlevel props },
    pub ghost districts_taxed: { district_taxes.items ≡ district_taxes_of (database tables) } by { Prim.hlevel props },
    pub ghost warehouses_taxed: { warehouse_taxes.items ≡ warehouse_taxes_of (database tables) } by { Prim.hlevel props },
    pub ghost credited: { bad_credits.items ≡ bad_credits_of (database tables) } by { Prim.hlevel props },
    pub ghost consistent: { IsConsistent (database tables) } by { Prim.hlevel props },
}

impl Population {
    ghost use Rattle.std.specs.Prelude.{◌≤◌, IfOk, IfErr};
    ghost use Rattle.money.specs.declared.refusal.Refusal.TheVariants.{OutOfMemory};
    ghost use Rattle.population_tables.specs.Plain.{IsPlain};
    ghost use Rattle.population_tables.specs.First.{IsSeeded};
    ghost use Rattle.population.specs.Initial.{initial, seed_of};
    ghost use Rattle.population.specs.Prices.{price_of};
    ghost use Rattle.tables.specs.Customer.{IsWho, customer_number};
    ghost use Rattle.tables.specs.NewOrder.{discount, district_tax, warehouse_tax};
    ghost use Rattle.tables.specs.Payment.{has_bad_credit};

    /// The plain population of a scale, in which no column is drawn. Its seed is 0.
    ///
    /// # Errors
    ///
    /// `OutOfMemory`, and no other.
    pub fn plain(alloc: Global, scale: Scale) -> Result<Population, Refusal>
        ensures rows { IfOk result (λ population. IsPlain scale (initial population)) }
        ensures seed { IfOk result (λ population. seed_of population ≡ 0) }
        ensures only_memory { IfErr result (λ refusal. refusal ≡ OutOfMemory) }
    {
        let tables = plain_tables(alloc, scale)?;
        let population = Population::of(alloc, tables, 0)?;
        Ok(population)
    }

    /// The population of a scale that is drawn from a seed (TPC-C 4.3.3.1): the same for the same seed and scale. The
    /// seed is at least 1. Costs what the plain one does, and a draw or a few for each row but those of HISTORY and
    /// NEW-ORDER.
    ///
    /// # Errors
    ///
    /// `OutOfMemory`, and no other.
    pub fn seeded(alloc: Global, scale: Scale, seed: u64) -> Result<Population, Refusal>
        requires { 1 ≤ seed }
        ensures rows { IfOk result (λ population. IsSeeded scale (initial population)) }
        ensures seed { IfOk result (λ population. seed_of population ≡ seed) }
        ensures only_memory { IfErr result (λ refusal. refusal ≡ OutOfMemory) }
    {
        let tables = seeded_tables(alloc, scale, seed)?;
        let population = Population::of(alloc, tables, seed)?;
        Ok(population)
    }

    /// The population of these tables.
    fn of(alloc: Global, tables: Tables, seed: u64) -> Result<Population, AllocError>
        requires well_formed { IsWellFormed (database tables) }
        requires consistent { IsConsistent (database tables) }
        requires room { HasRoom MAX_COMMITS (database tables) }
        requires reach { IsInReach 0 (database tables) }
        ensures rows { IfOk result (λ population. initial population ≡ database tables) }
        ensures seed { IfOk result (λ population. seed_of population ≡ seed) }
    {
        let numbering = Numbering::of(&tables.scale);
        let names = NameIndex::new(alloc, &tables.customers)?;
        let prices = prices(alloc, &tables)?;
        let discounts = discounts(alloc, &tables)?;
        let district_taxes = district_taxes(alloc, &tables)?;
        let warehouse_taxes = warehouse_taxes(alloc, &tables)?;
        let bad_credits = bad_credits(alloc, &tables)?;
        Ok(Population {
            tables,
            numbering,
            names,
            prices,
            discounts,
            district_taxes,
            warehouse_taxes,
            bad_credits,
            seed,
        })
    }

    /// The seed that the rows were drawn from: 0 where none were.
    pub fn seed(&self) -> u64
        ensures { result ≡ seed_of self.now }
    {
        self.seed
    }

    /// The scale of the tables.
    pub fn scale(&self) -> Scale
        ensures { result ≡ (initial self.now).scale }
    {
        self.tables.scale
    }

    /// The numbers of the records of its keys.
    #[inline(always)]
    pub fn numbering(&self) -> &Numbering
        ensures { result.now.scale ≡ (initial self.now).scale }
    {
        &self.numbering
    }

    /// The C_ID of the customer whom a terminal means in a district. By last name it costs the logarithm of the number
    /// of customers, and a pass over those of the district who have the name.
    pub fn customer(&self, district: DistrictKey, who: Who) -> u32
        requires { IsWho (initial self.now).scale who }
        ensures { result ≡ customer_number (initial self.now) district who }
    {
        match who {
            Who::Id(customer) => customer,
            Who::Last(number) => self.names.customer(district, number).unwrap_or(0),
        }
    }

    /// I_PRICE of an item, or None exactly where it isn't in ITEM. Constant time.
    pub fn price(&self, item: u32) -> Option<Cents>
        ensures { result ≡ price_of (initial self.now) item }
    {
        if !is_between(1, self.scale().items(), item) {
            return None;
        }
        self.prices[(item - 1) as usize]
    }

    /// C_DISCOUNT of a customer: 0 where it isn't in CUSTOMER. Constant time.
    pub fn discount(&self, key: CustomerKey) -> Rate
        ensures { result ≡ discount (initial self.now) key }
    {
        if !has_customer(&self.tables.scale, key) {
            return no_rate();
        }
        let place = place_of_customer(&self.tables.scale, key);
        self.discounts[place as usize]
    }

    /// Whether C_CREDIT of a customer is BC: not where it isn't in CUSTOMER. Constant time.
    pub fn has_bad_credit(&self, key: CustomerKey) -> bool
        ensures { result ≡ has_bad_credit (initial self.now) key }
    {
        if !has_customer(&self.tables.scale, key) {
            return false;
        }
        let place = place_of_customer(&self.tables.scale, key);
        self.bad_credits[place as usize]
    }

    /// D_TAX of a district: 0 where it isn't in DISTRICT. Constant time.
    pub fn district_tax(&self, key: DistrictKey) -> Rate
        ensures { result ≡ district_tax (initial self.now) key }
    {
        if !has_district(&self.tables.scale, key) {
            return no_rate();
        }
        let place = place_of_district(&self.tables.scale, key);
        self.district_taxes[place as usize]
    }

    /// W_TAX of a warehouse: 0 where it isn't in WAREHOUSE. Constant time.
    pub fn warehouse_tax(&self, warehouse: u32) -> Rate
        ensures { result ≡ warehouse_tax (initial self.now) warehouse }
    {
        if !is_between(1, self.tables.scale.warehouses(), warehouse) {
            return no_rate();
        }
        self.warehouse_taxes[(warehouse - 1) as usize]
    }

    /// The tables.
    pub fn tables(&self) -> &Tables
        ensures { database result.now ≡ initial self.now }
    {
        &self.tables
    }

    /// The tables, whose memory the caller owns from then on.
    pub fn into_tables(self) -> Tables
        ensures { database result ≡ initial self }
    {
        self.tables
    }
}
