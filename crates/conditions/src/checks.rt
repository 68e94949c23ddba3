//! Whether tables are consistent: for each condition the least key that breaks it.

ghost use Rattle.std.specs.Prelude.{◌≡◌, IfOk, IfErr};
ghost use Rattle.tables.specs.Database.{database};
ghost use Rattle.tables.specs.Conditions.{IsConsistent};
ghost use Rattle.money.specs.declared.refusal.Refusal.TheVariants.{OutOfMemory};
ghost use Rattle.conditions.specs.Report.{IsReportOf, IsGood};

use crate::customer_conditions::{Condition10, Condition12};
use crate::key_conditions::{
    Condition1, Condition2, Condition3, Condition4, Condition8, Condition9,
};
use crate::report::Report;
use crate::row_conditions::{Condition5, Condition6, Condition7};
use crate::search::{least_customer, least_district, least_warehouse};
use crate::sums::Sums;
use money::Refusal;
use std::alloc::Global;
use tables::Tables;

/// Checks the consistency conditions (TPC-C 3.3.2), of any tables. Costs a pass over a table for each sum that
/// a condition names, and one over ORDER-LINE for its sums together, with a search for each run of rows of one group,
/// then one over the keys or the rows that a condition is asked of, side by side with the tables and sums that it looks
/// into: the time is linear in the rows, up to the logarithm of a search for each HISTORY row, order and district.
/// Refuses only for memory.
pub fn check(alloc: Global, tables: &Tables) -> Result<Report, Refusal>
    ensures ok { IfOk result (IsReportOf (database tables.now)) }
    ensures good { IfOk result (λ report. IsConsistent (database tables.now) → IsGood report) }
    ensures memory { IfErr result (λ refusal. refusal ≡ OutOfMemory) }
{
    let sums = Sums::of(alloc, tables)?;
    Ok(Report {
        condition_1: least_warehouse::<Condition1>(tables, &sums),
        condition_2: least_district::<Condition2>(tables, &sums),
        condition_3: least_district::<Condition3>(tables, &sums),
        condition_4: least_district::<Condition4>(tables, &sums),
        condition_5: Condition5::least(tables),
        condition_6: Condition6::least(tables, &sums.lines),
        condition_7: Condition7::least(tables),
        condition_8: least_warehouse::<Condition8>(tables, &sums),
        condition_9: least_district::<Condition9>(tables, &sums),
        condition_10: least_customer::<Condition10>(tables, &sums),
        condition_12: least_customer::<Condition12>(tables, &sums),
    })
}
