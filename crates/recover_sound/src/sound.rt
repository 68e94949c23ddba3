//! Whether a run may go on from recovered tables.

ghost use Rattle.std.specs.Prelude.{◌↔◌, ◌≤◌, IfOk, IsTrue};
ghost use Rattle.tables.specs.Conditions.{IsConsistent};
ghost use Rattle.tables.specs.Database.{database};
ghost use Rattle.tables.specs.Reach.{BelongToOrders, IsInReach};
ghost use Rattle.tables.specs.declared.limits.TheConstants.{MAX_COMMITS};
ghost use Rattle.recover_sound.specs.Sound.{AreSoundTables};

use conditions::check;
use conditions_reach::{belong_to_orders, is_in_reach};
use std::alloc::{AllocError, Global};
use tables::Tables;

/// Whether a run may go on from tables that so many commits have made, up to 600,000: rows belong to orders, columns
/// are in reach of as many commits, and the consistency conditions hold (TPC-C 3.3.2). Of tables that are rebuilt of a
/// database's log files all else that a run asks is known (`sound_tables_may_begin`). Costs what `belong_to_orders` and
/// `is_in_reach` do, which take no memory, and what `check` does where both hold. Refuses only for memory.
pub fn is_sound(alloc: Global, tables: &Tables, commits: u32) -> Result<bool, AllocError>
    requires { commits ≤ MAX_COMMITS }
    ensures { IfOk result (λ sound. IsTrue sound ↔ AreSoundTables commits (database tables.now)) }
{
    Ok(belong_in_reach(tables, commits) && is_consistent(alloc, tables)?)
}

/// Whether rows belong to orders, and columns are in reach of so many commits.
fn belong_in_reach(tables: &Tables, commits: u32) -> bool
    requires { commits ≤ MAX_COMMITS }
    ensures { IsTrue result ↔ (BelongToOrders (database tables.now) × IsInReach commits (database tables.now)) }
{
    belong_to_orders(tables) && is_in_reach(commits, tables)
}

/// Whether the consistency conditions hold.
fn is_consistent(alloc: Global, tables: &Tables) -> Result<bool, AllocError>
    ensures { IfOk result (λ holds. IsTrue holds ↔ IsConsistent (database tables.now)) }
{
    match check(alloc, tables) {
        Ok(report) => Ok(report.is_good()),
        Err(_) => Err(AllocError),
    }
}
