//! Laws over the definitions of `tables`: what transactions do keeps tables well-formed and consistent.
//!
//! Each function here does nothing: its contract is the law.
#![tactic(auto)]

ghost use Rattle.std.specs.Prelude.{ℕ, ◌+◌, ◌-◌, ◌<◌, ◌≤◌};
ghost use Rattle.tables.specs.Inputs.{IsInput};
ghost use Rattle.tables.specs.Apply.{after, HasOrderNumber};
ghost use Rattle.tables.specs.WellFormed.{IsWellFormed, HasRoom};
ghost use Rattle.tables.specs.Reach.{IsInReach};
ghost use Rattle.tables.specs.declared.limits.TheConstants.{MAX_COMMITS};
ghost use Rattle.tables.specs.Conditions.{IsConsistent};
ghost use Rattle.tables.specs.Constant.{IsOf};
ghost use Rattle.tables.specs.Database.{Database};
ghost use Rattle.tables.specs.declared.input.Input.{Input};

/// Each transaction keeps consistent and well-formed tables well-formed while there is room and its order's number is
/// within the order cap, and takes up the room of one commit.
pub fn transactions_keep_tables_well_formed()
    ensures { (t : Database) (x : Input) (n : ℕ) → IsInput t.scale x → HasOrderNumber t x → IsWellFormed t
        → IsConsistent t → HasRoom (n + 1) t → IsWellFormed (after t x) × HasRoom n (after t x) }
{}

/// Each transaction keeps the consistency conditions (TPC-C 3.3.2) of well-formed tables.
pub fn transactions_keep_tables_consistent()
    ensures { (t : Database) (x : Input) → IsInput t.scale x → IsWellFormed t → IsConsistent t
        → IsConsistent (after t x) }
{}

/// No transaction changes the scale, ITEM, or a column that never changes: what is of a population stays so.
pub fn transactions_keep_constants()
    ensures { (t0 t : Database) (x : Input) → IsOf t0 t → IsOf t0 (after t x) }
{}

/// Each transaction takes well-formed tables in reach of n commits to tables in reach of n + 1, below the largest
/// commit cap.
pub fn transactions_stay_in_reach()
    ensures { (t : Database) (x : Input) (n : ℕ) → n < MAX_COMMITS → IsInput t.scale x → IsWellFormed t
        → IsInReach n t → IsInReach (n + 1) (after t x) }
{}

/// Tables in reach of n commits have room for the rest of the largest commit cap.
pub fn reach_leaves_room()
    ensures { (t : Database) (n : ℕ) → n ≤ MAX_COMMITS → IsInReach n t → HasRoom (MAX_COMMITS - n) t }
{}
