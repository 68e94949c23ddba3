//! That recovery has one answer.
ghost use Rattle.std.specs.Prelude.{ℕ, List, Result};
ghost use Rattle.money.specs.declared.refusal.Refusal.{Refusal};
ghost use Rattle.tables.specs.Database.{Database};
ghost use Rattle.recover_files.specs.Answers.{IsAnswer, IsSureOf, IsSame};
ghost use Rattle.recover_files.specs.declared.recovering.Recovered.{Recovered as RecoveredValue};

use encoding::values_determine_tables;

/// Two answers to the same strings are the same, unless memory was short or a device failed: the strings decide, and
/// not the way in which files are read or their entries looked at. The function does nothing: its contract is the law.
pub fn recovery_is_one()
    ensures { (t0 : Database) (seed : ℕ) (strings : List (List ℕ)) (a b : Result RecoveredValue Refusal)
        → IsAnswer t0 seed strings a → IsAnswer t0 seed strings b
        → IsSureOf a → IsSureOf b
        → IsSame a b }
{
    values_determine_tables();
}
