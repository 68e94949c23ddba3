//! The TID that a commit takes.
ghost use Rattle.std.specs.Prelude.{◌≡◌, ℕ, ◌≤◌, Some, None, MatchResult};
ghost use Rattle.money.specs.declared.refusal.Refusal.TheVariants.{EpochFull};
ghost use Rattle.tidword.specs.TidWord.{tid_of};
ghost use Rattle.tidword.specs.Lawful.{IsLawful, next};

use crate::word::TidWord;
use money::Refusal;

/// The least TID that a commit may take: in this epoch, larger than the greatest TID of what it read and locked, and
/// larger than its worker's last (Silo, section 4.2). The status bits of `seen` and `last` don't count, and those of
/// the result are 0. Constant time, no memory.
///
/// # Errors
///
/// `EpochFull` exactly where there is none: one of the two is of a later epoch, or has this epoch's last sequence.
pub fn next_tid(seen: TidWord, last: TidWord, epoch: u32) -> Result<TidWord, Refusal>
    ensures least { MatchResult result
        (λ tid. IsLawful seen last epoch tid × ((n : ℕ) → IsLawful seen last epoch n → tid ≤ n))
        (λ refusal. (refusal ≡ EpochFull) × ((n : ℕ) → ¬ (IsLawful seen last epoch n))) }
    ensures computed { MatchResult result
        (λ tid. next (tid_of seen) (tid_of last) epoch ≡ Some tid)
        (λ _. next (tid_of seen) (tid_of last) epoch ≡ None) }
{
    let greatest = seen.tid().word().max(last.tid().word());
    let first = u64::from(epoch) << 32;
    if greatest < first {
        return Ok(TidWord::new(first));
    }
    match greatest.checked_add(8) {
        Some(later) if later >> 32 == u64::from(epoch) => Ok(TidWord::new(later)),
        _ => Err(Refusal::EpochFull),
    }
}
