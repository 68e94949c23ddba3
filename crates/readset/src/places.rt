//! The places of record numbers among entries that stand in the order of their numbers.
ghost use Rattle.std.specs.Prelude.{◌≡◌};
ghost use Rattle.std.specs.Ordering.{nat_cmp};
ghost use Rattle.std.specs.Map.{keys_of};
ghost use Rattle.std.specs.List.Sorted.{IsStrictlySortedBy};
ghost use Rattle.readset.specs.Places.{place};

/// The place of a number's entry, or else the place where it would go. Takes constant time for a number above all
/// others, as most are of a transaction that goes through its records in their order; else the logarithm of how many
/// entries there are.
pub(crate) fn place_of<V>(entries: &[(u32, V)], number: u32) -> Result<usize, usize>
    requires { IsStrictlySortedBy nat_cmp (keys_of entries.now) }
    ensures { result ≡ place entries.now number }
{
    match entries.last() {
        None => Err(0),
        Some(last) if last.0 < number => Err(entries.len()),
        Some(_) => entries.binary_search_by_key(&number, |entry: &(u32, V)| entry.0),
    }
}
