//! Amounts by place, in words of their width. A sum wraps on the way where the parts of a commit leave its range for a
//! moment, and is exact again at the commit's end.

ghost use Rattle.std.specs.Prelude.{◌≡◌, ◌<◌, ◌-ℤ◌, length};
ghost use Rattle.std.specs.Int.{w8, w64};
ghost use Rattle.totals.specs.Steps.{moved_at};

/// Moves the amount at a place by the difference of what is worth so much now and of what was worth so much.
pub fn move_amount(amounts: &mut [i64], place: u32, old: i64, new: i64)
    requires { place < length amounts.old }
    ensures { amounts.new ≡ moved_at w64 amounts.old place (new -ℤ old) }
{
    let place = place as usize;
    let raised = amounts[place].wrapping_add(new);
    amounts[place] = raised.wrapping_sub(old);
}

/// The same, of small amounts.
pub fn move_small(amounts: &mut [i8], place: u32, old: i8, new: i8)
    requires { place < length amounts.old }
    ensures { amounts.new ≡ moved_at w8 amounts.old place (new -ℤ old) }
{
    let place = place as usize;
    let raised = amounts[place].wrapping_add(new);
    amounts[place] = raised.wrapping_sub(old);
}
