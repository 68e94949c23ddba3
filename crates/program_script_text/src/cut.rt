//! Cutting bytes at a mark.
ghost use Rattle.std.specs.Prelude.{◌≡◌, ◌≢◌, ◌==◌, All, List, [], ◌∷◌, ◌++◌, MatchOption, IfSome};
ghost use Rattle.std.specs.List.{slice_split};
ghost use Rattle.memchr.specs.Find.{IsFirstByte, is_byte};

use memchr::memchr;

/// What stands before the first `mark` and what follows it, or `None` where there is none.
pub(crate) fn split_once(text: &[u8], mark: u8) -> Option<(&[u8], &[u8])>
    ensures parts { MatchOption result (slice_split (λ b. b == mark) text.now ≡ text.now ∷ [])
        (λ parts. slice_split (λ b. b == mark) text.now
        ≡ parts.0.now ∷ slice_split (λ b. b == mark) parts.1.now) }
    ensures lacks { MatchOption result (All (λ b. b ≢ mark) text.now) (λ parts. All (λ b. b ≢ mark) parts.0.now) }
    ensures bytes { IfSome result (λ parts. text.now ≡ parts.0.now ++ mark ∷ parts.1.now) }
{
    parted(text, mark, memchr(mark, text))
}

/// The same, for less where the first part is a word of a few bytes.
#[inline(always)]
pub(crate) fn split_word(text: &[u8], mark: u8) -> Option<(&[u8], &[u8])>
    ensures parts { MatchOption result (slice_split (λ b. b == mark) text.now ≡ text.now ∷ [])
        (λ parts. slice_split (λ b. b == mark) text.now
        ≡ parts.0.now ∷ slice_split (λ b. b == mark) parts.1.now) }
    ensures lacks { MatchOption result (All (λ b. b ≢ mark) text.now) (λ parts. All (λ b. b ≢ mark) parts.0.now) }
    ensures bytes { IfSome result (λ parts. text.now ≡ parts.0.now ++ mark ∷ parts.1.now) }
{
    parted(text, mark, place_of(mark, text))
}

/// What stands before and behind the first `mark`, of which this is the place.
#[inline(always)]
fn parted(text: &[u8], mark: u8, place: Option<usize>) -> Option<(&[u8], &[u8])>
    requires { IsFirstByte (is_byte mark) text.now place }
    ensures parts { MatchOption result (slice_split (λ b. b == mark) text.now ≡ text.now ∷ [])
        (λ parts. slice_split (λ b. b == mark) text.now
        ≡ parts.0.now ∷ slice_split (λ b. b == mark) parts.1.now) }
    ensures lacks { MatchOption result (All (λ b. b ≢ mark) text.now) (λ parts. All (λ b. b ≢ mark) parts.0.now) }
    ensures bytes { IfSome result (λ parts. text.now ≡ parts.0.now ++ mark ∷ parts.1.now) }
{
    let end = place?;
    Some((&text[..end], &text[end + 1..]))
}

/// What `memchr` finds, by a loop over the bytes.
#[inline(always)]
fn place_of(mark: u8, text: &[u8]) -> Option<usize>
    ensures { IsFirstByte (is_byte mark) text.now result }
{
    for (place, byte) in text.iter().enumerate() {
        if *byte == mark {
            return Some(place);
        }
    }
    None
}
