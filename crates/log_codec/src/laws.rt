//! The law of numbers: bytes and number determine each other. The functions of this file do nothing: their contracts
//! are laws.
ghost use Rattle.std.specs.Prelude.{◌≡◌, ℕ, ◌<◌, ◌^◌, List, ◌++◌, Some};
ghost use Rattle.log_codec.specs.Numbers.{number, number_at, IsBytes};

/// A number that fits its width is read back from its bytes, with whatever stands behind them; and where one is read,
/// its bytes are those that were taken, and it fits its width.
pub fn numbers_are_read_as_written()
    ensures written { (width n : ℕ) (rest : List ℕ) → n < 256 ^ width
        → number_at width (number width n ++ rest) ≡ Some (n, rest) }
    ensures read { (width n : ℕ) (bytes rest : List ℕ) → IsBytes bytes
        → number_at width bytes ≡ Some (n, rest) → (bytes ≡ number width n ++ rest) × (n < 256 ^ width) }
{}
