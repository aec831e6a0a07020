//! Rows of bits.
ghost use Rattle.std.specs.Prelude.{◌≡◌, ◌<◌, ◌||◌, ℕ, eqb};
ghost use Rattle.htl_model.specs.Bits.{has_bit as has_bit_of};

/// Whether a row has a bit.
pub fn has_bit(row: u128, k: u32) -> bool
    requires { k < 128 }
    ensures { result ≡ has_bit_of row k }
{
    (row >> k) & 1 == 1
}

/// A row with one bit more.
pub fn with_bit(row: u128, k: u32) -> u128
    requires { k < 128 }
    ensures { (q : ℕ) → has_bit_of result q ≡ (has_bit_of row q || eqb q k) }
{
    row | (1 << k)
}
