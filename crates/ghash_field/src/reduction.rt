// A product of polynomials, reduced by the field's modulus.

ghost use Rattle.std.specs.Prelude.{◌≡◌, ℕ, ◌+◌, ◌*◌, ◌/◌, ◌%◌, ◌<◌, ◌^◌, bit_xor};
ghost use Rattle.ghash_field.specs.Field.{block_product};
ghost use Rattle.ghash_field.specs.Steps.{folded};

/// The block of a polynomial of degree below 256, whose terms below x^128 are the block `high`, and
/// those from x^128 on the block `low`. x^128 is 1 + x + x^2 + x^7, so what is added is `low` shifted
/// by as many places; and what falls out at the end begins again by the same rule.
pub(crate) fn reduced(high: u128, low: u128) -> u128
    ensures { result ≡ bit_xor high (block_product low (0xe1 * 2 ^ 120)) }
{
    let fallen = low << 127 ^ low << 126 ^ low << 121;
    let all = low ^ fallen;
    high ^ all ^ all >> 1 ^ all >> 2 ^ all >> 7
}

/// The product of two blocks, from their product as polynomials: `high` from x^128 on, and `low`. It
/// has degree below 255, and one of 256 bits reflected stands one place too low.
pub(crate) fn block_of(high: u128, low: u128) -> u128
    ensures { high < 2 ^ 127 → result ≡ folded ((high * 2 ^ 128 + low) * 2) }
{
    reduced(high << 1 ^ low >> 127, low << 1)
}
