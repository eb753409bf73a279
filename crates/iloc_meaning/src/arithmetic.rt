//! Arithmetic on values of 32 bits, in two's complement.
ghost use Rattle.std.specs.Prelude.{◌≡◌, ◌+ℤ◌, ◌-ℤ◌, ◌*ℤ◌};
ghost use Rattle.iloc_meaning.specs.Arithmetic as meant;

/// Promise: the signed value that a constant's 32 bits stand for in two's complement.
pub fn constant(pattern: u32) -> i32
    ensures { result ≡ meant.constant pattern }
{
    pattern.cast_signed()
}

/// Promise: the sum, wrapped to 32 bits.
pub fn sum(left: i32, right: i32) -> i32
    ensures { result ≡ meant.wrapped (left +ℤ right) }
{
    left.wrapping_add(right)
}

/// Promise: the difference, wrapped to 32 bits.
pub fn difference(left: i32, right: i32) -> i32
    ensures { result ≡ meant.wrapped (left -ℤ right) }
{
    left.wrapping_sub(right)
}

/// Promise: the product, wrapped to 32 bits.
pub fn product(left: i32, right: i32) -> i32
    ensures { result ≡ meant.wrapped (left *ℤ right) }
{
    left.wrapping_mul(right)
}

/// Promise: the value shifted left by the amount modulo 32.
pub fn shifted_left(value: i32, amount: i32) -> i32
    ensures { result ≡ meant.shifted_left value amount }
{
    value.wrapping_shl(amount.cast_unsigned())
}

/// Promise: the value shifted right by the amount modulo 32, with its sign kept.
pub fn shifted_right(value: i32, amount: i32) -> i32
    ensures { result ≡ meant.shifted_right value amount }
{
    value.wrapping_shr(amount.cast_unsigned())
}
