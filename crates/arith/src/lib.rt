// Arithmetic that the language leaves out: signed sums, differences and products modulo 2^32, division that floors, the lesser of two numbers, and ranges.
#![tactic(auto)]

ghost use Rattle.std.specs.Prelude.{◌≡◌, min, pos, ◌+ℤ◌, ◌-ℤ◌, ◌*ℤ◌, ◌≤ℤ◌};
ghost use Rattle.std.specs.Int.{w32};
ghost use Rattle.std.proofs.Common.{to_z};
ghost use Rattle.arith.specs.Floor.{floor_z};
ghost use Rattle.arith.specs.Integers.{in_range};
ghost use Rattle.arith.specs.Wrap.{res, wrap32};

// The 32 bits of a signed number.
pub fn to_bits(x: i32) -> u32
    ensures { result ≡ res x }
{
    x.cast_unsigned()
}

// 32 bits, read as a signed number.
pub fn from_bits(bits: u32) -> i32
    ensures { result ≡ to_z w32 bits }
{
    bits.cast_signed()
}

// a + b modulo 2^32, read as signed.
pub fn wrapping_add(a: i32, b: i32) -> i32
    ensures { result ≡ wrap32 (a +ℤ b) }
{
    a.wrapping_add(b)
}

// a - b modulo 2^32, read as signed.
pub fn wrapping_sub(a: i32, b: i32) -> i32
    ensures { result ≡ wrap32 (a -ℤ b) }
{
    a.wrapping_sub(b)
}

// a * b modulo 2^32, read as signed: the helper for products that wrap on purpose.
pub fn wrapping_mul(a: i32, b: i32) -> i32
    ensures { result ≡ wrap32 (a *ℤ b) }
{
    a.wrapping_mul(b)
}

// value / divisor, floored: truncate, and step down where the remainder is negative.
pub fn floor_div(value: i32, divisor: i32) -> i32
    requires { pos 1 ≤ℤ divisor }
    ensures { result ≡ floor_z value divisor }
{
    let q = value / divisor;
    let m = value % divisor;
    if m < 0 { q - 1 } else { q }
}

// The lesser of a and b.
pub fn least(a: usize, b: usize) -> usize
    ensures { result ≡ min a b }
{
    a.min(b)
}

// Whether a value is from low to high.
pub fn in_range(low: i32, high: i32, value: i32) -> bool
    ensures { result ≡ in_range low high value }
{
    low <= value && value <= high
}
