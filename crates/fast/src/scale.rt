// Division by 256 × pel without dividing, where pel is a power of two.
ghost use Rattle.std.specs.Prelude.{◌≡◌, ◌^◌, ◌≤◌, pos, cond};
ghost use Rattle.std.specs.Int.Signed.{quot_z, lt_z};
ghost use Rattle.fast.specs.Power.{power_of};

// The exponent of a pel that is a power of two of at most 64.
pub fn exponent(pel: u32) -> Option<u32>
    ensures { result ≡ power_of pel }
{
    for k in 0..7 {
        if 1 << k == pel {
            return Some(k);
        }
    }
    None
}

// value / 2^shift, truncated to zero: a negative value is moved up by 2^shift - 1 before it is shifted down.
pub fn scale(value: i32, shift: u32) -> i32
    requires { shift ≤ 14 }
    ensures { result ≡ quot_z value (pos (2 ^ shift)) }
{
    let round = (1i32 << shift) - 1;
    (value + lift(value, round)) >> shift
}

// How far a value is moved up before it is shifted down.
fn lift(value: i32, round: i32) -> i32
    ensures { result ≡ cond (lt_z value (pos 0)) round (pos 0) }
{
    if value < 0 {
        return round;
    }
    0
}
