// Division by a step without dividing: its reciprocal, worked out once as a scatter begins, and a product shifted down.
ghost use Rattle.std.specs.Prelude.{◌≡◌, ◌≤◌, nat_abs};
ghost use Rattle.arith.specs.Floor.{floor_z};
ghost use Rattle.scatter.specs.Block.{reach};
ghost use Rattle.fast.specs.Reciprocal.{widest, ceil_of, floor_div_of, DivReady};

// How far from 0 a value to be divided may be.
const REACH: u32 = 8388480;

// The largest divisor, which is the largest step of a fast row.
pub const WIDEST: u32 = 128;

// ceil(2^32 / divisor): the floor of (2^32 - 1) / divisor, and 1.
fn reciprocal(divisor: u32) -> u64
    requires { (1 ≤ divisor) × (divisor ≤ widest) }
    ensures { result ≡ ceil_of divisor }
{
    let d = divisor as u64;
    4294967295 / d + 1
}

// What a division by `divisor` needs: a value is moved up by `offset`, which is `bias` times the divisor, and the quotient down by `bias`. `less` is the
// reciprocal less 1, so that it is a u32 at every divisor: the reciprocal of 1 is 2^32.
#[derive(Clone, Copy)]
pub struct FloorDiv {
    pub divisor: i32,
    pub less: u32,
    pub bias: i32,
    pub offset: i32,
}

impl FloorDiv {
    // The reciprocal is worked out here, once for each axis as a scatter begins.
    pub fn new(divisor: u32) -> FloorDiv
        requires { (1 ≤ divisor) × (divisor ≤ widest) }
        ensures { result ≡ floor_div_of divisor }
    {
        let b = (REACH - 1 + divisor) / divisor;
        let m = reciprocal(divisor);
        FloorDiv {
            divisor: divisor as i32,
            less: (m - 1) as u32,
            bias: b as i32,
            offset: (b * divisor) as i32,
        }
    }

    // The floor of value / divisor, for a value within the reach.
    pub fn apply(self, value: i32) -> i32
        requires { (DivReady self) × (nat_abs value ≤ reach) }
        ensures { result ≡ floor_z value self.divisor }
    {
        let less = self.less as u64;
        let up = value + self.offset;
        let k = up as u32;
        let n = k as u64;
        let q = (n * less + n) >> 32;
        (q as i32) - self.bias
    }
}
