// When the fast row is taken, and what it needs then.
ghost use Rattle.std.specs.Prelude.{◌≡◌, true};
ghost use Rattle.scatter.specs.Geometry.{Geometry};
ghost use Rattle.fast.specs.Condition.{fast_row, fast_of};

use crate::divide::FloorDiv;
use scatter::geometry::Scatter;

// A shift for 256 × pel, and both steps ready to divide by.
#[derive(Clone, Copy)]
pub struct Fast {
    pub shift: u32,
    pub across: FloorDiv,
    pub down: FloorDiv,
}

// Whether the fast row is taken: pel a power of two, both steps at most the widest divisor. The Rust asks for a time from -256 to 256 too; ours does without.
pub fn is_fast(g: Scatter) -> bool
    requires { Geometry g }
    ensures { result ≡ fast_row g.shape }
{
    let shape = g.shape;
    let pel = shape.pel as u32;
    if crate::scale::exponent(pel).is_none() {
        return false;
    }
    let widest = crate::divide::WIDEST as i32;
    if widest < g.step_x {
        return false;
    }
    g.step_y <= widest
}

// Works out the shift and both reciprocals, once as a scatter begins.
pub fn ready(g: Scatter) -> Fast
    requires { (Geometry g) × (fast_row g.shape ≡ true) }
    ensures { result ≡ fast_of g.shape }
{
    let shape = g.shape;
    let pel = shape.pel as u32;
    let shift = 8 + crate::scale::exponent(pel).unwrap();
    let x = g.step_x as u32;
    let y = g.step_y as u32;
    let across = FloorDiv::new(x);
    let down = FloorDiv::new(y);
    Fast {
        shift,
        across,
        down,
    }
}
