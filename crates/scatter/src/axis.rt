// One axis of a block at a time: its first cell, and its parts on either side of the cell's line (paper 01, 'Scatter').
ghost use Rattle.std.specs.Prelude.{◌≡◌};
ghost use Rattle.arith.specs.Integers.{up};
ghost use Rattle.scatter.specs.Geometry.{Movable, parts_of};

// A block on one axis: its first cell, its part within that cell (`near`, the paper's r) and its part past it (`far`, the paper's l).
#[derive(Clone, Copy)]
pub struct AxisParts {
    pub cell: i32,
    pub near: i32,
    pub far: i32,
}

// The parts of a block at column or row `at` that has moved by t, whose floor by the step is q.
pub fn parts(step: i32, block: i32, at: usize, t: i32, q: i32) -> AxisParts
    requires { Movable step block at t q }
    ensures { result ≡ parts_of (up step) block at t }
{
    let first = at as i32;
    let cell = first + q;
    let near = step * (q + 1) - t;
    let far = block - near;
    AxisParts { cell, near, far }
}
