// Products held back: of a block whose four cells lie together, the right two products are added with those of the next block, whose left two often go to the same cells.
ghost use Rattle.std.specs.Prelude.{◌≡◌, ◌+◌, ◌<◌, length};
ghost use Rattle.fast.specs.Held.{paired, four, released};

// `top` is to be added at cell `at`, `bottom` at the cell below it.
#[derive(Clone, Copy)]
pub struct Pending {
    pub at: usize,
    pub top: i32,
    pub bottom: i32,
}

// A product at a cell, and one at the cell below.
fn pair(grid: &mut [i32], stride: usize, at: usize, top: i32, bottom: i32)
    requires { at + stride < length grid.old }
    ensures { grid.new ≡ paired stride at top bottom grid.old }
{
    scatter::added::plus_at(grid, at, top);
    scatter::added::plus_at(grid, at + stride, bottom);
}

// What is held goes in.
pub fn release(grid: &mut [i32], stride: usize, held: Pending)
    requires { held.at + stride < length grid.old }
    ensures { grid.new ≡ released stride held grid.old }
{
    let at = held.at;
    let top = held.top;
    let bottom = held.bottom;
    pair(grid, stride, at, top, bottom);
}

// What is held at `at` goes in with the block's own two.
fn merge(grid: &mut [i32], stride: usize, held: Pending, v0: i32, v3: i32)
    requires { held.at + stride < length grid.old }
    ensures { grid.new ≡ paired stride held.at v0 v3 (released stride held grid.old) }
{
    let at = held.at;
    let top = held.top;
    let bottom = held.bottom;
    let t = arith::wrapping_add(v0, top);
    let b = arith::wrapping_add(v3, bottom);
    pair(grid, stride, at, t, b);
}

// A block with its cells at `at`, at its right neighbour and at the two below: the left two products go in with what was held, and the right two are held.
pub fn turn(
    grid: &mut [i32],
    stride: usize,
    held: Pending,
    at: usize,
    v0: i32,
    v1: i32,
    v2: i32,
    v3: i32,
) -> Pending
    requires { (held.at + stride < length grid.old) × (at + 1 + stride < length grid.old) }
    ensures within { result.at ≡ at + 1 }
    ensures adds { released stride result grid.new ≡ four stride at v0 v1 v2 v3 (released stride held grid.old) }
{
    let before = held.at;
    let r = Pending {
        at: at + 1,
        top: v1,
        bottom: v2,
    };
    if at == before {
        merge(grid, stride, held, v0, v3);
        return r;
    }
    release(grid, stride, held);
    pair(grid, stride, at, v0, v3);
    r
}
