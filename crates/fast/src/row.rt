// The fast row: the blocks of one row of a set, sixteen at a time, with two of each block's products held back for the next.
ghost use Rattle.std.specs.Prelude.{◌≡◌, ◌+◌, ◌<◌, ◌≤◌, length};
ghost use Rattle.record.specs.Shape.{grid_size};
ghost use Rattle.scatter.specs.Cells.{cells_at};
ghost use Rattle.scatter.specs.Geometry.{RowRoom};
ghost use Rattle.scatter.specs.Added.{added_run, row_added};
ghost use Rattle.fast.specs.Condition.{Quick};
ghost use Rattle.fast.specs.Held.{released};
ghost use Rattle.fast.specs.Lanes.{Floors, lane_cells};
ghost use Rattle.fast.specs.Row.{ChunkRoom, SignedGrid};

use crate::condition::Fast;
use crate::hold::Pending;
use crate::lanes::LANES;
use scatter::geometry::Scatter;

// Adds `count` blocks from a column on, one after the other.
fn put_lanes(
    grid: &mut [i32],
    g: Scatter,
    held: Pending,
    column: usize,
    row: usize,
    count: usize,
    tx: &[i32],
    ty: &[i32],
    qx: &[i32],
    qy: &[i32],
) -> Pending
    requires { (Floors g column row count tx.now ty.now qx.now qy.now) × (grid_size g.shape ≤ length grid.old) × (held.at + g.stride < length grid.old) }
    ensures within { result.at + g.stride < length grid.old }
    ensures adds { released g.stride result grid.new ≡ added_run (lane_cells g.shape column row tx.now ty.now) 0 count (released g.stride held grid.old) }
{
    let mut p = held;
    // Counted by hand, here and in `fast_row`: with both loops over ranges a cover mask takes 1.12 times as long.
    let mut k = 0;
    while k < count {
        let a = tx[k];
        let b = ty[k];
        let c = qx[k];
        let d = qy[k];
        p = crate::lane::lane(grid, g, p, column + k, row, a, b, c, d);
        k += 1;
    }
    p
}

// Adds `count` blocks of a row from a column on, at most sixteen.
fn chunk(
    grid: &mut [i32],
    g: Scatter,
    f: Fast,
    held: Pending,
    set: &[u8],
    start: usize,
    column: usize,
    row: usize,
    count: usize,
) -> Pending
    requires { (ChunkRoom g f start column row count (length set.now) (length grid.old)) × (held.at + g.stride < length grid.old) }
    ensures within { result.at + g.stride < length grid.old }
    ensures adds { released g.stride result grid.new ≡ added_run (cells_at g.shape g.time set.now) start count (released g.stride held grid.old) }
{
    let mut vx = [0i32; LANES];
    let mut vy = [0i32; LANES];
    let mut tx = [0i32; LANES];
    let mut qx = [0i32; LANES];
    let mut ty = [0i32; LANES];
    let mut qy = [0i32; LANES];
    crate::lanes::components(set, start, count, &mut vx, &mut vy);
    crate::lanes::axis(&vx, g, f.shift, f.across, &mut tx, &mut qx);
    crate::lanes::axis(&vy, g, f.shift, f.down, &mut ty, &mut qy);
    put_lanes(grid, g, held, column, row, count, &tx, &ty, &qx, &qy)
}

// Adds the blocks of one row to a grid whose cells are any i32. What is held goes in at the row's end.
pub fn fast_row(g: Scatter, f: Fast, set: &[u8], row: usize, grid: &mut [i32])
    requires { (Quick g f) × (RowRoom g row (length set.now) (length grid.old)) × (SignedGrid (grid_size g.shape) grid.old) }
    ensures { grid.new ≡ row_added g.shape g.time set.now row grid.old }
{
    let shape = g.shape;
    let columns = shape.grid_w as usize;
    let first = row * columns;
    let mut held = Pending {
        at: 0,
        top: 0,
        bottom: 0,
    };
    let mut column = 0;
    while column < columns {
        let count = arith::least(columns - column, LANES);
        held = chunk(grid, g, f, held, set, first + column, column, row, count);
        column += count;
    }
    crate::hold::release(grid, g.stride, held);
}
