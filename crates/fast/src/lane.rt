// One block of a fast row: its two axes, whether its four cells lie together, and its products added or held back.
ghost use Rattle.std.specs.Prelude.{◌≡◌, ◌+◌, ◌<◌, ◌≤◌, ◌*ℤ◌, length};
ghost use Rattle.record.specs.Shape.{grid_size};
ghost use Rattle.scatter.specs.Cells.{cells_from};
ghost use Rattle.scatter.specs.Geometry.{Geometry, Floored, Small};
ghost use Rattle.scatter.specs.Added.{added};
ghost use Rattle.fast.specs.Corner.{corner_at};
ghost use Rattle.fast.specs.Held.{four, released};

use crate::hold::Pending;
use scatter::axis::AxisParts;
use scatter::geometry::Scatter;

// The index of cell (x, y), where that cell and the three after it lie inside.
fn corner(g: Scatter, x: i32, y: i32) -> Option<usize>
    requires { Geometry g }
    ensures { result ≡ corner_at g.shape x y }
{
    let column = arith::to_bits(x);
    let row = arith::to_bits(y);
    if g.width - 1 <= column {
        return None;
    }
    if g.height - 1 <= row {
        return None;
    }
    Some(g.index(column, row))
}

// A block whose four cells lie together, the first at `at`, with its parts on both axes.
fn inner(
    grid: &mut [i32],
    stride: usize,
    held: Pending,
    at: usize,
    x: AxisParts,
    y: AxisParts,
) -> Pending
    requires { (Small x.near x.far y.near y.far) × (held.at + stride < length grid.old) × (at + 1 + stride < length grid.old) }
    ensures within { result.at ≡ at + 1 }
    ensures adds { released stride result grid.new
        ≡ four stride at (y.near *ℤ x.near) (y.near *ℤ x.far) (y.far *ℤ x.far) (x.near *ℤ y.far) (released stride held grid.old) }
{
    let v0 = y.near * x.near;
    let v1 = y.near * x.far;
    let v2 = y.far * x.far;
    let v3 = x.near * y.far;
    crate::hold::turn(grid, stride, held, at, v0, v1, v2, v3)
}

// The block at a column and a row that has moved by tx, ty, whose floors by the steps are qx, qy. One with a cell outside goes in whole.
pub fn lane(
    grid: &mut [i32],
    g: Scatter,
    held: Pending,
    column: usize,
    row: usize,
    tx: i32,
    ty: i32,
    qx: i32,
    qy: i32,
) -> Pending
    requires { (Floored g column row tx ty qx qy) × (grid_size g.shape ≤ length grid.old) × (held.at + g.stride < length grid.old) }
    ensures within { result.at + g.stride < length grid.old }
    ensures adds { released g.stride result grid.new ≡ added (released g.stride held grid.old) (cells_from g.shape column row tx ty) }
{
    let shape = g.shape;
    let x = scatter::axis::parts(g.step_x, shape.block_w, column, tx, qx);
    let y = scatter::axis::parts(g.step_y, shape.block_h, row, ty, qy);
    let Some(at) = corner(g, x.cell, y.cell) else {
        let c = g.cells(column, row, tx, ty, qx, qy);
        scatter::added::add(grid, c);
        return held;
    };
    inner(grid, g.stride, held, at, x, y)
}
