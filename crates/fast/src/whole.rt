// The fast scatter: every row of a set by the fast row, into a grid that starts at zero.
ghost use Rattle.std.specs.Prelude.{◌≡◌, length};
ghost use Rattle.arith.specs.Splice.{over};
ghost use Rattle.scatter.specs.Grid.{grid_of};
ghost use Rattle.fast.specs.Row.{FastRoom};

use scatter::geometry::Scatter;

// The grid of a set at a time, from zero, where the fast row is taken. Cells past the trash cell stay.
pub fn fast_scatter(g: Scatter, set: &[u8], grid: &mut [i32])
    requires { FastRoom g (length set.now) (length grid.old) }
    ensures { grid.new ≡ over (grid_of g.shape g.time set.now) grid.old }
{
    let size = g.trash + 1;
    scatter::plain::clear(grid, size);
    let f = crate::condition::ready(g);
    let shape = g.shape;
    let rows = shape.grid_h as usize;
    for row in 0..rows {
        crate::row::fast_row(g, f, set, row, grid);
    }
}
