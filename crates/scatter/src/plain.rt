// The plain scatter: every block of a set, row by row, into a grid that starts at zero (paper 01, 'Scatter').
ghost use Rattle.std.specs.Prelude.{◌≡◌, ◌≤◌, length};
ghost use Rattle.arith.specs.Splice.{over};
ghost use Rattle.scatter.specs.Geometry.{ScatterRoom, RowRoom};
ghost use Rattle.scatter.specs.Grid.{grid_of, zeros};
ghost use Rattle.scatter.specs.Added.{row_added};

use crate::geometry::Scatter;
use record::shape::FieldShape;

// Sets the first `size` cells to 0.
pub fn clear(grid: &mut [i32], size: usize)
    requires { size ≤ length grid.old }
    ensures { grid.new ≡ over (zeros size) grid.old }
{
    grid[..size].fill(0);
}

// Adds the blocks of one row to a grid of any contents.
fn add_row(g: Scatter, set: &[u8], row: usize, grid: &mut [i32])
    requires { RowRoom g row (length set.now) (length grid.old) }
    ensures { grid.new ≡ row_added g.shape g.time set.now row grid.old }
{
    let columns = record::shape::columns(g.shape);
    let first = row * columns;
    for column in 0..columns {
        let block = first + column;
        let x = record::entry::x_at(set, block);
        let y = record::entry::y_at(set, block);
        let cells = g.of_vector(column, row, x, y);
        crate::added::add(grid, cells);
    }
}

// The grid of a set at a time, from zero. Cells past the trash cell stay.
pub fn scatter(shape: FieldShape, time: i32, set: &[u8], grid: &mut [i32])
    requires { ScatterRoom shape time (length set.now) (length grid.old) }
    ensures { grid.new ≡ over (grid_of shape time set.now) grid.old }
{
    let size = record::shape::grid_size(shape);
    clear(grid, size);
    let g = Scatter::new(shape, time);
    let rows = record::shape::rows(shape);
    for row in 0..rows {
        add_row(g, set, row, grid);
    }
}
