// The patch of a grid after one entry changes (paper 01, 'Session').
ghost use Rattle.std.specs.Prelude.{◌≡◌, length};
ghost use Rattle.scatter.specs.Geometry.{BlockRoom};
ghost use Rattle.scatter.specs.Added.{patched};

use crate::geometry::Scatter;
use record::entry::BlockVector;
use record::shape::FieldShape;

// Takes the old entry's four products from the grid and adds the new one's, whatever the grid holds.
pub fn patch(
    shape: FieldShape,
    time: i32,
    block: usize,
    old: BlockVector,
    new: BlockVector,
    grid: &mut [i32],
)
    requires { BlockRoom shape time block (length grid.old) }
    ensures { grid.new ≡ patched shape time block old new grid.old }
{
    let g = Scatter::new(shape, time);
    let columns = record::shape::columns(shape);
    let column = block % columns;
    let row = block / columns;
    let before = g.of_vector(column, row, old.x, old.y);
    crate::added::remove(grid, before);
    let after = g.of_vector(column, row, new.x, new.y);
    crate::added::add(grid, after);
}
