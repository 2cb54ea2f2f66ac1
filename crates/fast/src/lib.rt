// The fast scatter: the Rust's fast row, and the one entry that chooses between it and the plain scatter.
#![tactic(auto)]

ghost use Rattle.std.specs.Prelude.{◌≡◌, length};
ghost use Rattle.arith.specs.Splice.{over};
ghost use Rattle.scatter.specs.Geometry.{ScatterRoom};
ghost use Rattle.scatter.specs.Grid.{grid_of};

use record::shape::FieldShape;
use scatter::geometry::Scatter;

pub mod divide; // FloorDiv: division by a reciprocal
pub mod scale; // division by 256 × pel by a shift
pub mod condition; // Fast: when the fast row is taken, and what it needs
pub mod hold; // Pending: products held back for the next block
pub mod lanes; // sixteen blocks of a row at a time
pub mod lane; // one block of a fast row
pub mod row; // the fast row
pub mod whole; // every row of a set by the fast row

// The grid of a set at a time, from zero: by the fast row where it is taken, else by the plain scatter. Cells past the trash cell stay.
pub fn scatter(shape: FieldShape, time: i32, set: &[u8], grid: &mut [i32])
    requires { ScatterRoom shape time (length set.now) (length grid.old) }
    ensures { grid.new ≡ over (grid_of shape time set.now) grid.old }
{
    let g = Scatter::new(shape, time);
    if condition::is_fast(g) {
        whole::fast_scatter(g, set, grid);
    } else {
        scatter::plain::scatter(shape, time, set, grid);
    }
}
