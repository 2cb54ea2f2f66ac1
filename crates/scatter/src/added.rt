// A block's four products added to a grid of any contents, and taken from it, modulo 2^32 (paper 01, 'Scatter' and 'Session').
ghost use Rattle.std.specs.Prelude.{◌≡◌, ◌<◌, ℤ, length};
ghost use Rattle.scatter.specs.Cells.{Within};
ghost use Rattle.scatter.specs.Added.{plus, Computes, changed, added, removed};

use crate::geometry::Cells;

// Adds to one cell.
pub fn plus_at(grid: &mut [i32], at: usize, value: i32)
    requires { at < length grid.old }
    ensures { grid.new ≡ plus grid.old at value }
{
    grid[at] = arith::wrapping_add(grid[at], value);
}

// Changes the four cells one after the other, each to what `change` makes of it and its product.
fn change<F: Fn(i32, i32) -> i32>(grid: &mut [i32], c: Cells, change: F)
    requires within { Within c (length grid.old) }
    requires callable { F.IsAlwaysCallable change }
    ensures { (op : ℤ → ℤ → ℤ) → Computes (F.post change) op → grid.new ≡ changed op c grid.old 4 }
{
    for k in 0..4 {
        let at = c.at[k];
        grid[at] = change(grid[at], c.value[k]);
    }
}

// Adds the four.
pub fn add(grid: &mut [i32], c: Cells)
    requires { Within c (length grid.old) }
    ensures { grid.new ≡ added grid.old c }
{
    change(grid, c, |cell, product| arith::wrapping_add(cell, product));
}

// Takes the four away.
pub fn remove(grid: &mut [i32], c: Cells)
    requires { Within c (length grid.old) }
    ensures { grid.new ≡ removed grid.old c }
{
    change(grid, c, |cell, product| arith::wrapping_sub(cell, product));
}
