// A row of the cover mask from three rows of cells: sums of columns, covers, bytes.
ghost use Rattle.std.specs.Prelude.{◌≡◌, ℕ, ◌+◌, ◌*◌, ◌≤◌, ◌+ℤ◌, length};
ghost use Rattle.arith.specs.Integers.{up, dn};
ghost use Rattle.arith.specs.Splice.{over};
ghost use Rattle.arith.specs.Tabulate.{tab};
ghost use Rattle.arith.specs.Wrap.{wrap32};
ghost use Rattle.levels.specs.Level.{cover_level};
ghost use Rattle.masks.specs.Cover.{covered_of, cover_row, cover_bytes};
ghost use Rattle.masks.specs.Cover.Laws.{value_at, column_sum, covered_at, line_bytes, Covers};

use crate::cover_levels::{CoverLevels, LEVELS};
use levels::MaskSettings;

// Room for a row: W is at most 1025.
const ROW: usize = 1028;

// What a row is worked out in: the sums of its columns, and what is covered of its cells.
#[derive(Drop)]
struct Passes {
    column: [i32; ROW],
    cover: [i32; ROW],
}

// a + b + c modulo 2^32.
fn sum3(a: i32, b: i32, c: i32) -> i32
    ensures { result ≡ wrap32 (a +ℤ b +ℤ c) }
{
    arith::wrapping_add(arith::wrapping_add(a, b), c)
}

// The least of s >> 3 and the area.
fn covered(area: u32, s: i32) -> i32
    requires { area ≤ 65536 }
    ensures { (result ≡ covered_of area s) × (up result ≤ area) × (dn result ≤ 268435456) }
{
    (s >> 3).min(area as i32)
}

// The sums of three cells, one below the other, of n columns.
fn columns(above: &[i32], middle: &[i32], below: &[i32], n: usize, column: &mut [i32])
    requires cells_room { (n ≤ length above.now) × (n ≤ length middle.now) × (n ≤ length below.now) }
    requires column_room { n ≤ length column.old }
    ensures { column.new ≡ over (tab (column_sum above.now middle.now below.now) n) column.old }
{
    for i in 0..n {
        column[i] = sum3(above[i], middle[i], below[i]);
    }
}

// What is covered of w cells, from the sums of w + 2 columns.
fn covers(column: &[i32], area: u32, w: usize, cover: &mut [i32])
    requires { (area ≤ 65536) × (w + 2 ≤ length column.now) × (w ≤ length cover.old) }
    ensures { cover.new ≡ over (tab (covered_at area column.now) w) cover.old }
{
    for x in 0..w {
        cover[x] = covered(area, sum3(column[x], column[x + 1], column[x + 2]));
    }
}

// The bytes of w cells.
fn bytes(levels: &CoverLevels, cover: &[i32], w: usize, row: &mut [u8])
    requires covers { Covers levels.now.area cover.now w }
    requires room { (w ≤ length cover.now) × (w ≤ length row.old) }
    ensures { row.new ≡ over (tab (λ (x : ℕ). cover_level levels.now.settings.cover levels.now.area (value_at cover.now x)) w) row.old }
{
    for x in 0..w {
        row[x] = levels.level(cover[x]);
    }
}

// A row of w bytes of the mask, from three rows of w + 2 cells.
fn cover_row(
    levels: &CoverLevels,
    above: &[i32],
    middle: &[i32],
    below: &[i32],
    w: usize,
    passes: &mut Passes,
    row: &mut [u8],
)
    requires width_most { w ≤ 1025 }
    requires cells_room { (w + 2 ≤ length above.now) × (w + 2 ≤ length middle.now) × (w + 2 ≤ length below.now) }
    requires row_room { w ≤ length row.old }
    ensures { row.new
        ≡ over (cover_row levels.now.settings.cover levels.now.area (value_at above.now) (value_at middle.now) (value_at below.now) w) row.old }
{
    columns(above, middle, below, w + 2, &mut passes.column);
    covers(&passes.column, levels.area, w, &mut passes.cover);
    bytes(levels, &passes.cover, w, row);
}

// The row of w bytes whose three rows of cells start at `at`, w + 2 cells each.
fn cover_line(
    levels: &CoverLevels,
    grid: &[i32],
    at: usize,
    w: usize,
    passes: &mut Passes,
    row: &mut [u8],
)
    requires width_most { w ≤ 1025 }
    requires cells_room { at + 3 * (w + 2) ≤ length grid.now }
    requires row_room { w ≤ length row.old }
    ensures { row.new ≡ over (line_bytes levels.now.settings.cover levels.now.area (value_at grid.now) at w) row.old }
{
    let stride = w + 2;
    let middle = at + stride;
    let below = middle + stride;
    let end = below + stride;
    cover_row(
        levels,
        &grid[at..middle],
        &grid[middle..below],
        &grid[below..end],
        w,
        passes,
        row,
    );
}

// h rows of w bytes of the mask, from a grid of w + 2 columns.
fn cover_lines(
    levels: &CoverLevels,
    grid: &[i32],
    w: usize,
    h: usize,
    passes: &mut Passes,
    mask: &mut [u8],
)
    requires width_most { w ≤ 1025 }
    requires room { ((h + 2) * (w + 2) ≤ length grid.now) × (h * w ≤ length mask.old) }
    ensures { mask.new ≡ over (cover_bytes levels.now.settings.cover levels.now.area w h (value_at grid.now)) mask.old }
{
    for y in 0..h {
        cover_line(levels, grid, y * (w + 2), w, passes, &mut mask[y * w..]);
    }
}

// w × h bytes of the mask, from a grid of w + 2 columns.
pub fn cover_bytes(
    settings: MaskSettings,
    area: u32,
    grid: &[i32],
    w: usize,
    h: usize,
    mask: &mut [u8],
)
    requires area_range { (1 ≤ area) × (area ≤ 65536) }
    requires width_most { w ≤ 1025 }
    requires room { ((h + 2) * (w + 2) ≤ length grid.now) × (h * w ≤ length mask.old) }
    ensures { mask.new ≡ over (cover_bytes settings.cover area w h (value_at grid.now)) mask.old }
{
    let mut table = [0u8; LEVELS];
    crate::cover_levels::fill(settings, area, &mut table);
    let levels = CoverLevels {
        settings,
        area,
        table: &table,
    };
    let mut passes = Passes {
        column: [0; ROW],
        cover: [0; ROW],
    };
    cover_lines(&levels, grid, w, h, &mut passes, mask);
}
