// The two planes of a vector set (paper 01, 'Planes').
ghost use Rattle.std.specs.Prelude.{◌≡◌, ◌+◌, ◌*◌, ◌<◌, ◌≤◌, length, pos, ◌+ℤ◌, ◌-ℤ◌};
ghost use Rattle.arith.specs.Integers.{up, dn};
ghost use Rattle.record.specs.Refusals.{number_of};
ghost use Rattle.record.specs.Shape.{step_of, blocks_of, width_of, height_of, set_size, block_at};
ghost use Rattle.record.specs.Shape.Laws.{Accepted};
ghost use Rattle.maps.specs.Planes.{held, clamp_of, component_of, packed_cell, cell_at, x_at, y_at, planes, planes_made, planes_patched, pack_number, packed, pack_of};
ghost use Rattle.maps.specs.Planes.Component.{ComponentReady};
ghost use Rattle.maps.specs.Planes.Laws.{PlanesSized, PlanesReady};
ghost use Rattle.maps.specs.Planes.Drawn.{Drawn, Run, InRectangle, end_of};

use record::refusal::Refusal;
use record::shape::FieldShape;

// What the planes hold of a block's vector.
#[derive(Clone, Copy)]
pub struct Cell {
    pub x: u16,
    pub y: u16,
}

// A rectangle of cells: columns from `left` and rows from `top` on, up to `right` and `bottom`, which are past it.
#[derive(Clone, Copy)]
struct Rectangle {
    left: usize,
    right: usize,
    top: usize,
    bottom: usize,
}

// A cell that holds no vector.
const NEUTRAL: Cell = Cell { x: 1024, y: 1024 };

// Whether the planes hold a component.
fn is_held(v: i16) -> bool
    ensures { result ≡ held v }
{
    (-1023..=1023).contains(&v)
}

// A component kept in the picture.
fn clamp_pack(value: i32, pos: i32, block: i32, limit: i32) -> i32
    requires { ComponentReady value pos block limit }
    ensures { result ≡ clamp_of value pos block limit }
{
    if value + pos < 0 {
        return -pos;
    }
    let room = limit - pos - block;
    if value <= room {
        return value;
    }
    room.max(0)
}

// A component as a plane holds it: v + 1024.
fn raised(v: i32) -> u16
    requires { (up v ≤ 1023) × (dn v ≤ 1023) }
    ensures { result ≡ up (v +ℤ pos 1024) }
{
    (v + 1024) as u16
}

// A component, clamped with selector 0, as a plane holds it.
fn component(selector: i32, value: i16, pos: i32, block: i32, limit: i32) -> u16
    requires { ComponentReady value pos block limit }
    ensures { result ≡ component_of selector value pos block limit }
{
    let v = value as i32;
    if selector == 0 {
        return raised(clamp_pack(v, pos, block, limit));
    }
    raised(v)
}

// The cell of a vector at a position. Each axis has its own fields of the shape, as C lays them out: a struct of an axis would be made for this one call.
fn packed_cell(shape: FieldShape, vx: i16, vy: i16, px: i32, py: i32) -> Cell
    requires { Accepted shape × (dn px ≡ 0) × (up px ≤ 262400) × (dn py ≡ 0) × (up py ≤ 262400) }
    ensures { result ≡ packed_cell shape vx vy px py }
{
    if !is_held(vx) || !is_held(vy) {
        return NEUTRAL;
    }
    let x = component(shape.selector, vx, px, shape.block_w, shape.width);
    let y = component(shape.selector, vy, py, shape.block_h, shape.height);
    Cell { x, y }
}

// The block of a column and a row.
fn block_at(shape: FieldShape, x: usize, y: usize) -> usize
    requires { Accepted shape }
    ensures { result ≡ block_at shape x y }
{
    let w = record::shape::columns(shape);
    let h = record::shape::rows(shape);
    y.min(h - 1) * w + x.min(w - 1)
}

// The position of a column or a row: x × step.
fn position(i: usize, block: i32, overlap: i32) -> i32
    requires { (i ≤ 1024) × (block -ℤ overlap ≡ pos (step_of block overlap)) × (step_of block overlap ≤ 256) }
    ensures { result ≡ pos (i * step_of block overlap) }
{
    i as i32 * (block - overlap)
}

// The cell of a set at a column and a row.
fn cell_at(shape: FieldShape, set: &[u8], x: usize, y: usize) -> Cell
    requires { Accepted shape × (set_size shape ≤ length set.now) × (x < width_of shape) × (y < height_of shape) }
    ensures { result ≡ cell_at shape set.now x y }
{
    let block = block_at(shape, x, y);
    let px = position(x, shape.block_w, shape.overlap_x);
    let py = position(y, shape.block_h, shape.overlap_y);
    packed_cell(
        shape,
        record::entry::x_at(set, block),
        record::entry::y_at(set, block),
        px,
        py,
    )
}

// The cells of one row of a rectangle.
fn pack_row(
    shape: FieldShape,
    set: &[u8],
    w: usize,
    y: usize,
    cells: Rectangle,
    xs: &mut [u16],
    ys: &mut [u16],
)
    requires { PlanesSized shape w (length set.now) (length xs.old) (length ys.old)
        × (y < height_of shape) × (cells.left ≤ cells.right) × (cells.right ≤ width_of shape) }
    ensures { Drawn (Run (y * w + cells.left) (y * w + cells.right)) (x_at shape set.now) xs.old xs.new
        × Drawn (Run (y * w + cells.left) (y * w + cells.right)) (y_at shape set.now) ys.old ys.new }
{
    let start = y * w;
    for x in cells.left..cells.right {
        let cell = cell_at(shape, set, x, y);
        let k = start + x;
        xs[k] = cell.x;
        ys[k] = cell.y;
    }
}

// The cells of a rectangle.
fn pack_rows(
    shape: FieldShape,
    set: &[u8],
    w: usize,
    cells: Rectangle,
    xs: &mut [u16],
    ys: &mut [u16],
)
    requires { PlanesSized shape w (length set.now) (length xs.old) (length ys.old)
        × (cells.left ≤ cells.right) × (cells.right ≤ width_of shape) × (cells.top ≤ cells.bottom) × (cells.bottom ≤ height_of shape) }
    ensures { Drawn (InRectangle shape cells.left cells.right cells.top cells.bottom) (x_at shape set.now) xs.old xs.new
        × Drawn (InRectangle shape cells.left cells.right cells.top cells.bottom) (y_at shape set.now) ys.old ys.new }
{
    for y in cells.top..cells.bottom {
        pack_row(shape, set, w, y, cells, xs, ys);
    }
}

// Both planes of a set, made afresh.
pub fn fill_planes(shape: FieldShape, set: &[u8], xs: &mut [u16], ys: &mut [u16])
    requires { PlanesReady shape (length set.now) (length xs.old) (length ys.old) }
    ensures { planes xs.new ys.new ≡ planes_made shape set.now (planes xs.old ys.old) }
{
    let w = record::shape::packed_width(shape);
    let h = record::shape::packed_height(shape);
    let cells = Rectangle {
        left: 0,
        right: w,
        top: 0,
        bottom: h,
    };
    pack_rows(shape, set, w, cells, xs, ys);
}

// Where a block's cells end on an axis: the last block of an axis has all that is left of it.
#[tactic(auto, unfolding(crate::specs::Planes::Drawn::end_of))]
fn end_of(i: usize, grid: usize, packed: usize) -> usize
    requires { i < grid }
    ensures { result ≡ end_of i grid packed }
{
    let next = i + 1;
    if next == grid {
        return packed;
    }
    next
}

// One block's cells of both planes, up to four, worked out anew.
pub fn patch_planes(shape: FieldShape, set: &[u8], block: usize, xs: &mut [u16], ys: &mut [u16])
    requires { PlanesReady shape (length set.now) (length xs.old) (length ys.old) × (block < blocks_of shape) }
    ensures { planes xs.new ys.new
        ≡ planes_patched shape set.now block (planes xs.old ys.old) }
{
    let w = record::shape::packed_width(shape);
    let h = record::shape::packed_height(shape);
    let grid_w = record::shape::columns(shape);
    let grid_h = record::shape::rows(shape);
    let x = block % grid_w;
    let y = block / grid_w;
    let cells = Rectangle {
        left: x,
        right: end_of(x, grid_w, w),
        top: y,
        bottom: end_of(y, grid_h, h),
    };
    pack_rows(shape, set, w, cells, xs, ys);
}

// Refuses pack by the shape (2), by the length of a set or a plane (3), or by the side (8).
// One function of this and map::check_map would take the size as a closure, since only an accepted shape has one: no plainer.
#[tactic(auto, unfolding(crate::specs::Planes::pack_number, record::specs::Numbers::first, record::specs::Numbers::unless))]
fn check_pack(
    shape: FieldShape,
    side: u32,
    backward: usize,
    forward: usize,
    xs: usize,
    ys: usize,
) -> Result<(), Refusal>
    ensures { number_of result ≡ pack_number shape side backward forward xs ys }
{
    record::checks::check_sets(shape, backward, forward)?;
    let cells = record::shape::plane_size(shape);
    record::checks::check_lengths(xs, cells, ys, cells)?;
    record::checks::check_side(side)
}

// The planes of one side's set. Refused, nothing is written.
pub fn pack<'a>(
    shape: FieldShape,
    side: u32,
    backward: &'a [u8],
    forward: &'a [u8],
    xs: &mut [u16],
    ys: &mut [u16],
) -> Result<(), Refusal>
    ensures { packed (number_of result) backward.now forward.now xs.new ys.new
        ≡ pack_of shape side backward.now forward.now (planes xs.old ys.old) }
{
    check_pack(
        shape,
        side,
        backward.len(),
        forward.len(),
        xs.len(),
        ys.len(),
    )?;
    let set = record::entry::set(shape, side, backward, forward);
    fill_planes(shape, set, xs, ys);
    Ok(())
}
