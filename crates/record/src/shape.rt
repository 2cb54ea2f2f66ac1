// The shape of a vector field: its limits, counts and sizes (paper 01, 'Record and shape').
ghost use Rattle.std.specs.Prelude.{◌≡◌};
ghost use Rattle.arith.specs.Integers.{up};
ghost use Rattle.record.specs.Refusals.{number_of};
ghost use Rattle.record.specs.Shape.{shape_of, axis_accepted, shape_number, blocks_of, packed_of, width_of, height_of, set_size, grid_size, plane_size};
ghost use Rattle.record.specs.Shape.Laws.{Axis, Accepted};

use crate::data::VectorData;
use crate::refusal::Refusal;

// The paper's shape: the record's fields but delta; `width` and `height` are the picture's.
#[repr(C)]
#[derive(Clone, Copy, Default)]
pub struct FieldShape {
    pub flags: i32,
    pub block_w: i32,
    pub block_h: i32,
    pub pel: i32,
    pub width: i32,
    pub height: i32,
    pub overlap_x: i32,
    pub overlap_y: i32,
    pub grid_w: i32,
    pub grid_h: i32,
    pub selector: i32,
}

// The shape that a record gives.
impl From<VectorData> for FieldShape {
    ghost from_gives = { λ «data» shape. shape ≡ shape_of «data» };

    #[tactic(auto, unfolding(crate::specs::Shape::shape_of))]
    fn from(data: VectorData) -> FieldShape {
        FieldShape {
            flags: data.flags,
            block_w: data.block.width,
            block_h: data.block.height,
            pel: data.marker,
            width: data.shape.width,
            height: data.shape.height,
            overlap_x: data.overlap_x,
            overlap_y: data.overlap_y,
            grid_w: data.grid.width,
            grid_h: data.grid.height,
            selector: data.selector,
        }
    }
}

// One axis of a shape is within its limits.
fn axis_accepted(block: i32, overlap: i32, grid: i32, picture: i32) -> bool
    ensures { result ≡ axis_accepted block overlap grid picture }
{
    if !arith::in_range(1, 256, block) {
        return false;
    }
    if !arith::in_range(0, block - 1, overlap) {
        return false;
    }
    if !arith::in_range(1, 1024, grid) {
        return false;
    }
    arith::in_range(1, 65535, picture)
}

// A shape is within its limits, or refused by 2.
pub fn check_shape(shape: FieldShape) -> Result<(), Refusal>
    ensures { number_of result ≡ shape_number shape }
{
    if !axis_accepted(shape.block_w, shape.overlap_x, shape.grid_w, shape.width) {
        return Err(Refusal::Shape);
    }
    if !axis_accepted(shape.block_h, shape.overlap_y, shape.grid_h, shape.height) {
        return Err(Refusal::Shape);
    }
    if !arith::in_range(1, 64, shape.pel) {
        return Err(Refusal::Shape);
    }
    Ok(())
}

// The columns of blocks.
pub fn columns(shape: FieldShape) -> usize
    requires { Accepted shape }
    ensures { result ≡ up shape.grid_w }
{
    shape.grid_w as usize
}

// The rows of blocks.
pub fn rows(shape: FieldShape) -> usize
    requires { Accepted shape }
    ensures { result ≡ up shape.grid_h }
{
    shape.grid_h as usize
}

// The count of blocks.
pub fn blocks(shape: FieldShape) -> usize
    requires { Accepted shape }
    ensures { result ≡ blocks_of shape }
{
    columns(shape) * rows(shape)
}

// W or H of one axis: the grid's side, and one more where the blocks leave a part of the picture uncovered.
fn packed(block: i32, overlap: i32, grid: i32, picture: i32) -> usize
    requires { Axis block overlap grid picture }
    ensures { result ≡ packed_of block overlap grid picture }
{
    let span = (block - overlap) * grid + overlap;
    let side = grid as usize;
    if span < picture { side + 1 } else { side }
}

// W, the width of planes and masks.
pub fn packed_width(shape: FieldShape) -> usize
    requires { Accepted shape }
    ensures { result ≡ width_of shape }
{
    packed(shape.block_w, shape.overlap_x, shape.grid_w, shape.width)
}

// H, their height.
pub fn packed_height(shape: FieldShape) -> usize
    requires { Accepted shape }
    ensures { result ≡ height_of shape }
{
    packed(shape.block_h, shape.overlap_y, shape.grid_h, shape.height)
}

// The bytes of a set.
pub fn set_size(shape: FieldShape) -> usize
    requires { Accepted shape }
    ensures { result ≡ set_size shape }
{
    8 * blocks(shape)
}

// The cells of a grid, trash included.
pub fn grid_size(shape: FieldShape) -> usize
    requires { Accepted shape }
    ensures { result ≡ grid_size shape }
{
    let w = packed_width(shape) + 2;
    let h = packed_height(shape) + 2;
    w * h + 1
}

// The cells of a plane or a mask.
pub fn plane_size(shape: FieldShape) -> usize
    requires { Accepted shape }
    ensures { result ≡ plane_size shape }
{
    let w = packed_width(shape);
    let h = packed_height(shape);
    w * h
}
