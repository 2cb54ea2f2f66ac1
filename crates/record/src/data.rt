// The vector record (paper 01, 'Record and shape').
ghost use Rattle.std.specs.Prelude.{◌≡◌, ◌+◌, ◌≤◌, length};
ghost use Rattle.record.specs.Bytes.{i32_at};
ghost use Rattle.record.specs.Data.{fields_of, reading_of, vector_data_of};

use crate::fields::i32_at;
use crate::refusal::Refusal;

// A width and a height: the blocks', the picture's or the grid's.
#[repr(C)]
#[derive(Clone, Copy, Default)]
pub struct VectorShape {
    pub width: i32,
    pub height: i32,
}

// The paper's record; `marker` is its pel, `shape` its picture sides.
#[repr(C)]
#[derive(Clone, Copy, Default)]
pub struct VectorData {
    pub flags: i32,
    pub block: VectorShape,
    pub shape: VectorShape,
    pub grid: VectorShape,
    pub marker: i32,
    pub selector: i32,
    pub delta: i32,
    pub overlap_x: i32,
    pub overlap_y: i32,
}

const VECTOR_MAGIC: i32 = 0xA0;

const FLAGS: usize = 0x04;

const BLOCK_WIDTH: usize = 0x08;

const BLOCK_HEIGHT: usize = 0x0C;

const MARKER: usize = 0x10;

const WIDTH: usize = 0x1C;

const HEIGHT: usize = 0x20;

const OVERLAP_X: usize = 0x24;

const OVERLAP_Y: usize = 0x28;

const GRID_WIDTH: usize = 0x2C;

const GRID_HEIGHT: usize = 0x30;

const SELECTOR: usize = 0x34;

const DELTA: usize = 0x38;

pub const VECTOR_DATA_LEN: usize = 60;

// A width and a height, each an i32 at its place.
fn pair(data: &[u8], width: usize, height: usize) -> VectorShape
    requires { (width + 4 ≤ length «data».now) × (height + 4 ≤ length «data».now) }
    ensures { (result.width ≡ i32_at «data».now width) × (result.height ≡ i32_at «data».now height) }
{
    VectorShape {
        width: i32_at(data, width),
        height: i32_at(data, height),
    }
}

// The fields of a record that is long enough.
fn fields_of(data: &[u8]) -> VectorData
    requires { 60 ≤ length «data».now }
    ensures { result ≡ fields_of «data».now }
{
    let block = pair(data, BLOCK_WIDTH, BLOCK_HEIGHT);
    let shape = pair(data, WIDTH, HEIGHT);
    let grid = pair(data, GRID_WIDTH, GRID_HEIGHT);
    let overlap = pair(data, OVERLAP_X, OVERLAP_Y);
    VectorData {
        flags: i32_at(data, FLAGS),
        block,
        shape,
        grid,
        marker: i32_at(data, MARKER),
        selector: i32_at(data, SELECTOR),
        delta: i32_at(data, DELTA),
        overlap_x: overlap.width,
        overlap_y: overlap.height,
    }
}

// The record that stands at the start of `data`, or its refusal by 1.
pub fn vector_data(data: &[u8]) -> Result<VectorData, Refusal>
    ensures { reading_of result ≡ vector_data_of «data».now }
{
    if data.len() < VECTOR_DATA_LEN {
        return Err(Refusal::Record);
    }
    if i32_at(data, 0) != VECTOR_MAGIC {
        return Err(Refusal::Record);
    }
    Ok(fields_of(data))
}
