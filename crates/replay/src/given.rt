// What a case gives to a call: side, limits, shape, scale, and the two sets, whose parts repeat; and the room for the largest case.
ghost use Rattle.std.specs.Prelude.{◌<◌, ◌≤◌, IfOk, vec_len};

use crate::answers::{part, u32_at};
use crate::failure::{Failure, ensure};
use maps::map::SceneLimits;
use record::shape::FieldShape;
use std::alloc::Global;

// The most bytes of a set. The room for a case stands on the heap: a local array as long as this is dear to prove.
const SET: usize = 530000;

// The most cells of a grid or a plane; averages are fewer.
pub const CELLS: usize = 68000;

// The bytes of so many cells.
pub const BYTES: usize = 272000;

// The numbers of a case, its first part.
#[derive(Clone, Copy)]
pub struct Numbers<'a> {
    bytes: &'a [u8],
}

impl<'a> Numbers<'a> {
    // Those of a case that has so many.
    pub fn of(case: &'a [u8], count: u8) -> Result<Numbers<'a>, Failure> {
        let bytes = part(case, 0);
        ensure(bytes.len() == 4 * usize::from(count))?;
        Ok(Numbers { bytes })
    }

    fn bits(self, k: u8) -> u32 {
        u32_at(self.bytes, 4 * usize::from(k))
    }

    pub fn at(self, k: u8) -> i32 {
        self.bits(k).cast_signed()
    }

    pub fn size(self, k: u8) -> usize
        ensures { result < 4294967296 }
    {
        self.bits(k) as usize
    }

    // The first 11.
    pub fn shape(self) -> FieldShape {
        FieldShape {
            flags: self.at(0),
            block_w: self.at(1),
            block_h: self.at(2),
            pel: self.at(3),
            width: self.at(4),
            height: self.at(5),
            overlap_x: self.at(6),
            overlap_y: self.at(7),
            grid_w: self.at(8),
            grid_h: self.at(9),
            selector: self.at(10),
        }
    }

    pub fn side(self) -> u32 {
        self.bits(14)
    }

    pub fn limits(self) -> SceneLimits {
        SceneLimits {
            zero: self.at(15),
            m1: self.at(16),
            m2: self.at(17),
            scene: self.at(18),
            blocks: self.at(19),
        }
    }

    // The f64 whose bits are numbers k and k + 1, low half first; 0 for a NaN's.
    pub fn scale(self, k: u8) -> f64
        requires { k < 255 }
    {
        let low = u64::from(self.bits(k));
        let high = u64::from(self.bits(k + 1));
        let bits = low + 4294967296 * high;
        if bits % 0x8000000000000000 > 0x7FF0000000000000 {
            return 0.0;
        }
        f64::from_bits(bits)
    }
}

// Copies as many bytes as both have.
fn copy(from: &[u8], to: &mut [u8]) {
    for (byte, value) in to.iter_mut().zip(from) {
        *byte = *value;
    }
}

// Fills the space with a part that starts again where it ends: once the part stands, what is filled is copied behind itself.
fn fill_repeated(part: &[u8], space: &mut [u8]) -> Result<(), Failure> {
    ensure(!part.is_empty())?;
    copy(part, space);
    let mut filled = part.len();
    while filled < space.len() {
        let (front, rest) = space.split_at_mut(filled);
        copy(front, rest);
        filled *= 2;
    }
    Ok(())
}

// So much room, its first `size` bytes a part that repeats, and 7s behind them.
pub fn repeated(alloc: Global, part: &[u8], size: usize, room: usize) -> Result<Vec<u8>, Failure>
    ensures { IfOk result (λ space. size ≤ vec_len space) }
{
    let mut space = vec![in alloc; 7u8; room]?;
    ensure(size <= room)?;
    fill_repeated(part, &mut space[..size])?;
    Ok(space)
}

// The low half of a number.
fn half(number: u32) -> u16 {
    (number % 65536) as u16
}

// Adds to a number of two bytes, modulo 2^16.
fn add16(bytes: &mut [u8; 2], amount: u16) {
    *bytes = u16::from_le_bytes(*bytes)
        .wrapping_add(amount)
        .to_le_bytes();
}

// Adds `slope_x` for each column to a set's x, and `slope_y` for each row to its y; without columns all is one row.
fn slant(set: &mut [u8], columns: usize, slope_x: u16, slope_y: u16)
    requires { columns < 4294967296 }
{
    let row_size = match columns {
        0 => usize::MAX,
        _ => 8 * columns,
    };
    let mut add_y: u16 = 0;
    for row in set.chunks_mut(row_size) {
        let mut add_x: u16 = 0;
        for entry in row.chunks_exact_mut(8) {
            if let Some((y, rest)) = entry.split_first_chunk_mut() {
                add16(y, add_y);
                if let Some(x) = rest.first_chunk_mut() {
                    add16(x, add_x);
                }
            }
            add_x = add_x.wrapping_add(slope_x);
        }
        add_y = add_y.wrapping_add(slope_y);
    }
}

// The room for a set, filled with a part and slanted where the case says so.
fn set_from(alloc: Global, part: &[u8], numbers: Numbers) -> Result<Vec<u8>, Failure> {
    let size = 8 * numbers.size(11);
    let mut set = repeated(alloc, part, size, SET)?;
    let slope_x = half(numbers.bits(12));
    let slope_y = half(numbers.bits(13));
    if slope_x != 0 || slope_y != 0 {
        slant(&mut set[..size], numbers.size(8), slope_x, slope_y);
    }
    Ok(set)
}

// Both sets of a case, backward and forward, from its parts 1 and 2.
pub fn sets(alloc: Global, case: &[u8], numbers: Numbers) -> Result<(Vec<u8>, Vec<u8>), Failure> {
    let backward = set_from(alloc, part(case, 1), numbers)?;
    let forward = set_from(alloc, part(case, 2), numbers)?;
    Ok((backward, forward))
}

// The averages of a case, from its part 3.
pub fn averages(alloc: Global, case: &[u8], numbers: Numbers) -> Result<Vec<u8>, Failure> {
    repeated(alloc, part(case, 3), numbers.size(11), CELLS)
}
