// The file format of recorded answers (host/README.md): pieces, numbers, and what was found held beside an answer.
ghost use Rattle.std.specs.Prelude.{◌<◌};

use crate::failure::{Failure, ensure};

// Longer answers are kept by their digest alone.
const WHOLE: usize = 512;

// The u32 at `at`, little-endian, or 0 where the bytes end before it: read here, since record's own reading is compared. Every caller of an Option would take 0.
pub fn u32_at(bytes: &[u8], at: usize) -> u32 {
    let Some(rest) = bytes.get(at..) else {
        return 0;
    };
    match rest.first_chunk::<4>() {
        Some(four) => u32::from_le_bytes(*four),
        None => 0,
    }
}

// The same, as a size.
pub fn size_at(bytes: &[u8], at: usize) -> usize
    ensures { result < 4294967296 }
{
    u32_at(bytes, at) as usize
}

// The piece in front, a u32 size and that many bytes: its bytes, and what follows them.
// Nothing follows a piece that is cut, and its bytes are what there is of them.
pub fn piece(bytes: &[u8]) -> (&[u8], Option<&[u8]>) {
    let Some((size, rest)) = bytes.split_first_chunk::<4>() else {
        return (&[], None);
    };
    let size = u32::from_le_bytes(*size) as usize;
    match rest.split_at_checked(size) {
        Some((body, after)) => (body, Some(after)),
        None => (rest, None),
    }
}

// Part k of a case.
pub fn part(case: &[u8], k: u8) -> &[u8] {
    let mut rest = case;
    for _ in 0..k {
        let (_, after) = piece(rest);
        rest = after.unwrap_or(&[]);
    }
    let (body, _) = piece(rest);
    body
}

// FNV-1a, 32 bits.
fn digest(bytes: &[u8]) -> u32 {
    bytes.iter().fold(0x811C9DC5, |hash: u32, byte| {
        (hash ^ u32::from(*byte)).wrapping_mul(16777619)
    })
}

// What was found starts with the answer whose size and digest, and whose bytes, two parts of a case record.
fn is_answer(sum: &[u8; 8], whole: &[u8], found: &[u8]) -> bool {
    match found.get(..size_at(sum, 0)) {
        Some(bytes) => digest(bytes) == u32_at(sum, 4) && (bytes.len() > WHOLE || bytes == whole),
        None => false,
    }
}

// What was found starts with the answer that parts k and k + 1 of a case record.
pub fn check_bytes(case: &[u8], k: u8, found: &[u8]) -> Result<(), Failure>
    requires { k < 255 }
{
    let sum = part(case, k).as_array().ok_or(Failure::Differs)?;
    ensure(is_answer(sum, part(case, k + 1), found))
}

// The elements found, of so many bytes each, are those that parts k and k + 1 of a case record; `room` takes their bytes.
pub fn check_elements<T: Copy, F: Fn(T) -> u32>(
    case: &[u8],
    k: u8,
    found: &[T],
    size: usize,
    bits: F,
    room: &mut [u8],
) -> Result<(), Failure>
    requires place { k < 255 }
    requires sized { 0 < size }
    requires callable { F.IsAlwaysCallable bits }
{
    let count = size_at(part(case, k), 0) / size;
    let elements = found.get(..count).ok_or(Failure::Differs)?;
    for (bytes, element) in room.chunks_exact_mut(size).zip(elements) {
        // By reference: over an array by value a large plane is checked in 1.6 times the time.
        for (byte, value) in bytes.iter_mut().zip(&bits(*element).to_le_bytes()) {
            *byte = *value;
        }
    }
    check_bytes(case, k, room)
}
