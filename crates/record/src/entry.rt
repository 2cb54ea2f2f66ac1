// The 8 bytes of an entry, and one of two sets (paper 01, 'Entries and update').
ghost use Rattle.std.specs.Prelude.{◌≡◌, ◌+◌, ◌*◌, ◌≤◌, length};
ghost use Rattle.std.specs.Int.{w16};
ghost use Rattle.std.proofs.Common.{of_z};
ghost use Rattle.arith.specs.Splice.{splice};
ghost use Rattle.record.specs.Bytes.{pair_bytes};
ghost use Rattle.record.specs.Entries.{entry_at, with_entry, Holds, side_accepted, side_set};
ghost use Rattle.record.specs.Shape.{set_size};
ghost use Rattle.record.specs.Shape.Laws.{Accepted};

use crate::shape::FieldShape;

// A block's vector, its sum of absolute differences and its luma.
#[derive(Clone, Copy)]
pub struct BlockVector {
    pub x: i16,
    pub y: i16,
    pub sad: i32,
    pub luma: u8,
}

// The x of entry i.
pub fn x_at(set: &[u8], i: usize) -> i16
    requires { 8 * i + 8 ≤ length set.now }
    ensures { result ≡ (entry_at set.now i).x }
{
    crate::fields::i16_at(set, 8 * i + 2)
}

// The y of entry i.
pub fn y_at(set: &[u8], i: usize) -> i16
    requires { 8 * i + 8 ≤ length set.now }
    ensures { result ≡ (entry_at set.now i).y }
{
    crate::fields::i16_at(set, 8 * i)
}

// The sad of entry i, 24 bits.
pub fn sad_at(set: &[u8], i: usize) -> i32
    requires { 8 * i + 8 ≤ length set.now }
    ensures { result ≡ (entry_at set.now i).sad }
{
    crate::fields::u24_at(set, 8 * i + 4) as i32
}

// The luma of entry i.
pub fn luma_at(set: &[u8], i: usize) -> u8
    requires { 8 * i + 8 ≤ length set.now }
    ensures { result ≡ (entry_at set.now i).luma }
{
    set[8 * i + 7]
}

// Entry i of a set.
pub fn read(set: &[u8], i: usize) -> BlockVector
    requires { 8 * i + 8 ≤ length set.now }
    ensures { result ≡ entry_at set.now i }
{
    BlockVector {
        x: x_at(set, i),
        y: y_at(set, i),
        sad: sad_at(set, i),
        luma: luma_at(set, i),
    }
}

// Two's complement of 16 bits.
fn bits16(x: i16) -> u32
    ensures { (result ≡ of_z w16 x) × (result ≤ 65535) }
{
    u32::from(x.cast_unsigned())
}

// Writes the 8 bytes of v as entry i, and nothing else.
pub fn write(set: &mut [u8], i: usize, v: BlockVector)
    requires { (8 * i + 8 ≤ length set.old) × Holds v }
    ensures { set.new ≡ with_entry set.old i v }
{
    let packed = bits16(v.y) + 65536 * bits16(v.x);
    let sad = v.sad as u32;
    let extra = sad + 16777216 * crate::fields::wide(v.luma);
    write_words(set, i, packed, extra);
}

// The same of its two words: y and x, and sad with luma.
pub fn write_words(set: &mut [u8], i: usize, vector: u32, extra: u32)
    requires { 8 * i + 8 ≤ length set.old }
    ensures { set.new ≡ splice (8 * i) (pair_bytes vector extra) set.old }
{
    let at = 8 * i;
    crate::fields::put_u32(set, at, vector);
    crate::fields::put_u32(set, at + 4, extra);
}

// 1 backward, 2 forward.
pub fn is_side(side: u32) -> bool
    ensures { result ≡ side_accepted side }
{
    side == 1 || side == 2
}

// The part of the caller's backward set (side 1) or forward set (side 2) that holds its n entries: handed back, not copied.
pub fn set<'a>(shape: FieldShape, side: u32, backward: &'a [u8], forward: &'a [u8]) -> &'a [u8]
    requires { Accepted shape × (set_size shape ≤ length backward.now) × (set_size shape ≤ length forward.now) }
    ensures { (result.now ≡ side_set shape side backward.now forward.now) × (length result.now ≡ set_size shape) }
{
    let size = crate::shape::set_size(shape);
    if side == 1 {
        return &backward[..size];
    }
    &forward[..size]
}
