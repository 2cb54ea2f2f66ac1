// Numbers in bytes, little endian, and zeros.
ghost use Rattle.std.specs.Prelude.{◌≡◌, ◌+◌, ◌≤◌, length, replicate};
ghost use Rattle.std.specs.Int.{w16};
ghost use Rattle.std.proofs.Common.{to_z};
ghost use Rattle.arith.specs.Splice.{over, splice};
ghost use Rattle.record.specs.Bytes.{u16_at, u24_at, u32_at, u32_bytes, i16_at, i32_at, read_at};

// A byte, as a number of 32 bits.
pub fn wide(x: u8) -> u32
    ensures { (result ≡ x) × (result ≤ 255) }
{
    u32::from(x)
}

// Two bytes.
pub fn u16_at(s: &[u8], at: usize) -> u32
    requires { at + 2 ≤ length s.now }
    ensures { (result ≡ u16_at s.now at) × (result ≤ 65535) }
{
    wide(s[at]) + 256 * wide(s[at + 1])
}

// Three bytes.
pub fn u24_at(s: &[u8], at: usize) -> u32
    requires { at + 3 ≤ length s.now }
    ensures { (result ≡ u24_at s.now at) × (result ≤ 16777215) }
{
    u16_at(s, at) + 65536 * wide(s[at + 2])
}

// Four bytes.
pub fn u32_at(s: &[u8], at: usize) -> u32
    requires { at + 4 ≤ length s.now }
    ensures { result ≡ u32_at s.now at }
{
    u24_at(s, at) + 16777216 * wide(s[at + 3])
}

// 16 bits, read as signed.
fn i16_of(bits: u32) -> i16
    requires { bits ≤ 65535 }
    ensures { result ≡ to_z w16 bits }
{
    (bits as u16).cast_signed()
}

// Two bytes, read as signed.
pub fn i16_at(s: &[u8], at: usize) -> i16
    requires { at + 2 ≤ length s.now }
    ensures { result ≡ i16_at s.now at }
{
    i16_of(u16_at(s, at))
}

// Four bytes, read as signed.
pub fn i32_at(s: &[u8], at: usize) -> i32
    requires { at + 4 ≤ length s.now }
    ensures { result ≡ i32_at s.now at }
{
    arith::from_bits(u32_at(s, at))
}

// Writes the four bytes of a number, and nothing else.
pub fn put_u32(s: &mut [u8], at: usize, n: u32)
    requires { at + 4 ≤ length s.old }
    ensures { s.new ≡ splice at (u32_bytes n) s.old }
{
    s[at] = (n % 256) as u8;
    s[at + 1] = (n / 256 % 256) as u8;
    s[at + 2] = (n / 65536 % 256) as u8;
    s[at + 3] = (n / 16777216) as u8;
}

// Zeroes the first n bytes of a part.
pub fn zero(part: &mut [u8], n: usize)
    requires { n ≤ length part.old }
    ensures { part.new ≡ over (replicate n 0) part.old }
{
    part[..n].fill(0);
}

// The i32 of the four bytes from `offset` on, if they are all there.
pub fn read_i32_slice(data: &[u8], offset: usize) -> Option<i32>
    ensures { result ≡ read_at «data».now offset }
{
    if data.len() < 4 || data.len() - 4 < offset {
        return None;
    }
    Some(i32_at(data, offset))
}
