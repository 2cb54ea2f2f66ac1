// The bytes that a row lends.

// Puts i32s from `at` on, little-endian: as many as fit.
pub fn put(bytes: &mut [u8], at: usize, values: &[i32]) {
    if let Some(places) = bytes.get_mut(at..) {
        for (place, value) in places.as_chunks_mut::<4>().0.iter_mut().zip(values) {
            *place = value.to_le_bytes();
        }
    }
}

// Makes byte i be i, modulo 256.
pub fn count_up(bytes: &mut [u8]) {
    for (i, byte) in bytes.iter_mut().enumerate() {
        *byte = (i % 256) as u8;
    }
}

// The sum of the bytes, modulo 2^32.
pub fn sum(bytes: &[u8]) -> u32 {
    bytes
        .iter()
        .fold(0u32, |sum, byte| sum.wrapping_add(u32::from(*byte)))
}
