// What the calls are given: the table's shape and the two sets.
use record::shape::FieldShape;

// Block 8 by 8, no overlap, pel 1, grid 3 by 3, picture 24 by 24.
pub const SHAPE: FieldShape = FieldShape {
    flags: 0,
    block_w: 8,
    block_h: 8,
    pel: 1,
    width: 24,
    height: 24,
    overlap_x: 0,
    overlap_y: 0,
    grid_w: 3,
    grid_h: 3,
    selector: 0,
};

// The other side's set in every call: read in place of the backward one, it changes a line of each of K1 to K10.
pub const FORWARD: [u8; 72] = [1; 72];

// A block's vector and its sad, whose low 24 bits count. Its luma is 0.
#[derive(Clone, Copy)]
pub struct Entry {
    pub x: i16,
    pub y: i16,
    pub sad: u32,
}

impl Entry {
    pub const ZERO: Entry = Entry { x: 0, y: 0, sad: 0 };

    // y, x, sad and luma, each little-endian.
    fn bytes(self) -> [u8; 8] {
        let [y0, y1] = self.y.to_le_bytes();
        let [x0, x1] = self.x.to_le_bytes();
        let [s0, s1, s2, _] = self.sad.to_le_bytes();
        [y0, y1, x0, x1, s0, s1, s2, 0]
    }
}

// The set whose first blocks have those entries, and the others zeros.
pub fn set(first: &[Entry]) -> [u8; 72] {
    let mut set = [0u8; 72];
    for (place, entry) in set.as_chunks_mut::<8>().0.iter_mut().zip(first) {
        *place = entry.bytes();
    }
    set
}
