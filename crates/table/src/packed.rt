// K4, K5 and K6: what the planes hold at column 2, where p is 16.
use crate::given::{Entry, FORWARD, SHAPE, set};
use record::refusal;
use record::shape::FieldShape;
use std::io;

// Words, the picture's width, the selector, and the x and y of block 2.
const ROWS: [(&str, i32, i32, i16, i16); 8] = [
    ("K4  width 24, x 5", 24, 0, 5, 0),
    ("K4  width 24, x -20", 24, 0, -20, 0),
    ("K5  width 20, x -3", 20, 0, -3, 0),
    ("K5  width 20, x -4", 20, 0, -4, 0),
    ("K6  x 1024, y 5", 24, 0, 1024, 5),
    ("K6  y -1024, x -5", 24, 0, -5, -1024),
    ("K6  selector 1, x 1023", 24, 1, 1023, 0),
    ("K6  selector 1, x -1023", 24, 1, -1023, 0),
];

pub fn rows(rt: &impl Print) -> io::Result<()> {
    for (words, width, selector, x, y) in ROWS {
        let shape = FieldShape {
            width,
            selector,
            ..SHAPE
        };
        let set = set(&[Entry::ZERO, Entry::ZERO, Entry { x, y, sad: 0 }]);
        let mut xs = [7u16; 9];
        let mut ys = [7u16; 9];
        let outcome = maps::planes::pack(shape, 1, &set, &FORWARD, &mut xs, &mut ys);
        let number = refusal::number(outcome);
        println!(rt; "{words}, number {number}, planes {} {}", xs[2], ys[2])?;
    }
    Ok(())
}
