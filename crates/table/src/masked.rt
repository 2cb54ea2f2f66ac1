// K1, K2, K3 and K10: what the masks and the scratch hold.
use crate::given::{Entry, FORWARD, SHAPE, set};
use record::refusal;
use std::io;

// What the cover mask's call leaves.
#[derive(Drop)]
struct Covered {
    number: u32,
    grid: [i32; 26],
    mask: [u8; 9],
}

// The call with cover 100, on a backward set whose first block has that entry, at a time.
fn cover(first: Entry, time: i32) -> Covered {
    let mut grid = [7i32; 26];
    let mut mask = [7u8; 9];
    let outcome = masks::cover::cover_mask(
        SHAPE,
        1,
        &set(&[first]),
        &FORWARD,
        100,
        1.0,
        time,
        &mut grid,
        &mut mask,
    );
    Covered {
        number: refusal::number(outcome),
        grid,
        mask,
    }
}

// K1: zero vectors; of any time, T 256.
pub fn k1(rt: &impl Print) -> io::Result<()> {
    let Covered { number, mask, .. } = cover(Entry::ZERO, 256);
    let [a, b, c, d, e, f, g, h, i] = mask;
    println!(rt; "K1  number {number}, mask {a} {b} {c} / {d} {e} {f} / {g} {h} {i}")
}

// The grid after block 0 alone has moved, by a vector of y 0: its own cell, the one on its right, trash.
// Every other block holds its own cell with 64.
fn moved(rt: &impl Print, name: &str, time: i32, x: i16) -> io::Result<()> {
    let Covered { number, grid, .. } = cover(Entry { x, ..Entry::ZERO }, time);
    let (own, right, trash) = (grid[6], grid[7], grid[25]);
    println!(rt; "{name}  number {number}, own cell {own}, right {right}, trash {trash}")
}

// K2: T 128, x -3.
pub fn k2(rt: &impl Print) -> io::Result<()> {
    moved(rt, "K2", 128, -3)
}

// K3: T 256, x 4.
pub fn k3(rt: &impl Print) -> io::Result<()> {
    moved(rt, "K3", 256, 4)
}

// K10: SAD scale 1, sads 8 and 16.
pub fn k10(rt: &impl Print) -> io::Result<()> {
    let sads = [8, 16].map(|sad| Entry { sad, ..Entry::ZERO });
    let mut mask = [7u8; 9];
    let outcome = masks::sad::sad_mask(SHAPE, 1, &set(&sads), &FORWARD, 100, 1.0, &mut mask);
    let number = refusal::number(outcome);
    println!(rt;
        "K10 number {number}, sad 8 {}, sad 16 {}",
        mask[0], mask[1]
    )
}
