// The limits of `update` on a grid of 3 by 2 (paper 01, 'Entries and update'): n is 6, a set has 48 bytes and a half
// starts with i32 13, so the backward half ends at 116 and the forward half at 168. Each set is lent with 8 surplus bytes.
// Behind a row's number come the sums of the bytes after the call: the backward set's 48, the forward set's 48, the surplus.
use crate::bytes::{count_up, put, sum};
use record::refusal::{Refusal, number};
use record::shape::FieldShape;
use record::update::update;
use std::io;

// A name, the flags, the payload's length, and the i32 that stands at an offset in it.
const PAYLOADS: [(&str, i32, usize, usize, i32); 39] = [
    ("head alone", 0, 12, 0, 16),
    ("head cut", 0, 11, 0, 16),
    ("no payload", 0, 0, 0, 16),
    ("no 16 at 0", 0, 12, 0, 15),
    ("no 160 at 4", 0, 12, 4, 161),
    ("other flags at 8", 0, 12, 8, 1),
    ("halves not flagged", 0, 168, 0, 16),
    ("backward", 1, 116, 64, 13),
    ("backward cut", 1, 115, 64, 13),
    ("backward count cut", 1, 67, 64, 13),
    ("backward count low", 1, 116, 64, 12),
    ("backward count high", 1, 116, 64, 14),
    ("forward not flagged", 1, 168, 116, 0),
    ("forward", 2, 168, 116, 13),
    ("forward cut", 2, 167, 116, 13),
    ("forward count cut", 2, 119, 116, 13),
    ("forward count low", 2, 168, 116, 12),
    ("forward count high", 2, 168, 116, 14),
    ("backward not flagged", 2, 168, 64, 0),
    ("forward does not move", 2, 116, 64, 13),
    ("both", 3, 168, 116, 13),
    ("both and surplus", 3, 176, 116, 13),
    ("both, forward cut", 3, 167, 116, 13),
    ("both, forward missing", 3, 116, 64, 13),
    ("both, forward count", 3, 168, 116, 12),
    ("both, backward cut", 3, 115, 64, 13),
    ("both, backward count", 3, 168, 64, 12),
    ("4 before 5 and 6", 3, 115, 0, 15),
    ("bits 0 and 1", -1, 168, 116, 13),
    ("bits 0 and 1, cut", -1, 167, 116, 13),
    ("bits 0 and 1 alone", -1, 168, 8, 3),
    ("bit 1", -2, 168, 116, 13),
    ("bit 1, cut", -2, 167, 116, 13),
    ("bit 0", -3, 116, 64, 13),
    ("bit 0, cut", -3, 115, 64, 13),
    ("neither", -4, 12, 0, 16),
    ("neither", 4, 12, 0, 16),
    ("neither", -2147483648, 12, 0, 16),
    ("bits 0 and 1", 2147483647, 168, 116, 13),
];

// A name, the grid's width, and how much is lent of the backward set, the forward set and the payload.
const SETS: [(&str, i32, usize, usize, usize); 10] = [
    ("sets exact", 3, 48, 48, 168),
    ("backward short", 3, 47, 56, 168),
    ("forward short", 3, 56, 47, 168),
    ("3 before 4", 3, 47, 56, 11),
    ("another n", 2, 56, 56, 168),
    ("no room for n", 4, 56, 56, 168),
    ("bad shape", 0, 56, 56, 168),
    ("2 before 3", 1025, 56, 56, 168),
    ("2 before 4", 0, 56, 56, 11),
    ("2 before 3 and 4", 1025, 0, 0, 0),
];

fn shape(grid_w: i32, flags: i32) -> FieldShape {
    FieldShape {
        flags,
        block_w: 8,
        block_h: 8,
        pel: 1,
        width: 24,
        height: 16,
        overlap_x: 0,
        overlap_y: 0,
        grid_w,
        grid_h: 2,
        selector: 0,
    }
}

// How much is lent of the payload and of each set.
#[derive(Clone, Copy)]
struct Lent {
    payload: usize,
    backward: usize,
    forward: usize,
}

// The bytes of one call.
#[derive(Drop)]
struct Buffers {
    payload: [u8; 176],
    backward: [u8; 56],
    forward: [u8; 56],
}

impl Buffers {
    // A whole payload: byte i is i but for the head and the two counts. The backward half's bytes are 68 to 115, whose
    // sum is 4392, the forward half's 120 to 167, whose sum is 6888. The backward set's bytes are 7 and the forward
    // set's 9: the sums are 336, 432 and, of 8 and 8 surplus bytes, 128.
    fn new(flags: i32) -> Self {
        let mut payload = [0u8; 176];
        count_up(&mut payload);
        put(&mut payload, 0, &[16, 160, flags]);
        put(&mut payload, 64, &[13]);
        put(&mut payload, 116, &[13]);
        Buffers {
            payload,
            backward: [7; 56],
            forward: [9; 56],
        }
    }

    // The call's outcome, or None where a buffer is shorter than what is to be lent.
    fn update(&mut self, shape: FieldShape, lent: Lent) -> Option<Result<(), Refusal>> {
        let payload = self.payload.get(..lent.payload)?;
        let backward = self.backward.get_mut(..lent.backward)?;
        let forward = self.forward.get_mut(..lent.forward)?;
        Some(update(shape, payload, backward, forward))
    }

    fn print_sums(&self, rt: &impl Print) -> io::Result<()> {
        let backward = sum(&self.backward[..48]);
        let forward = sum(&self.forward[..48]);
        let surplus = sum(&self.backward[48..]).wrapping_add(sum(&self.forward[48..]));
        println!(rt; "{backward:>10}{forward:>9}{surplus:>9}")
    }
}

// Runs the call with i32 `value` at `at` of the payload.
fn run(rt: &impl Print, shape: FieldShape, lent: Lent, at: usize, value: i32) -> io::Result<()> {
    let mut buffers = Buffers::new(shape.flags);
    put(&mut buffers.payload, at, &[value]);
    if let Some(outcome) = buffers.update(shape, lent) {
        print!(rt; "{:>8}", number(outcome))?;
    }
    buffers.print_sums(rt)
}

fn payloads(rt: &impl Print) -> io::Result<()> {
    println!(rt;
        "\nupdate                        flags  bytes   at  i32  number  backward  forward  surplus"
    )?;
    for (name, flags, payload, at, value) in PAYLOADS {
        print!(rt; "{name:<22}{flags:>13}{payload:>7}{at:>5}{value:>5}")?;
        let lent = Lent {
            payload,
            backward: 56,
            forward: 56,
        };
        run(rt, shape(3, flags), lent, at, value)?;
    }
    Ok(())
}

fn sets(rt: &impl Print) -> io::Result<()> {
    println!(rt;
        "\nupdate             grid  backward  forward  payload  number  backward  forward  surplus"
    )?;
    for (name, grid_w, backward, forward, payload) in SETS {
        print!(rt; "{name:<17}{grid_w:>6}{backward:>10}{forward:>9}{payload:>9}")?;
        let lent = Lent {
            payload,
            backward,
            forward,
        };
        run(rt, shape(grid_w, 3), lent, 0, 16)?;
    }
    Ok(())
}

fn print_bytes(rt: &impl Print, bytes: &[u8]) -> io::Result<()> {
    for byte in bytes {
        print!(rt; "{byte:>4}")?;
    }
    Ok(())
}

// Every byte of both sets after a whole payload, 8 to a row; the last row's are surplus.
fn entries(rt: &impl Print) -> io::Result<()> {
    let Buffers {
        payload,
        mut backward,
        mut forward,
    } = Buffers::new(3);
    if update(shape(3, 3), &payload, &mut backward, &mut forward).is_err() {
        return println!(rt; "refused");
    }
    println!(rt; "\nat  backward set                     forward set")?;
    let rows = backward.chunks_exact(8).zip(forward.chunks_exact(8));
    for (at, (backward, forward)) in (0..56).step_by(8).zip(rows) {
        print!(rt; "{at:>2}")?;
        print_bytes(rt, backward)?;
        print!(rt; "  ")?;
        print_bytes(rt, forward)?;
        println!(rt; "")?;
    }
    Ok(())
}

pub fn rows(rt: &impl Print) -> io::Result<()> {
    payloads(rt)?;
    sets(rt)?;
    entries(rt)
}
