// The limits of `check_shape` on a record's shape: for each field one step outside, the limits, one step outside
// (paper 01, 'Record and shape').
use crate::bytes::put;
use record::data::vector_data;
use record::refusal::{Refusal, number};
use record::shape::check_shape;
use std::io;

// A field, a block's width and height, the field's offset, and four values: below the limits, the least, the most, above.
const LIMITS: [(&str, [i32; 2], usize, [i32; 4]); 13] = [
    ("block width", [16, 12], 0x08, [0, 1, 256, 257]),
    ("block height", [16, 12], 0x0C, [0, 1, 256, 257]),
    ("overlap x", [16, 12], 0x24, [-1, 0, 15, 16]),
    ("overlap y", [16, 12], 0x28, [-1, 0, 11, 12]),
    ("overlap x", [1, 12], 0x24, [-1, 0, 0, 1]),
    ("overlap y", [16, 1], 0x28, [-1, 0, 0, 1]),
    ("overlap x", [256, 12], 0x24, [-1, 0, 255, 256]),
    ("overlap y", [16, 256], 0x28, [-1, 0, 255, 256]),
    ("grid width", [16, 12], 0x2C, [0, 1, 1024, 1025]),
    ("grid height", [16, 12], 0x30, [0, 1, 1024, 1025]),
    ("picture width", [16, 12], 0x1C, [0, 1, 65535, 65536]),
    ("picture height", [16, 12], 0x20, [0, 1, 65535, 65536]),
    ("pel", [16, 12], 0x10, [0, 1, 64, 65]),
];

// A field and its offset.
const FIELDS: [(&str, usize); 11] = [
    ("block width", 0x08),
    ("block height", 0x0C),
    ("overlap x", 0x24),
    ("overlap y", 0x28),
    ("grid width", 0x2C),
    ("grid height", 0x30),
    ("picture width", 0x1C),
    ("picture height", 0x20),
    ("pel", 0x10),
    ("flags", 0x04),
    ("selector", 0x34),
];

// A record that is accepted, with blocks of those sides.
fn put_record(data: &mut [u8], [block_w, block_h]: [i32; 2]) {
    // 160, flags, block width, block height
    put(data, 0x00, &[160, 0, block_w, block_h]);
    // pel, no field, no field, picture width
    put(data, 0x10, &[1, 0, 0, 64]);
    // picture height, overlap x, overlap y, grid width
    put(data, 0x20, &[64, 0, 0, 4]);
    // grid height, selector, delta, behind the record
    put(data, 0x30, &[4, 0, 0, 0]);
}

// Whether that record's shape is accepted with another i32 at `at`.
fn check(block: [i32; 2], at: usize, value: i32) -> Result<(), Refusal> {
    let mut data = [0u8; 64];
    put_record(&mut data, block);
    put(&mut data, at, &[value]);
    check_shape(vector_data(&data)?.into())
}

fn limits(rt: &impl Print) -> io::Result<()> {
    println!(rt; "\nshape_number           block    below  least   most  above   numbers")?;
    for (name, block, at, values) in LIMITS {
        let [width, height] = block;
        let [below, least, most, above] = values;
        print!(rt;
            "{name:<14}{width:>7} by{height:>4}{below:>9}{least:>7}{most:>7}{above:>7}      "
        )?;
        for value in values {
            print!(rt; "{:>3}", number(check(block, at, value)))?;
        }
        println!(rt; "")?;
    }
    Ok(())
}

fn ends(rt: &impl Print) -> io::Result<()> {
    println!(rt; "\nshape_number    -2147483648   2147483647")?;
    for (name, at) in FIELDS {
        let least = number(check([16, 12], at, i32::MIN));
        let most = number(check([16, 12], at, i32::MAX));
        println!(rt; "{name:<14}{least:>13}{most:>13}")?;
    }
    Ok(())
}

pub fn rows(rt: &impl Print) -> io::Result<()> {
    limits(rt)?;
    ends(rt)
}
