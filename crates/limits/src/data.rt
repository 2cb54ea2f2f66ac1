// The limits of `vector_data`: the length, the first i32, and the offset of every field (paper 01, 'Record and shape').
use crate::bytes::put;
use record::data::{VectorData, vector_data};
use record::refusal;
use record::shape::FieldShape;
use std::io;

// Lengths, and first i32s.
const SIZES: [(usize, i32); 8] = [
    (0, 160),
    (59, 160),
    (60, 160),
    (61, 160),
    (60, 159),
    (60, 161),
    (60, 416), // 160 + 2^8
    (60, -2147483488), // 160 - 2^31
];

// A record whose i32s all differ, those that are no field too.
const FIELDS: [[i32; 4]; 4] = [
    // 160, flags, block width, block height
    [160, -1, -2147483648, 2147483647],
    // pel, no field, no field, picture width
    [-256, 1111, 2222, 305419896],
    // picture height, overlap x, overlap y, grid width
    [-65536, 16777216, -16777217, 1025],
    // grid height, selector, delta, behind the record
    [-3, 32768, -128, 3333],
];

fn sizes(rt: &impl Print) -> io::Result<()> {
    println!(rt; "vector_data\nbytes    first i32  number")?;
    for (size, first) in SIZES {
        let mut data = [0u8; 64];
        put(&mut data, 0, &[first]);
        if let Some(lent) = data.get(..size) {
            let number = refusal::number(vector_data(lent).map(|_| ()));
            println!(rt; "{size:>5}{first:>13}{number:>8}")?;
        }
    }
    Ok(())
}

fn print_fields(rt: &impl Print, data: VectorData, shape: FieldShape) -> io::Result<()> {
    println!(rt; "\nfield                record        shape")?;
    for (name, in_record, in_shape) in [
        ("flags", data.flags, shape.flags),
        ("block width", data.block.width, shape.block_w),
        ("block height", data.block.height, shape.block_h),
        ("pel", data.marker, shape.pel),
        ("picture width", data.shape.width, shape.width),
        ("picture height", data.shape.height, shape.height),
        ("overlap x", data.overlap_x, shape.overlap_x),
        ("overlap y", data.overlap_y, shape.overlap_y),
        ("grid width", data.grid.width, shape.grid_w),
        ("grid height", data.grid.height, shape.grid_h),
        ("selector", data.selector, shape.selector),
    ] {
        println!(rt; "{name:<14}{in_record:>13}{in_shape:>13}")?;
    }
    println!(rt; "delta         {:>13}", data.delta)
}

fn fields(rt: &impl Print) -> io::Result<()> {
    let mut data = [0u8; 64];
    put(&mut data, 0, FIELDS.as_flattened());
    match vector_data(&data) {
        Ok(found) => print_fields(rt, found, found.into()),
        Err(_) => println!(rt; "refused"),
    }
}

pub fn rows(rt: &impl Print) -> io::Result<()> {
    sizes(rt)?;
    fields(rt)
}
