// `vector_data` beside the Rust's: accepted or not, and its 12 fields.
use crate::answers::part;
use crate::failure::{Failure, ensure};
use crate::given::Numbers;
use record::data::VectorData;
use std::alloc::Global;

// The fields are numbers 1 to 12, in this order.
fn has_fields(data: VectorData, numbers: Numbers) -> bool {
    let fields = [
        data.flags,
        data.block.width,
        data.block.height,
        data.shape.width,
        data.shape.height,
        data.grid.width,
        data.grid.height,
        data.marker,
        data.selector,
        data.delta,
        data.overlap_x,
        data.overlap_y,
    ];
    (1..13).zip(fields).all(|(k, field)| numbers.at(k) == field)
}

pub fn check(_alloc: Global, case: &[u8]) -> Result<(), Failure> {
    let numbers = Numbers::of(case, 13)?;
    let accepted = numbers.at(0);
    match record::data::vector_data(part(case, 1)) {
        Ok(data) => ensure(accepted == 1 && has_fields(data, numbers)),
        Err(_) => ensure(accepted == 0),
    }
}
