// `quality_map` and `quality` beside the Rust's: the map, and the class.
use crate::answers::check_bytes;
use crate::failure::{Failure, ensure};
use crate::given::{BYTES, Numbers, averages, sets};
use std::alloc::Global;

pub fn check_map(alloc: Global, case: &[u8]) -> Result<(), Failure> {
    let numbers = Numbers::of(case, 20)?;
    let (backward, forward) = sets(alloc, case, numbers)?;
    let averages = averages(alloc, case, numbers)?;
    let mut map = vec![in alloc; 7u8; BYTES]?;
    maps::map::quality_map(
        numbers.shape(),
        numbers.side(),
        numbers.limits(),
        &backward,
        &forward,
        &averages,
        &mut map,
    )?;
    check_bytes(case, 4, &map)
}

pub fn check_class(alloc: Global, case: &[u8]) -> Result<(), Failure> {
    let numbers = Numbers::of(case, 21)?;
    let (backward, forward) = sets(alloc, case, numbers)?;
    let averages = averages(alloc, case, numbers)?;
    let class = maps::class::quality(
        numbers.shape(),
        numbers.side(),
        numbers.limits(),
        &backward,
        &forward,
        &averages,
    )?;
    ensure(class.cast_signed() == numbers.at(20))
}
