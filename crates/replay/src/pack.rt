// `pack` beside the Rust's: both planes.
use crate::answers::check_elements;
use crate::failure::Failure;
use crate::given::{BYTES, CELLS, Numbers, sets};
use std::alloc::Global;

pub fn check(alloc: Global, case: &[u8]) -> Result<(), Failure> {
    let numbers = Numbers::of(case, 15)?;
    let (backward, forward) = sets(alloc, case, numbers)?;
    let mut xs = vec![in alloc; 7u16; CELLS]?;
    let mut ys = vec![in alloc; 7u16; CELLS]?;
    let mut bytes = vec![in alloc; 7u8; BYTES]?;
    maps::planes::pack(
        numbers.shape(),
        numbers.side(),
        &backward,
        &forward,
        &mut xs,
        &mut ys,
    )?;
    check_elements(case, 3, &xs, 2, u32::from, &mut bytes)?;
    check_elements(case, 5, &ys, 2, u32::from, &mut bytes)
}
