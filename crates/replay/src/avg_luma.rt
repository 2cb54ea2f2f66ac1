// `avg_luma` beside the Rust's: the averages.
use crate::answers::{check_bytes, part};
use crate::failure::Failure;
use crate::given::{BYTES, Numbers, repeated, sets};
use std::alloc::Global;

pub fn check(alloc: Global, case: &[u8]) -> Result<(), Failure> {
    let numbers = Numbers::of(case, 14)?;
    let (backward, forward) = sets(alloc, case, numbers)?;
    let table = repeated(alloc, part(case, 3), 511, 511)?;
    let mut averages = vec![in alloc; 7u8; BYTES]?;
    maps::luma::avg_luma(numbers.shape(), &backward, &forward, &table, &mut averages)?;
    check_bytes(case, 4, &averages)
}
