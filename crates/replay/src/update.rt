// `update` beside the Rust's: accepted or not, and both sets after it.
use crate::answers::{check_bytes, part};
use crate::failure::{Failure, ensure};
use crate::given::{Numbers, sets};
use std::alloc::Global;

pub fn check(alloc: Global, case: &[u8]) -> Result<(), Failure> {
    let numbers = Numbers::of(case, 15)?;
    let (mut backward, mut forward) = sets(alloc, case, numbers)?;
    let payload = part(case, 3);
    let outcome = record::update::update(numbers.shape(), payload, &mut backward, &mut forward);
    ensure(outcome.is_ok() == (numbers.at(14) == 1))?;
    check_bytes(case, 4, &backward)?;
    check_bytes(case, 6, &forward)
}
