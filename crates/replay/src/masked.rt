// `cover_mask`, the scatter within it, the plain scatter, and `sad_mask` beside the Rust's: the masks and the scratch.
use crate::answers::{check_bytes, check_elements};
use crate::failure::{Failure, ensure};
use crate::given::{BYTES, CELLS, Numbers, sets};
use record::shape::FieldShape;
use std::alloc::Global;

// The grid that `cover_mask` leaves.
pub fn check_scatter(alloc: Global, case: &[u8]) -> Result<(), Failure> {
    let numbers = Numbers::of(case, 15)?;
    let (backward, forward) = sets(alloc, case, numbers)?;
    let mut grid = vec![in alloc; 7i32; CELLS]?;
    let mut bytes = vec![in alloc; 7u8; BYTES]?;
    masks::cover::cover_mask(
        numbers.shape(),
        1,
        &backward,
        &forward,
        100,
        1.0,
        numbers.at(14),
        &mut grid,
        &mut bytes,
    )?;
    check_elements(case, 3, &grid, 4, i32::cast_unsigned, &mut bytes)
}

// The plain scatter, which the fast row stands in for at some shapes, where it can run.
fn plain(shape: FieldShape, time: i32, set: &[u8], grid: &mut [i32]) -> Result<(), Failure> {
    record::shape::check_shape(shape)?;
    scatter::geometry::check_time(time)?;
    ensure(record::shape::set_size(shape) <= set.len())?;
    ensure(record::shape::grid_size(shape) <= grid.len())?;
    scatter::plain::scatter(shape, time, set, grid);
    Ok(())
}

// The grid of the plain scatter.
pub fn check_plain(alloc: Global, case: &[u8]) -> Result<(), Failure> {
    let numbers = Numbers::of(case, 15)?;
    let (backward, forward) = sets(alloc, case, numbers)?;
    let mut grid = vec![in alloc; 7i32; CELLS]?;
    let mut bytes = vec![in alloc; 7u8; BYTES]?;
    plain(numbers.shape(), numbers.at(14), &backward, &mut grid)?;
    check_elements(case, 3, &grid, 4, i32::cast_unsigned, &mut bytes)
}

// The mask and the scratch.
pub fn check_cover(alloc: Global, case: &[u8]) -> Result<(), Failure> {
    let numbers = Numbers::of(case, 19)?;
    let (backward, forward) = sets(alloc, case, numbers)?;
    let mut grid = vec![in alloc; 7i32; CELLS]?;
    let mut bytes = vec![in alloc; 7u8; BYTES]?;
    masks::cover::cover_mask(
        numbers.shape(),
        numbers.side(),
        &backward,
        &forward,
        numbers.at(16),
        numbers.scale(17),
        numbers.at(15),
        &mut grid,
        &mut bytes,
    )?;
    check_bytes(case, 3, &bytes)?;
    check_elements(case, 5, &grid, 4, i32::cast_unsigned, &mut bytes)
}

// The mask.
pub fn check_sad(alloc: Global, case: &[u8]) -> Result<(), Failure> {
    let numbers = Numbers::of(case, 18)?;
    let (backward, forward) = sets(alloc, case, numbers)?;
    let mut mask = vec![in alloc; 7u8; BYTES]?;
    masks::sad::sad_mask(
        numbers.shape(),
        numbers.side(),
        &backward,
        &forward,
        numbers.at(15),
        numbers.scale(16),
        &mut mask,
    )?;
    check_bytes(case, 3, &mask)
}
