// The checks that calls share (paper 01, 'Refused calls').
ghost use Rattle.std.specs.Prelude.{◌≡◌, ◌&&◌, leb};
ghost use Rattle.record.specs.Checks.{sets_number, side_number};
ghost use Rattle.record.specs.Numbers.{unless};
ghost use Rattle.record.specs.Refusals.{number_of};

use crate::refusal::Refusal;
use crate::shape::FieldShape;

// 3 unless each of two buffers has its size.
#[tactic(auto, unfolding(crate::specs::Numbers::unless))]
pub fn check_lengths(
    one: usize,
    one_size: usize,
    other: usize,
    other_size: usize,
) -> Result<(), Refusal>
    ensures { number_of result ≡ unless (leb one_size one && leb other_size other) 3 }
{
    if one < one_size || other < other_size {
        return Err(Refusal::Room);
    }
    Ok(())
}

// A shape and the lengths of both sets: refused by 2 or 3.
#[tactic(auto, unfolding(crate::specs::Checks::sets_number, crate::specs::Numbers::first, crate::specs::Numbers::unless))]
pub fn check_sets(shape: FieldShape, backward: usize, forward: usize) -> Result<(), Refusal>
    ensures { number_of result ≡ sets_number shape backward forward }
{
    crate::shape::check_shape(shape)?;
    let size = crate::shape::set_size(shape);
    check_lengths(backward, size, forward, size)
}

// A side: refused by 8 unless it is 1, backward, or 2, forward.
#[tactic(auto, unfolding(crate::specs::Checks::side_number, crate::specs::Numbers::unless))]
pub fn check_side(side: u32) -> Result<(), Refusal>
    ensures { number_of result ≡ side_number side }
{
    if !crate::entry::is_side(side) {
        return Err(Refusal::Place);
    }
    Ok(())
}
