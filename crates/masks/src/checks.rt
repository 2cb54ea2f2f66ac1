// What both mask calls check (paper 01, 'Refused calls'), and the area of a block that both use.
ghost use Rattle.std.specs.Prelude.{◌≡◌, ◌≤◌};
ghost use Rattle.record.specs.Refusals.{number_of};
ghost use Rattle.record.specs.Shape.{area_of};
ghost use Rattle.record.specs.Shape.Laws.{Accepted};
ghost use Rattle.masks.specs.Calls.{settings_accepted, buffers_number, settings_number};

use record::refusal::Refusal;
use record::shape::FieldShape;

// The shape, and the lengths of both sets and of the mask: refused by 2 or 3.
pub fn check_buffers(
    shape: FieldShape,
    backward: usize,
    forward: usize,
    mask: usize,
) -> Result<(), Refusal>
    ensures { number_of result ≡ buffers_number shape backward forward mask }
{
    record::checks::check_sets(shape, backward, forward)?;
    if mask < record::shape::plane_size(shape) {
        return Err(Refusal::Room);
    }
    Ok(())
}

// Both numbers, in both calls.
fn settings_accepted(cover: i32, scale: f64) -> bool
    ensures { result ≡ settings_accepted cover scale }
{
    levels::cover_accepted(cover) && levels::sad_scale_accepted(scale)
}

// The side and both settings: refused by 8 or 7.
pub fn check_settings(side: u32, cover: i32, scale: f64) -> Result<(), Refusal>
    ensures { number_of result ≡ settings_number side cover scale }
{
    record::checks::check_side(side)?;
    if !settings_accepted(cover, scale) {
        return Err(Refusal::Range);
    }
    Ok(())
}

// The area of a block.
pub fn area(shape: FieldShape) -> u32
    requires { Accepted shape }
    ensures { (result ≡ area_of shape) × (1 ≤ result) × (result ≤ 65536) }
{
    let w = shape.block_w as u32;
    let h = shape.block_h as u32;
    w * h
}
