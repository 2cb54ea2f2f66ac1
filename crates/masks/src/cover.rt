// cover_mask: how much of each cell is left uncovered by the blocks at a time (paper 01, 'Masks and class').
ghost use Rattle.std.specs.Prelude.{◌≡◌, ◌≤◌, length};
ghost use Rattle.arith.specs.Splice.{over};
ghost use Rattle.record.specs.Refusals.{number_of};
ghost use Rattle.record.specs.Shape.{grid_size, plane_size};
ghost use Rattle.record.specs.Shape.Laws.{Accepted};
ghost use Rattle.masks.specs.Cover.{cover_mask_of};
ghost use Rattle.masks.specs.Cover.Laws.{value_at};
ghost use Rattle.masks.specs.Calls.{cover_mask_number, cover_masked, cover_mask_call, cover_done};
ghost use Rattle.masks.specs.Calls.Laws.{CoverReady};

use levels::MaskSettings;
use record::refusal::Refusal;
use record::shape::FieldShape;

// What a call of cover_mask is refused by.
fn check_cover_mask(
    shape: FieldShape,
    side: u32,
    backward: usize,
    forward: usize,
    scratch: usize,
    mask: usize,
    cover: i32,
    sad_scale: f64,
    time: i32,
) -> Result<(), Refusal>
    ensures { number_of result ≡ cover_mask_number shape side backward forward scratch mask cover sad_scale time }
{
    crate::checks::check_buffers(shape, backward, forward, mask)?;
    if scratch < record::shape::grid_size(shape) {
        return Err(Refusal::Room);
    }
    crate::checks::check_settings(side, cover, sad_scale)?;
    scatter::geometry::check_time(time)
}

// The mask of a grid.
fn cover_grid(shape: FieldShape, settings: MaskSettings, grid: &[i32], mask: &mut [u8])
    requires { Accepted shape × (grid_size shape ≤ length grid.now) × (plane_size shape ≤ length mask.old) }
    ensures { mask.new ≡ over (cover_mask_of shape settings.cover (value_at grid.now)) mask.old }
{
    let area = crate::checks::area(shape);
    let w = record::shape::packed_width(shape);
    let h = record::shape::packed_height(shape);
    crate::rows::cover_bytes(settings, area, grid, w, h, mask);
}

// The grid and the mask of an accepted call.
fn cover_mask_ready<'a>(
    shape: FieldShape,
    side: u32,
    backward: &'a [u8],
    forward: &'a [u8],
    settings: MaskSettings,
    time: i32,
    scratch: &mut [i32],
    mask: &mut [u8],
)
    requires { CoverReady shape time (length backward.now) (length forward.now) (length scratch.old) (length mask.old) }
    ensures { cover_masked 0 scratch.new mask.new
        ≡ cover_done shape side backward.now forward.now settings.cover time scratch.old mask.old }
{
    let set = record::entry::set(shape, side, backward, forward);
    fast::scatter(shape, time, set, scratch);
    cover_grid(shape, settings, scratch, mask);
}

// The cover mask of the set of a side at a time: where it is accepted, the grid in the scratch and W × H bytes.
// Side 1 is backward and 2 forward, as in every call; the Rust's flag means forward here and backward elsewhere.
// The parameters stay apart, here and in sad_mask: they are those of the C calls.
pub fn cover_mask<'a>(
    shape: FieldShape,
    side: u32,
    backward: &'a [u8],
    forward: &'a [u8],
    cover: i32,
    sad_scale: f64,
    time: i32,
    scratch: &mut [i32],
    mask: &mut [u8],
) -> Result<(), Refusal>
    ensures { cover_masked (number_of result) scratch.new mask.new
        ≡ cover_mask_call shape side backward.now forward.now cover sad_scale time scratch.old mask.old }
{
    check_cover_mask(
        shape,
        side,
        backward.len(),
        forward.len(),
        scratch.len(),
        mask.len(),
        cover,
        sad_scale,
        time,
    )?;
    let settings = levels::settings(cover, sad_scale);
    cover_mask_ready(
        shape, side, backward, forward, settings, time, scratch, mask,
    );
    Ok(())
}
