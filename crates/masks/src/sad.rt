// sad_mask: each block's sad as a level (paper 01, 'Masks and class').
ghost use Rattle.std.specs.Prelude.{◌≡◌, ◌+◌, ◌*◌, ◌≤◌, ◌<◌, length};
ghost use Rattle.arith.specs.Splice.{over};
ghost use Rattle.arith.specs.Tabulate.{tab};
ghost use Rattle.record.specs.Entries.{side_set};
ghost use Rattle.record.specs.Refusals.{number_of};
ghost use Rattle.masks.specs.Sad.{sad_at, sad_bytes, sad_mask_of};
ghost use Rattle.masks.specs.Sad.Laws.{sad_line};
ghost use Rattle.masks.specs.Calls.{sad_mask_number, sad_masked, sad_mask_call};
ghost use Rattle.masks.specs.Calls.Laws.{BuffersReady};

use crate::sad_levels::{SMALL, SadLevels};
use levels::MaskSettings;
use record::refusal::Refusal;
use record::shape::FieldShape;

// The sad of entry i.
fn sad_at(set: &[u8], i: usize) -> u32
    requires { 8 * i + 8 ≤ length set.now }
    ensures { (result ≡ sad_at set.now i) × (result < 16777216) }
{
    record::entry::sad_at(set, i) as u32
}

// A row of w bytes, from the n blocks that start at block `first`: a column for each, and past them the last again.
fn sad_line(levels: &SadLevels, set: &[u8], first: usize, n: usize, w: usize, row: &mut [u8])
    requires blocks_room { (1 ≤ n) × (8 * (first + n) ≤ length set.now) }
    requires row_room { w ≤ length row.old }
    ensures { row.new ≡ over (tab (sad_line levels.now.settings.sad levels.now.area set.now first n) w) row.old }
{
    let own = n.min(w);
    for x in 0..own {
        let sad = sad_at(set, first + x);
        row[x] = levels.level(sad);
    }
    // A row without a rest works out no level more.
    if own < w {
        let last = sad_at(set, first + (n - 1));
        row[own..w].fill(levels.level(last));
    }
}

// h rows of w bytes, from m rows of n blocks: past the last row of blocks it is repeated.
// The four sides stay numbers: those of the blocks and those of the mask differ, and a struct of four would say less.
fn sad_lines(
    levels: &SadLevels,
    set: &[u8],
    n: usize,
    m: usize,
    w: usize,
    h: usize,
    mask: &mut [u8],
)
    requires blocks_room { (1 ≤ n) × (1 ≤ m) × (8 * (m * n) ≤ length set.now) }
    requires mask_room { h * w ≤ length mask.old }
    ensures { mask.new ≡ over (sad_bytes levels.now.settings.sad levels.now.area n m w h set.now) mask.old }
{
    for y in 0..h {
        let first = y.min(m - 1) * n;
        sad_line(levels, set, first, n, w, &mut mask[y * w..]);
    }
}

// w × h bytes of the mask, from m rows of n blocks.
fn sad_bytes(
    settings: MaskSettings,
    area: u32,
    set: &[u8],
    n: usize,
    m: usize,
    w: usize,
    h: usize,
    mask: &mut [u8],
)
    requires blocks_room { (1 ≤ n) × (1 ≤ m) × (8 * (m * n) ≤ length set.now) }
    requires mask_room { h * w ≤ length mask.old }
    ensures { mask.new ≡ over (sad_bytes settings.sad area n m w h set.now) mask.old }
{
    let mut table = [0u8; SMALL];
    let size = crate::sad_levels::fill(settings, area, &mut table);
    let levels = SadLevels {
        settings,
        area,
        table: &table[..size],
    };
    sad_lines(&levels, set, n, m, w, h, mask);
}

// What a call of sad_mask is refused by.
fn check_sad_mask(
    shape: FieldShape,
    side: u32,
    backward: usize,
    forward: usize,
    mask: usize,
    cover: i32,
    sad_scale: f64,
) -> Result<(), Refusal>
    ensures { number_of result ≡ sad_mask_number shape side backward forward mask cover sad_scale }
{
    crate::checks::check_buffers(shape, backward, forward, mask)?;
    crate::checks::check_settings(side, cover, sad_scale)
}

// The mask of an accepted call.
fn sad_mask_ready<'a>(
    shape: FieldShape,
    side: u32,
    backward: &'a [u8],
    forward: &'a [u8],
    settings: MaskSettings,
    mask: &mut [u8],
)
    requires { BuffersReady shape (length backward.now) (length forward.now) (length mask.old) }
    ensures { mask.new
        ≡ over (sad_mask_of shape settings.sad (side_set shape side backward.now forward.now)) mask.old }
{
    let area = crate::checks::area(shape);
    let n = record::shape::columns(shape);
    let m = record::shape::rows(shape);
    let w = record::shape::packed_width(shape);
    let h = record::shape::packed_height(shape);
    let set = record::entry::set(shape, side, backward, forward);
    sad_bytes(settings, area, set, n, m, w, h, mask);
}

// The SAD mask of the set of a side: W × H bytes where it is accepted.
pub fn sad_mask<'a>(
    shape: FieldShape,
    side: u32,
    backward: &'a [u8],
    forward: &'a [u8],
    cover: i32,
    sad_scale: f64,
    mask: &mut [u8],
) -> Result<(), Refusal>
    ensures { sad_masked (number_of result) mask.new
        ≡ sad_mask_call shape side backward.now forward.now cover sad_scale mask.old }
{
    check_sad_mask(
        shape,
        side,
        backward.len(),
        forward.len(),
        mask.len(),
        cover,
        sad_scale,
    )?;
    let settings = levels::settings(cover, sad_scale);
    sad_mask_ready(shape, side, backward, forward, settings, mask);
    Ok(())
}
