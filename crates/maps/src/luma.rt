// The average luma of each block (paper 01, 'Luma and map').
ghost use Rattle.std.specs.Prelude.{◌≡◌, ◌+◌, ◌*◌, ◌<◌, ◌≤◌, length};
ghost use Rattle.record.specs.Refusals.{number_of};
ghost use Rattle.maps.specs.Luma.{table_size, average_at, averages_made, average_patched, luma_number, averaged, luma_of};
ghost use Rattle.maps.specs.Luma.Laws.{AveragesReady};

use record::refusal::Refusal;
use record::shape::FieldShape;

// How many bytes the luma table has.
pub const TABLE_SIZE: usize = 511;

// The average of block i.
pub fn average(backward: &[u8], forward: &[u8], table: &[u8], i: usize) -> u8
    requires { (8 * i + 8 ≤ length backward.now) × (8 * i + 8 ≤ length forward.now) × (table_size ≤ length table.now) }
    ensures { result ≡ average_at table.now backward.now forward.now i }
{
    let b = record::entry::luma_at(backward, i) as usize;
    let f = record::entry::luma_at(forward, i) as usize;
    table[b + f]
}

// The averages of both sets, made afresh.
pub fn fill_averages(
    shape: FieldShape,
    backward: &[u8],
    forward: &[u8],
    table: &[u8],
    averages: &mut [u8],
)
    requires { AveragesReady shape (length backward.now) (length forward.now) (length table.now) (length averages.old) }
    ensures { averages.new
        ≡ averages_made shape table.now backward.now forward.now averages.old }
{
    let n = record::shape::blocks(shape);
    for i in 0..n {
        averages[i] = average(backward, forward, table, i);
    }
}

// One block's average worked out anew.
#[tactic(auto, unfolding(crate::specs::Luma::average_patched))]
pub fn patch_average(
    backward: &[u8],
    forward: &[u8],
    table: &[u8],
    block: usize,
    averages: &mut [u8],
)
    requires { (8 * block + 8 ≤ length backward.now)
        × (8 * block + 8 ≤ length forward.now)
        × (table_size ≤ length table.now)
        × (block < length averages.old) }
    ensures { averages.new
        ≡ average_patched table.now backward.now forward.now block averages.old }
{
    averages[block] = average(backward, forward, table, block);
}

// Refuses avg_luma by the shape (2), or by the length of a set, the table or the averages (3).
#[tactic(auto, unfolding(crate::specs::Luma::luma_number, record::specs::Numbers::first, record::specs::Numbers::unless))]
fn check_luma(
    shape: FieldShape,
    backward: usize,
    forward: usize,
    table: usize,
    averages: usize,
) -> Result<(), Refusal>
    ensures { number_of result ≡ luma_number shape backward forward table averages }
{
    record::checks::check_sets(shape, backward, forward)?;
    let n = record::shape::blocks(shape);
    record::checks::check_lengths(table, TABLE_SIZE, averages, n)
}

// The average luma of each block. Refused, nothing is written.
pub fn avg_luma(
    shape: FieldShape,
    backward: &[u8],
    forward: &[u8],
    table: &[u8],
    averages: &mut [u8],
) -> Result<(), Refusal>
    ensures { averaged (number_of result) backward.now forward.now table.now averages.new
        ≡ luma_of shape backward.now forward.now table.now averages.old }
{
    check_luma(
        shape,
        backward.len(),
        forward.len(),
        table.len(),
        averages.len(),
    )?;
    fill_averages(shape, backward, forward, table, averages);
    Ok(())
}
