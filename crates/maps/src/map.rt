// The score of each block, and the map of scores (paper 01, 'Luma and map').
ghost use Rattle.std.specs.Prelude.{◌≡◌, ◌+◌, ◌*◌, ◌<◌, ◌≤◌, max, length};
ghost use Rattle.record.specs.Refusals.{number_of};
ghost use Rattle.maps.specs.Map.{score_of, score_at, map_byte, map_at, map_made, map_patched, map_number, mapped, quality_map_of};
ghost use Rattle.maps.specs.Map.Laws.{MapReady};

use record::refusal::Refusal;
use record::shape::FieldShape;

// The limits that scores are compared with; `blocks` is a share in hundredths.
#[repr(C)]
#[derive(Clone, Copy, Default)]
pub struct SceneLimits {
    pub blocks: i32,
    pub zero: i32,
    pub m1: i32,
    pub m2: i32,
    pub scene: i32,
}

// The score of a sad at an average: the product wraps on purpose, and an average of 0 divides as 1.
pub fn score(sad: i32, average: u8) -> i32
    ensures { result ≡ score_of sad average }
{
    let product = arith::wrapping_mul(sad, 255);
    let divisor = average.max(1) as i32;
    product / divisor
}

// The score of block i.
pub fn score_at(set: &[u8], averages: &[u8], i: usize) -> i32
    requires { (8 * i + 8 ≤ length set.now) × (i < length averages.now) }
    ensures { result ≡ score_at set.now averages.now i }
{
    score(record::entry::sad_at(set, i), averages[i])
}

// The map byte of a score: a byte and no enum, since it is stored in the caller's buffer and theorems K7 and K8 are of it.
pub fn map_byte(limits: SceneLimits, score: i32) -> u8
    ensures { result ≡ map_byte limits score }
{
    if score < limits.zero {
        return 255;
    }
    if score < limits.m1 {
        return 0;
    }
    if score < limits.m2 {
        return 1;
    }
    if score < limits.scene {
        return 2;
    }
    3
}

// The map byte of block i.
fn map_at(limits: SceneLimits, set: &[u8], averages: &[u8], i: usize) -> u8
    requires { (8 * i + 8 ≤ length set.now) × (i < length averages.now) }
    ensures { result ≡ map_at limits set.now averages.now i }
{
    map_byte(limits, score_at(set, averages, i))
}

// The map of a set's scores, made afresh.
pub fn fill_map(shape: FieldShape, limits: SceneLimits, set: &[u8], averages: &[u8], map: &mut [u8])
    requires { MapReady shape (length set.now) (length averages.now) (length map.old) }
    ensures { map.new ≡ map_made shape limits set.now averages.now map.old }
{
    let n = record::shape::blocks(shape);
    for i in 0..n {
        map[i] = map_at(limits, set, averages, i);
    }
}

// One block's map byte worked out anew; answers the block's score.
pub fn patch_map(
    limits: SceneLimits,
    set: &[u8],
    averages: &[u8],
    block: usize,
    map: &mut [u8],
) -> i32
    requires { (8 * block + 8 ≤ length set.now) × (block < length averages.now) × (block < length map.old) }
    ensures { (result ≡ score_at set.now averages.now block)
        × (map.new ≡ map_patched limits set.now averages.now block map.old) }
{
    let score = score_at(set, averages, block);
    map[block] = map_byte(limits, score);
    score
}

// Refuses quality_map by the shape (2), by the length of a set, the averages or the map (3), or by the side (8).
#[tactic(auto, unfolding(crate::specs::Map::map_number, record::specs::Numbers::first, record::specs::Numbers::unless))]
fn check_map(
    shape: FieldShape,
    side: u32,
    backward: usize,
    forward: usize,
    averages: usize,
    map: usize,
) -> Result<(), Refusal>
    ensures { number_of result ≡ map_number shape side backward forward averages map }
{
    record::checks::check_sets(shape, backward, forward)?;
    let n = record::shape::blocks(shape);
    record::checks::check_lengths(averages, n, map, n)?;
    record::checks::check_side(side)
}

// The map of one side's scores at the averages that are lent. Refused, nothing is written.
pub fn quality_map<'a>(
    shape: FieldShape,
    side: u32,
    limits: SceneLimits,
    backward: &'a [u8],
    forward: &'a [u8],
    averages: &[u8],
    map: &mut [u8],
) -> Result<(), Refusal>
    ensures { mapped (number_of result) backward.now forward.now averages.now map.new
        ≡ quality_map_of shape side limits backward.now forward.now averages.now map.old }
{
    check_map(
        shape,
        side,
        backward.len(),
        forward.len(),
        averages.len(),
        map.len(),
    )?;
    let set = record::entry::set(shape, side, backward, forward);
    fill_map(shape, limits, set, averages, map);
    Ok(())
}
