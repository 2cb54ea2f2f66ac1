// The map of scores and their counts, made afresh in one walk (paper 02, request 1). Scores are worked out some at a time, and then judged by a loop that
// divides nothing and can take several at once.
ghost use Rattle.std.specs.Prelude.{◌≡◌, ℕ, ◌+◌, ◌*◌, ◌≤◌, length, pos, slice_index_or};
ghost use Rattle.arith.specs.Tabulate.{tab};
ghost use Rattle.maps.specs.Map.{score_at, map_byte, map_at, map_made};
ghost use Rattle.maps.specs.Map.Laws.{MapReady};
ghost use Rattle.maps.specs.Class.{counts_by, counts_of};

use crate::class::Counts;
use crate::map::SceneLimits;
use record::shape::FieldShape;

// How many scores are worked out before they are judged.
const CHUNK: usize = 64;

// The scores of as many blocks from one on as there is room for.
fn score_each(set: &[u8], averages: &[u8], start: usize, scores: &mut [i32])
    requires { (8 * (start + length scores.old) ≤ length set.now) × (start + length scores.old ≤ length averages.now) }
    ensures { scores.new ≡ tab (λ (j : ℕ). score_at set.now averages.now (start + j)) (length scores.old) }
{
    for (j, score) in scores.iter_mut().enumerate() {
        *score = crate::map::score_at(set, averages, start + j);
    }
}

// The map bytes of scores, and their counts.
fn judge_each(limits: SceneLimits, scores: &[i32], map: &mut [u8]) -> Counts
    requires { (length scores.now ≤ 64) × (length scores.now ≡ length map.old) }
    ensures { (result ≡ counts_by limits (λ (j : ℕ). slice_index_or scores.now j (pos 0)) (length scores.now))
        × (map.new ≡ tab (λ (j : ℕ). map_byte limits (slice_index_or scores.now j (pos 0))) (length scores.now)) }
{
    let mut counts = Counts::default();
    for (j, score) in scores.iter().enumerate() {
        counts = counts.plus(crate::class::weight(limits, *score));
        map[j] = crate::map::map_byte(limits, *score);
    }
    counts
}

// The map bytes and the counts of as many blocks from one on as there is room for.
fn judge_chunk(
    limits: SceneLimits,
    set: &[u8],
    averages: &[u8],
    start: usize,
    map: &mut [u8],
) -> Counts
    requires { (length map.old ≤ 64) × (8 * (start + length map.old) ≤ length set.now) × (start + length map.old ≤ length averages.now) }
    ensures { (result ≡ counts_by limits (λ (j : ℕ). score_at set.now averages.now (start + j)) (length map.old))
        × (map.new ≡ tab (λ (j : ℕ). map_at limits set.now averages.now (start + j)) (length map.old)) }
{
    let mut scores = [0i32; CHUNK];
    let scores = &mut scores[..map.len()];
    score_each(set, averages, start, scores);
    judge_each(limits, scores, map)
}

// The map bytes and the counts of as many blocks as there is room for.
fn judge_blocks(limits: SceneLimits, set: &[u8], averages: &[u8], map: &mut [u8]) -> Counts
    requires { (length map.old ≤ 1048576) × (8 * length map.old ≤ length set.now) × (length map.old ≤ length averages.now) }
    ensures { (result ≡ counts_by limits (score_at set.now averages.now) (length map.old))
        × (map.new ≡ tab (map_at limits set.now averages.now) (length map.old)) }
{
    let mut counts = Counts::default();
    for start in (0..map.len()).step_by(CHUNK) {
        let end = map.len().min(start + CHUNK);
        counts = counts.plus(judge_chunk(limits, set, averages, start, &mut map[start..end]));
    }
    counts
}

// The map of a set's scores and their counts.
pub fn fill_judged(
    shape: FieldShape,
    limits: SceneLimits,
    set: &[u8],
    averages: &[u8],
    map: &mut [u8],
) -> Counts
    requires { MapReady shape (length set.now) (length averages.now) (length map.old) }
    ensures { (result ≡ counts_of shape limits set.now averages.now)
        × (map.new ≡ map_made shape limits set.now averages.now map.old) }
{
    let n = record::shape::blocks(shape);
    judge_blocks(limits, set, averages, &mut map[..n])
}
