// The counts that a session keeps, adjusted with each edit (paper 02, request 1).
ghost use Rattle.std.specs.Prelude.{◌≡◌, ◌<◌, ◌≤◌, length};
ghost use Rattle.record.specs.Shape.{blocks_of, set_size};
ghost use Rattle.record.specs.Shape.Laws.{Accepted};
ghost use Rattle.maps.specs.Luma.{table_size};
ghost use Rattle.maps.specs.Kept.{score_from, moved_count, adjusted};

use crate::class::Counts;
use crate::map::SceneLimits;
use record::shape::FieldShape;

// A block's score from the two sets and the luma table; no average is lent.
pub fn score_from<'a>(
    shape: FieldShape,
    side: u32,
    backward: &'a [u8],
    forward: &'a [u8],
    table: &[u8],
    block: usize,
) -> i32
    requires { (Accepted shape)
        × (block < blocks_of shape)
        × (set_size shape ≤ length backward.now)
        × (set_size shape ≤ length forward.now)
        × (table_size ≤ length table.now) }
    ensures { result ≡ score_from table.now side backward.now forward.now block }
{
    let average = crate::luma::average(backward, forward, table, block);
    let shown = record::entry::set(shape, side, backward, forward);
    crate::map::score(record::entry::sad_at(shown, block), average)
}

// One count, less what a block gave to it and more what it gives now; past either end it wraps.
#[tactic(auto, unfolding(crate::specs::Kept::moved_count))]
fn moved_count(count: u32, before: u32, after: u32) -> u32
    ensures { result ≡ moved_count count before after }
{
    count.wrapping_sub(before).wrapping_add(after)
}

// The counts after an edit, by its block's score before and after it.
pub fn adjust(limits: SceneLimits, counts: Counts, before: i32, after: i32) -> Counts
    ensures { result ≡ adjusted limits before after counts }
{
    let b = crate::class::weight(limits, before);
    let a = crate::class::weight(limits, after);
    Counts {
        counted: moved_count(counts.counted, b.counted, a.counted),
        scene: moved_count(counts.scene, b.scene, a.scene),
        m2: moved_count(counts.m2, b.m2, a.m2),
        m1: moved_count(counts.m1, b.m1, a.m1),
    }
}
