// The class of a picture (paper 01, 'Masks and class'): the counts of its blocks, and the class of the counts.
ghost use Rattle.std.specs.Prelude.{◌≡◌, ◌*◌, ◌≤◌, length, pos, int_le};
ghost use Rattle.record.specs.Refusals.{number_of};
ghost use Rattle.maps.specs.Class.{weight_of, tallied, counts_of, required_of, class_of, quality_number, graded_of, classed, quality_of};
ghost use Rattle.maps.specs.Class.Laws.{AtMost, CountsReady};

use crate::map::{SceneLimits, score_at};
use record::refusal::Refusal;
use record::shape::FieldShape;

// How many blocks are counted, and how many of them count for scene, m2 and m1.
#[repr(C)]
#[derive(Clone, Copy, Default)]
pub struct Counts {
    pub counted: u32,
    pub scene: u32,
    pub m2: u32,
    pub m1: u32,
}

impl Counts {
    // These counts and others together.
    #[tactic(auto, unfolding(crate::specs::Class::tallied))]
    pub(crate) fn plus(self, more: Counts) -> Counts
        requires { (AtMost 1048576 self) × (AtMost 1048576 more) }
        ensures { result ≡ tallied self more }
    {
        Counts {
            counted: self.counted + more.counted,
            scene: self.scene + more.scene,
            m2: self.m2 + more.m2,
            m1: self.m1 + more.m1,
        }
    }
}

// What a block of a score adds to the counts: products of 0 and 1, since a branch on a score is often guessed wrong.
pub fn weight(limits: SceneLimits, score: i32) -> Counts
    ensures { result ≡ weight_of limits score }
{
    let counted = u32::from(score >= limits.zero);
    let scene = counted * u32::from(score >= limits.scene);
    let under_scene = counted - scene;
    let m2 = under_scene * u32::from(score >= limits.m2);
    let under_m2 = under_scene - m2;
    let m1 = under_m2 * u32::from(score >= limits.m1);
    Counts {
        counted,
        scene,
        m2,
        m1,
    }
}

// The counts of a set's blocks, made afresh.
pub fn count_blocks(shape: FieldShape, limits: SceneLimits, set: &[u8], averages: &[u8]) -> Counts
    requires { CountsReady shape (length set.now) (length averages.now) }
    ensures { result ≡ counts_of shape limits set.now averages.now }
{
    let n = record::shape::blocks(shape);
    let mut counts = Counts::default();
    for i in 0..n {
        counts = counts.plus(weight(limits, score_at(set, averages, i)));
    }
    counts
}

// How many blocks a class requires.
fn required(blocks: i32, counted: u32) -> i32
    requires { counted ≤ 1048576 }
    ensures { result ≡ required_of blocks counted }
{
    arith::wrapping_mul(blocks, counted as i32) / 100
}

// Whether a count is at least what is required.
fn enough(r: i32, count: u32) -> bool
    requires { count ≤ 3145728 }
    ensures { result ≡ int_le r (pos count) }
{
    let least = count as i32;
    r <= least
}

// The class of counts, of at most as many blocks as a grid has: a number and no enum, since C reads it (unit_quality) and theorem K9 is of it.
pub fn class_of(blocks: i32, counts: Counts) -> u32
    requires { AtMost 1048576 counts }
    ensures { result ≡ class_of blocks counts }
{
    let r = required(blocks, counts.counted);
    let scene = counts.scene;
    let m2 = scene + counts.m2;
    let m1 = m2 + counts.m1;
    if enough(r, scene) {
        return 3;
    }
    if enough(r, m2) {
        return 2;
    }
    if enough(r, m1) {
        return 1;
    }
    0
}

// Refuses quality by the shape (2), by the length of a set or the averages (3), or by the side (8).
#[tactic(auto, unfolding(crate::specs::Class::quality_number, record::specs::Numbers::first, record::specs::Numbers::unless))]
fn check_quality(
    shape: FieldShape,
    side: u32,
    backward: usize,
    forward: usize,
    averages: usize,
) -> Result<(), Refusal>
    ensures { number_of result ≡ quality_number shape side backward forward averages }
{
    record::checks::check_sets(shape, backward, forward)?;
    if averages < record::shape::blocks(shape) {
        return Err(Refusal::Room);
    }
    record::checks::check_side(side)
}

// The class of one side's scores at the averages that are lent, 0 to 3.
pub fn quality<'a>(
    shape: FieldShape,
    side: u32,
    limits: SceneLimits,
    backward: &'a [u8],
    forward: &'a [u8],
    averages: &[u8],
) -> Result<u32, Refusal>
    ensures { classed (graded_of result) backward.now forward.now averages.now
        ≡ quality_of shape side limits backward.now forward.now averages.now }
{
    check_quality(shape, side, backward.len(), forward.len(), averages.len())?;
    let set = record::entry::set(shape, side, backward, forward);
    let counts = count_blocks(shape, limits, set, averages);
    Ok(class_of(limits.blocks, counts))
}
