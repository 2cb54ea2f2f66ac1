// Sixteen blocks of a row at a time: a local array for each number of theirs, filled by a loop of its own, which the compiler turns into vector instructions.
ghost use Rattle.std.specs.Prelude.{◌≡◌, ℕ, ◌+◌, ◌*◌, ◌≤◌, pos, nat_abs, length, get_or};
ghost use Rattle.arith.specs.Splice.{over};
ghost use Rattle.arith.specs.Tabulate.{tab};
ghost use Rattle.record.specs.Entries.{entry_at};
ghost use Rattle.scatter.specs.Block.{reach};
ghost use Rattle.fast.specs.Reciprocal.{DivReady};
ghost use Rattle.fast.specs.Lanes.{lanes, across_at, down_at, scaled_at, floored_at, Bounded, AxisRoom, Moved};

use crate::divide::FloorDiv;
use scatter::geometry::Scatter;

// How many blocks are worked out at once.
pub const LANES: usize = 16;

// The x and the y of `count` entries from entry `start` on. `small` is a fact of the set's bytes, stated here because only a function that is lent the set
// knows them to be bytes; the other two are the promise.
pub fn components(set: &[u8], start: usize, count: usize, vx: &mut [i32], vy: &mut [i32])
    requires { (8 * (start + count) ≤ length set.now) × (count ≤ length vx.old) × (count ≤ length vy.old) }
    ensures across { vx.new ≡ over (tab (across_at set.now start) count) vx.old }
    ensures down { vy.new ≡ over (tab (down_at set.now start) count) vy.old }
    ensures small { ((i : ℕ) → nat_abs (entry_at set.now i).x ≤ 32768) × ((i : ℕ) → nat_abs (entry_at set.now i).y ≤ 32768) }
{
    for k in 0..count {
        vx[k] = record::entry::x_at(set, start + k) as i32;
        vy[k] = record::entry::y_at(set, start + k) as i32;
    }
}

// time × v / 2^shift, truncated, of each lane.
fn scale_lanes(v: &[i32], time: i32, shift: u32, t: &mut [i32])
    requires { (shift ≤ 14) × (nat_abs time ≤ 65535) × (lanes ≤ length v.now) × (lanes ≤ length t.old) × Bounded 32768 v.now }
    ensures { t.new ≡ over (tab (scaled_at v.now time shift) lanes) t.old }
{
    for k in 0..LANES {
        t[k] = crate::scale::scale(time * v[k], shift);
    }
}

// The floor of t / step of each lane.
fn floor_lanes(t: &[i32], step: FloorDiv, q: &mut [i32])
    requires { (DivReady step) × (lanes ≤ length t.now) × (lanes ≤ length q.old) × Bounded reach t.now }
    ensures { q.new ≡ over (tab (floored_at t.now step.divisor) lanes) q.old }
{
    for k in 0..LANES {
        q[k] = step.apply(t[k]);
    }
}

// How far each lane goes on one axis, and the floor of that by the axis's step.
pub fn axis(v: &[i32], g: Scatter, shift: u32, step: FloorDiv, t: &mut [i32], q: &mut [i32])
    requires { AxisRoom g shift step v.now (length t.old) (length q.old) }
    ensures { Moved g.shape g.time (nat_abs step.divisor) (λ k. get_or v.now k (pos 0)) lanes t.new q.new }
{
    scale_lanes(v, g.time, shift, t);
    floor_lanes(t, step, q);
}
