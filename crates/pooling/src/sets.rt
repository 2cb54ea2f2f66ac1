// Two accepted payloads pooled into the caller's two sets: both are read in place, and each set is written once (paper 02, request 3).
ghost use Rattle.std.specs.Prelude.{◌≡◌, true, ◌+◌, ◌*◌, ◌≤◌, length};
ghost use Rattle.arith.specs.Splice.{over};
ghost use Rattle.arith.specs.Tabulate.{tab};
ghost use Rattle.record.specs.Shape.{set_size};
ghost use Rattle.record.specs.Shape.Laws.{Accepted};
ghost use Rattle.record.specs.Update.{payload_number};
ghost use Rattle.pooling.specs.Pool.{kept_byte, pooled, pooled_backward, pooled_forward};

use record::shape::FieldShape;

// Writes n entries, each the first part's or the second's. The parts are longer: what lies past n entries of the set stays (`over`).
fn pool_entries(first: &[u8], second: &[u8], set: &mut [u8], n: usize)
    requires { (8 * n ≤ length first.now) × (8 * n ≤ length second.now) × (8 * n ≤ length set.old) }
    ensures { set.new ≡ over (tab (kept_byte first.now second.now) (8 * n)) set.old }
{
    for i in 0..n {
        let a = crate::words::word_at(first, i);
        let b = crate::words::word_at(second, i);
        let kept = crate::words::smaller(a, b);
        let vector = crate::words::vector_of(kept);
        let extra = crate::words::extra_of(kept);
        record::entry::write_words(set, i, vector, extra);
    }
}

// The set of a side whose halves start at `at`; one that is not flagged stays.
fn pool_side(
    shape: FieldShape,
    flagged: bool,
    at: usize,
    first: &[u8],
    second: &[u8],
    set: &mut [u8],
)
    requires { Accepted shape × (set_size shape ≤ length set.old) × (flagged ≡ true → at + set_size shape ≤ length first.now)
        × (flagged ≡ true → at + set_size shape ≤ length second.now) }
    ensures { set.new ≡ pooled shape flagged at first.now second.now set.old }
{
    if flagged {
        let n = record::shape::blocks(shape);
        pool_entries(&first[at..], &second[at..], set, n);
    }
}

// Both sets.
pub fn pool_sets(
    shape: FieldShape,
    first: &[u8],
    second: &[u8],
    backward: &mut [u8],
    forward: &mut [u8],
)
    requires { Accepted shape × (set_size shape ≤ length backward.old) × (set_size shape ≤ length forward.old)
        × (payload_number shape first.now ≡ 0) × (payload_number shape second.now ≡ 0) }
    ensures { (backward.new ≡ pooled_backward shape first.now second.now backward.old)
        × (forward.new ≡ pooled_forward shape first.now second.now forward.old) }
{
    let backwards = record::payload::has_backward(shape);
    pool_side(shape, backwards, 68, first, second, backward);
    let forwards = record::payload::has_forward(shape);
    let at = 72 + record::shape::set_size(shape);
    pool_side(shape, forwards, at, first, second, forward);
}
