// update: a payload's entries copied into the caller's two sets (paper 01, 'Entries and update').
ghost use Rattle.std.specs.Prelude.{◌≡◌, ◌||◌, ◌+◌, ◌≤◌, eqb, length, take, drop};
ghost use Rattle.arith.specs.Splice.{over};
ghost use Rattle.record.specs.Refusals.{number_of};
ghost use Rattle.record.specs.Shape.{set_size};
ghost use Rattle.record.specs.Shape.Laws.{Accepted};
ghost use Rattle.record.specs.Update.{payload_number, updated, update_of, backward_after, forward_after};

use crate::refusal::Refusal;
use crate::shape::FieldShape;

// So many bytes are copied at a time: one copy of a large half takes longer.
const PIECE: usize = 4096;

// Copies the first `size` bytes of a payload's part over those of a set.
fn decode_set(part: &[u8], set: &mut [u8], size: usize)
    requires { (size ≤ length part.now) × (size ≤ length set.old) }
    ensures { set.new ≡ over (take size part.now) set.old }
{
    let pieces = size / PIECE;
    for k in 0..pieces {
        let at = PIECE * k;
        set[at..at + PIECE].copy_from_slice(&part[at..at + PIECE]);
    }
    let rest = PIECE * pieces;
    set[rest..size].copy_from_slice(&part[rest..size]);
}

// Copies the `size` bytes of a payload's half from `at` over those of a set.
fn take_half(payload: &[u8], at: usize, set: &mut [u8], size: usize)
    requires { (at + size ≤ length payload.now) × (size ≤ length set.old) }
    ensures { set.new ≡ over (take size (drop at payload.now)) set.old }
{
    decode_set(&payload[at..], set, size);
}

// A payload of that outcome has a backward half that is good, if it has to: accepted, or refused for its forward half alone.
fn keeps_backward(outcome: Result<(), Refusal>) -> bool
    ensures { result ≡ (eqb (number_of outcome) 0 || eqb (number_of outcome) 6) }
{
    match outcome {
        Ok(()) => true,
        Err(refusal) => refusal == Refusal::ForwardHalf,
    }
}

// The backward set after a payload of that outcome: new too where the forward half alone is refused.
pub fn take_backward(
    shape: FieldShape,
    payload: &[u8],
    outcome: Result<(), Refusal>,
    backward: &mut [u8],
)
    requires { Accepted shape × (set_size shape ≤ length backward.old) × (number_of outcome ≡ payload_number shape payload.now) }
    ensures { backward.new ≡ backward_after shape payload.now (number_of outcome) backward.old }
{
    if !keeps_backward(outcome) {
        return;
    }
    if !crate::payload::has_backward(shape) {
        return;
    }
    let size = crate::shape::set_size(shape);
    take_half(payload, 68, backward, size);
}

// The forward set after a payload of that outcome.
pub fn take_forward(
    shape: FieldShape,
    payload: &[u8],
    outcome: Result<(), Refusal>,
    forward: &mut [u8],
)
    requires { Accepted shape × (set_size shape ≤ length forward.old) × (number_of outcome ≡ payload_number shape payload.now) }
    ensures { forward.new ≡ forward_after shape payload.now (number_of outcome) forward.old }
{
    if outcome.is_err() {
        return;
    }
    if !crate::payload::has_forward(shape) {
        return;
    }
    let size = crate::shape::set_size(shape);
    take_half(payload, 72 + size, forward, size);
}

// Renews both sets by a payload; refused by 2 (shape), 3 (a set too short), 4 (head), 5 (backward half) or 6 (forward half).
// Refused by 6 with flag bit 0 set, the backward set is new; refused otherwise, nothing is written.
pub fn update(
    shape: FieldShape,
    payload: &[u8],
    backward: &mut [u8],
    forward: &mut [u8],
) -> Result<(), Refusal>
    ensures { updated (number_of result) backward.new forward.new
        ≡ update_of shape payload.now backward.old forward.old }
{
    crate::checks::check_sets(shape, backward.len(), forward.len())?;
    let outcome = crate::payload::check_payload(shape, payload);
    take_backward(shape, payload, outcome, backward);
    take_forward(shape, payload, outcome, forward);
    outcome
}
