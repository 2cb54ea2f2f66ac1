// The number of a payload, apart from any copying (paper 01, 'Entries and update').
ghost use Rattle.std.specs.Prelude.{◌≡◌, ◌+◌, ◌≤◌};
ghost use Rattle.record.specs.Refusals.{number_of};
ghost use Rattle.record.specs.Shape.Laws.{Accepted};
ghost use Rattle.record.specs.Update.{has_at, has_backward, has_forward, head_good, half_good, backward_good, forward_good, payload_number};

use crate::refusal::Refusal;
use crate::shape::FieldShape;

// The payload has i32 `value` at `at`.
fn has_at(payload: &[u8], at: usize, value: i32) -> bool
    ensures { result ≡ has_at payload.now at value }
{
    let Some(found) = crate::fields::read_i32_slice(payload, at) else {
        return false;
    };
    found == value
}

// Flag bit 0: a backward half.
pub fn has_backward(shape: FieldShape) -> bool
    ensures { result ≡ has_backward shape }
{
    arith::to_bits(shape.flags) % 2 == 1
}

// Flag bit 1: a forward half.
pub fn has_forward(shape: FieldShape) -> bool
    ensures { result ≡ has_forward shape }
{
    arith::to_bits(shape.flags) / 2 % 2 == 1
}

// The head.
#[tactic(auto, unfolding(crate::specs::Update::head_good))]
fn head_good(shape: FieldShape, payload: &[u8]) -> bool
    ensures { result ≡ head_good shape payload.now }
{
    if !has_at(payload, 0, 16) {
        return false;
    }
    if !has_at(payload, 4, 160) {
        return false;
    }
    has_at(payload, 8, shape.flags)
}

// The half whose i32 2n+1 stands at `at` is whole. The farthest place is 68 + 8 × 2^20, of a forward half.
fn half_good(shape: FieldShape, payload: &[u8], at: usize) -> bool
    requires { Accepted shape × (at ≤ 8388676) }
    ensures { result ≡ half_good shape payload.now at }
{
    let n = crate::shape::blocks(shape);
    let expected = (2 * n + 1) as i32;
    has_at(payload, at, expected) && at + 4 + 8 * n <= payload.len()
}

// The backward half is whole, or not asked for.
#[tactic(auto, unfolding(crate::specs::Update::backward_good))]
fn backward_good(shape: FieldShape, payload: &[u8]) -> bool
    requires { Accepted shape }
    ensures { result ≡ backward_good shape payload.now }
{
    !has_backward(shape) || half_good(shape, payload, 64)
}

// The forward half is whole, or not asked for.
fn forward_good(shape: FieldShape, payload: &[u8]) -> bool
    requires { Accepted shape }
    ensures { result ≡ forward_good shape payload.now }
{
    let at = 68 + crate::shape::set_size(shape);
    !has_forward(shape) || half_good(shape, payload, at)
}

// A payload's head, backward half and forward half: refused by 4, 5 or 6 where the first of them that is wrong or missing is that.
#[tactic(auto, unfolding(crate::specs::Update::payload_number, crate::specs::Numbers::first, crate::specs::Numbers::unless))]
pub fn check_payload(shape: FieldShape, payload: &[u8]) -> Result<(), Refusal>
    requires { Accepted shape }
    ensures { number_of result ≡ payload_number shape payload.now }
{
    if !head_good(shape, payload) {
        return Err(Refusal::Head);
    }
    if !backward_good(shape, payload) {
        return Err(Refusal::BackwardHalf);
    }
    if !forward_good(shape, payload) {
        return Err(Refusal::ForwardHalf);
    }
    Ok(())
}
