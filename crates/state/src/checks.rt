// The conditions that calls are refused by, in the order of paper 01's table ('Refused calls').
ghost use Rattle.std.specs.Prelude.{◌≡◌, ◌+◌, ◌*◌, ◌≤◌, length};
ghost use Rattle.record.specs.Refusals.{number_of};
ghost use Rattle.record.specs.Shape.Laws.{Accepted};
ghost use Rattle.history.specs.History.{slot_size};
ghost use Rattle.state.specs.Numbers.{sized, block_good, sad_good, counts_good, place_good, slots_good, shown_number, carried_number, take_number, pool_number, put_number, steps_number, run_number, retime_number};
ghost use Rattle.state.specs.Calls.{renews};

use crate::session::{Session, Sizes};
use record::refusal::Refusal;
use record::shape::FieldShape;

// 3: each buffer has its size.
#[tactic(auto, unfolding(crate::specs::Numbers::sized))]
fn is_sized(shape: FieldShape, z: Sizes) -> bool
    requires { Accepted shape }
    ensures { result ≡ sized shape z }
{
    let set = record::shape::set_size(shape);
    let plane = record::shape::plane_size(shape);
    let n = record::shape::blocks(shape);
    set <= z.backward
        && set <= z.forward
        && maps::luma::TABLE_SIZE <= z.table
        && record::shape::grid_size(shape) <= z.grid
        && plane <= z.xs
        && plane <= z.ys
        && n <= z.averages
        && n <= z.map
        && history::SLOT_SIZE <= z.history
}

// 8: a block of the shape.
#[tactic(auto, unfolding(crate::specs::Numbers::block_good))]
fn is_block(shape: FieldShape, block: u32) -> bool
    requires { Accepted shape }
    ensures { result ≡ block_good shape block }
{
    (block as usize) < record::shape::blocks(shape)
}

// 7: a put's sad.
#[tactic(auto, unfolding(crate::specs::Numbers::sad_good))]
fn is_sad(sad: i32) -> bool
    ensures { result ≡ sad_good sad }
{
    arith::in_range(0, 16777215, sad)
}

// 11: the step counts sum to at most D; each is below 2^32, so that the sum doesn't wrap.
#[tactic(auto, unfolding(crate::specs::Numbers::counts_good))]
fn counts_fit(s: Session, z: Sizes) -> bool
    ensures { result ≡ counts_good s z }
{
    s.past as usize + s.future as usize <= history::depth(z.history)
}

// 2, 3, 8: the shape, the buffers and the shown side.
#[tactic(auto, unfolding(crate::specs::Numbers::shown_number, record::specs::Numbers::first, record::specs::Numbers::unless))]
fn check_shown(shape: FieldShape, side: u32, z: Sizes) -> Result<(), Refusal>
    ensures { number_of result ≡ shown_number shape side z }
{
    record::shape::check_shape(shape)?;
    if !is_sized(shape, z) {
        return Err(Refusal::Room);
    }
    record::checks::check_side(side)
}

// 2, 3, 8, 7: the shape, buffers, side and time that every session call carries.
#[tactic(auto, unfolding(crate::specs::Numbers::carried_number, record::specs::Numbers::first, record::specs::Numbers::unless))]
pub fn check_carried(shape: FieldShape, side: u32, time: i32, z: Sizes) -> Result<(), Refusal>
    ensures { number_of result ≡ carried_number shape side time z }
{
    check_shown(shape, side, z)?;
    scatter::geometry::check_time(time)
}

// The same of what a session carries.
fn check_session(s: Session, z: Sizes) -> Result<(), Refusal>
    ensures { number_of result ≡ carried_number s.shape s.side s.time z }
{
    check_carried(s.shape, s.side, s.time, z)
}

// A take: what the session carries, then the payload.
#[tactic(auto, using(crate::proofs::Laws::Ready::carried_accepted), unfolding(crate::specs::Numbers::take_number, record::specs::Numbers::first, record::specs::Numbers::unless))]
pub fn check_take(s: Session, payload: &[u8], z: Sizes) -> Result<(), Refusal>
    ensures { number_of result ≡ take_number s payload.now z }
{
    check_session(s, z)?;
    record::payload::check_payload(s.shape, payload)
}

// A pool: what the session carries, then the first payload, then the second.
#[tactic(auto, using(crate::proofs::Laws::Ready::carried_accepted), unfolding(crate::specs::Numbers::pool_number, record::specs::Numbers::first, record::specs::Numbers::unless))]
pub fn check_pool(s: Session, first: &[u8], second: &[u8], z: Sizes) -> Result<(), Refusal>
    ensures { number_of result ≡ pool_number s first.now second.now z }
{
    check_session(s, z)?;
    pooling::payloads::check_both(s.shape, first, second)
}

// 8 of a put, 11 of a slot: a side, and a block of the shape.
#[tactic(auto, unfolding(crate::specs::Numbers::place_good))]
fn is_place(shape: FieldShape, side: u32, block: u32) -> bool
    requires { Accepted shape }
    ensures { result ≡ place_good shape side block }
{
    record::entry::is_side(side) && is_block(shape, block)
}

// A put: the shown side first, its own place before the time that the session carries, then its sad and the step counts.
#[tactic(auto, unfolding(crate::specs::Numbers::put_number, record::specs::Numbers::first, record::specs::Numbers::unless))]
pub fn check_put(s: Session, side: u32, block: u32, sad: i32, z: Sizes) -> Result<(), Refusal>
    ensures { number_of result ≡ put_number s side block sad z }
{
    check_shown(s.shape, s.side, z)?;
    if !is_place(s.shape, side, block) {
        return Err(Refusal::Place);
    }
    if !scatter::geometry::is_time(s.time) || !is_sad(sad) {
        return Err(Refusal::Range);
    }
    if !counts_fit(s, z) {
        return Err(Refusal::Slots);
    }
    Ok(())
}

// 11: n slots, from slot k up, each have a side and a block of the shape.
#[tactic(auto, using(crate::specs::Numbers::Laws::slots_none, crate::specs::Numbers::Laws::slots_turn, crate::specs::Numbers::Laws::slots_bad), unfolding(crate::specs::Numbers::slot_good))]
fn slots_good(shape: FieldShape, history: &[u8], k: usize, n: usize) -> bool
    requires { (Accepted shape) × (slot_size * (k + n) ≤ length history.now) }
    ensures { result ≡ slots_good shape history.now k n }
{
    for i in 0..n {
        let step = history::read(history, k + i);
        if !is_place(shape, step.side, step.block) {
            return false;
        }
    }
    true
}

// Undo (back) and redo before any slot is read: what the session carries, then whether there is a step, then the counts.
#[tactic(auto, unfolding(crate::specs::Numbers::steps_number, record::specs::Numbers::first, record::specs::Numbers::unless))]
fn check_steps(s: Session, back: bool, z: Sizes) -> Result<(), Refusal>
    ensures { number_of result ≡ steps_number back s z }
{
    check_session(s, z)?;
    if crate::step::steps(s, back) == 0 {
        return Err(crate::step::no_step(back));
    }
    if !counts_fit(s, z) {
        return Err(Refusal::Slots);
    }
    Ok(())
}

// Undo (back) and redo: the same, then every slot of the run.
#[tactic(auto, unfolding(crate::specs::Numbers::run_number, record::specs::Numbers::first, record::specs::Numbers::unless))]
pub fn check_run(s: Session, back: bool, z: Sizes, history: &[u8]) -> Result<(), Refusal>
    requires { z.history ≡ length history.now }
    ensures { number_of result ≡ run_number back s history.now z }
{
    check_steps(s, back, z)?;
    let n = crate::step::run_length(s, back, history);
    let k = crate::step::run_start(s, back, n);
    if !slots_good(s.shape, history, k, n) {
        return Err(Refusal::Slots);
    }
    Ok(())
}

// A retime: what the session carries, then its time.
#[tactic(auto, unfolding(crate::specs::Numbers::retime_number, record::specs::Numbers::first, record::specs::Numbers::unless))]
pub fn check_retime(s: Session, time: i32, z: Sizes) -> Result<(), Refusal>
    ensures { number_of result ≡ retime_number s time z }
{
    check_session(s, z)?;
    scatter::geometry::check_time(time)
}

// A take that was judged so renews the session: accepted, or refused for its forward half with flag bit 0 set.
pub fn is_renewed(shape: FieldShape, judged: Result<(), Refusal>) -> bool
    ensures { result ≡ renews shape (number_of judged) }
{
    match judged {
        Ok(()) => true,
        Err(Refusal::ForwardHalf) => record::payload::has_backward(shape),
        Err(_) => false,
    }
}
