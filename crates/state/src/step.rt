// What undo and redo differ in: `back` is true of undo, which uses the run of the latest past steps with one gesture, and false of redo, which uses the
// run of the next future ones (paper 01, 'Session'; paper 02, request 2).
// It stays a bool: the definitions `steps_of` to `run_of`, and theorems over them, speak of one.
ghost use Rattle.std.specs.Prelude.{◌≡◌, ◌+◌, ◌*◌, ◌≤◌, length};
ghost use Rattle.record.specs.Refusals.{code};
ghost use Rattle.history.specs.History.{slot_size, depth_most};
ghost use Rattle.state.specs.Steps.{steps_of, no_step_number, run_length, run_start, slot_used, entry_used, step_moved};

use crate::after::with_steps;
use crate::session::Session;
use history::Step;
use record::entry::BlockVector;
use record::refusal::Refusal;

// How many steps there are to use.
pub fn steps(s: Session, back: bool) -> u32
    ensures { result ≡ steps_of back s }
{
    if back { s.past } else { s.future }
}

// The refusal where there is none.
pub fn no_step(back: bool) -> Refusal
    ensures { code result ≡ no_step_number back }
{
    if back {
        Refusal::NothingPast
    } else {
        Refusal::NothingFuture
    }
}

// How many of them are used: those of the run.
pub fn run_length(s: Session, back: bool, history: &[u8]) -> usize
    requires { slot_size * (s.past + s.future) ≤ length history.now }
    ensures { result ≡ run_length back s history.now }
{
    let past = s.past as usize;
    if back {
        runs::run_back(history, past)
    } else {
        runs::run_ahead(history, past, s.future as usize)
    }
}

// The lowest slot of a run of n.
pub fn run_start(s: Session, back: bool, n: usize) -> usize
    requires { n ≤ steps_of back s }
    ensures { result ≡ run_start back s n }
{
    let past = s.past as usize;
    if back { past - n } else { past }
}

// The slot of the step that is used.
pub fn slot_used(s: Session, back: bool) -> usize
    requires { 1 ≤ steps_of back s }
    ensures { result ≡ slot_used back s }
{
    let past = s.past as usize;
    if back { past - 1 } else { past }
}

// The entry that its block gets.
pub fn entry_used(step: Step, back: bool) -> BlockVector
    ensures { result ≡ entry_used back step }
{
    if back { step.old } else { step.new }
}

// The session afterwards: undo's step is a future one, redo's a past one.
#[tactic(auto, unfolding(crate::specs::Steps::step_moved))]
pub fn step_moved(s: Session, back: bool) -> Session
    requires { (1 ≤ steps_of back s) × (s.past + s.future ≤ depth_most) }
    ensures { result ≡ step_moved back s }
{
    if back {
        with_steps(s, s.past - 1, s.future + 1)
    } else {
        with_steps(s, s.past + 1, s.future - 1)
    }
}
