// undo and redo: the run of the latest past steps with one gesture taken back, and the run of the next future ones brought back (paper 01, 'Session';
// paper 02, request 2). `back` is true of undo.
ghost use Rattle.std.specs.Prelude.{◌≡◌};
ghost use Rattle.state.specs.Buffers.{out};
ghost use Rattle.state.specs.Lent.{held, SameReferences};
ghost use Rattle.state.specs.Calls.{run_of, run_done};
ghost use Rattle.state.specs.Ready.{RunReady};
ghost use Rattle.state.specs.Steps.{run_length};

use state::lent::LentBuffers;
use state::session::{Answer, Session};

// Uses the run's steps one by one: the latest past one or the next future one first.
fn run_ready(s: Session, back: bool, buffers: &mut LentBuffers<'_>, history: &[u8]) -> Session
    requires { RunReady back (run_length back s history.now) s (held buffers.old history.now) }
    ensures same_references { SameReferences buffers.new buffers.old }
    ensures made { out 0 result (held buffers.new history.now)
        ≡ run_done back s (held buffers.old history.now) }
{
    let length = state::step::run_length(s, back, history);
    let mut current = s;
    for _ in 0..length {
        current = crate::step::step_ready(current, back, buffers, history);
    }
    current
}

// Answers 0, or is refused by 2, 3, 8, 7, 9 (undo: no step), 10 (redo: no step) or 11; refused, all stays as it was.
pub fn run(s: Session, back: bool, buffers: &mut LentBuffers<'_>, history: &[u8]) -> Answer
    ensures same_references { SameReferences buffers.new buffers.old }
    ensures made { out result.number result.session (held buffers.new history.now)
        ≡ run_of back s (held buffers.old history.now) }
{
    if let Err(refusal) = state::checks::check_run(s, back, buffers.sizes(history), history) {
        return Answer::refused(refusal, s);
    }
    Answer::accepted(run_ready(s, back, buffers, history))
}
