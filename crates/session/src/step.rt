// One step of undo or redo: the last past step taken back, or the next future one brought back (paper 01, 'Session'). `back` is true of undo.
ghost use Rattle.std.specs.Prelude.{◌≡◌};
ghost use Rattle.state.specs.Buffers.{sizes_of, out};
ghost use Rattle.state.specs.Lent.{held, SameReferences};
ghost use Rattle.state.specs.Calls.{step_done};
ghost use Rattle.state.specs.Ready.{StepReady};

use state::lent::LentBuffers;
use state::session::Session;

// Gives one of the step's entries to its block; no slot is written.
pub fn step_ready(s: Session, back: bool, buffers: &mut LentBuffers<'_>, history: &[u8]) -> Session
    requires { StepReady back s (held buffers.old history.now) }
    ensures same_references { SameReferences buffers.new buffers.old }
    ensures same_sizes { sizes_of (held buffers.new history.now)
        ≡ sizes_of (held buffers.old history.now) }
    ensures made { out 0 result (held buffers.new history.now)
        ≡ step_done back s (held buffers.old history.now) }
{
    let k = state::step::slot_used(s, back);
    let p = history::read(history, k);
    let v = state::step::entry_used(p, back);
    let edited = buffers::edit::edit(s, p.side, p.block as usize, v, buffers);
    state::step::step_moved(edited.session, back)
}
