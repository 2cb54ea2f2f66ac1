// put: one entry of one side given by hand, recorded as a step of a gesture (paper 01, 'Session'; paper 02, request 2).
ghost use Rattle.std.specs.Prelude.{◌≡◌};
ghost use Rattle.state.specs.Buffers.{out};
ghost use Rattle.state.specs.Lent.{held, SameReferences};
ghost use Rattle.state.specs.Calls.{put_of, put_done, entry_given};
ghost use Rattle.state.specs.Ready.{PutReady};

use history::Step;
use record::entry::BlockVector;
use state::lent::LentBuffers;
use state::session::{Answer, Session};

// Stores the entry and records the step.
fn put_ready(
    s: Session,
    side: u32,
    block: u32,
    v: BlockVector,
    gesture: u32,
    buffers: &mut LentBuffers<'_>,
    history: &mut [u8],
) -> Session
    requires { PutReady s block v (held buffers.old history.old) }
    ensures same_references { SameReferences buffers.new buffers.old }
    ensures made { out 0 result (held buffers.new history.new)
        ≡ put_done s side block v gesture (held buffers.old history.old) }
{
    let depth = history::depth(history.len());
    let past = s.past as usize;
    let edited = buffers::edit::edit(s, side, block as usize, v, buffers);
    let old = edited.old;
    let step = Step {
        block,
        side,
        old,
        new: v,
        gesture,
    };
    history::append(history, depth, past, step);
    state::after::recorded(edited.session, depth)
}

// Gives a block's entry on a side, as a step of a gesture: 0, or refused by 2, 3, 8, 7 or 11; refused, all stays as it was.
// The entry comes field by field, as C gives it (unit_put).
pub fn put(
    s: Session,
    side: u32,
    block: u32,
    x: i16,
    y: i16,
    sad: i32,
    luma: u8,
    gesture: u32,
    buffers: &mut LentBuffers<'_>,
    history: &mut [u8],
) -> Answer
    ensures same_references { SameReferences buffers.new buffers.old }
    ensures made { out result.number result.session (held buffers.new history.new)
        ≡ put_of s side block (entry_given x y sad luma) gesture (held buffers.old history.old) }
{
    if let Err(refusal) = state::checks::check_put(s, side, block, sad, buffers.sizes(history)) {
        return Answer::refused(refusal, s);
    }
    let v = BlockVector { x, y, sad, luma };
    Answer::accepted(put_ready(s, side, block, v, gesture, buffers, history))
}
