// pool: of two payloads' entries those with the smaller sad, and all that depends on them made afresh (paper 02, request 3).
ghost use Rattle.std.specs.Prelude.{◌≡◌};
ghost use Rattle.state.specs.Buffers.{out};
ghost use Rattle.state.specs.Lent.{held, SameReferences};
ghost use Rattle.state.specs.Calls.{pool_of, pool_done};
ghost use Rattle.state.specs.Ready.{PoolReady};

use state::lent::LentBuffers;
use state::session::{Answer, Session};

// Pools two accepted payloads into the sets, empties the lists and fills all afresh.
fn pool_ready(
    s: Session,
    first: &[u8],
    second: &[u8],
    buffers: &mut LentBuffers<'_>,
    history: &mut [u8],
) -> Session
    requires { PoolReady s first.now second.now (held buffers.old history.old) }
    ensures same_references { SameReferences buffers.new buffers.old }
    ensures made { out 0 result (held buffers.new history.new)
        ≡ pool_done s first.now second.now (held buffers.old history.old) }
{
    pooling::sets::pool_sets(s.shape, first, second, buffers.backward, buffers.forward);
    buffers::rebuild::rebuild(s, buffers, history)
}

// Answers 0, or is refused by 2, 3, 8, 7, by 4, 5 or 6 of the first payload, or by 4, 5 or 6 of the second; refused, all stays as it was.
pub fn pool(
    s: Session,
    first: &[u8],
    second: &[u8],
    buffers: &mut LentBuffers<'_>,
    history: &mut [u8],
) -> Answer
    ensures same_references { SameReferences buffers.new buffers.old }
    ensures made { out result.number result.session (held buffers.new history.new)
        ≡ pool_of s first.now second.now (held buffers.old history.old) }
{
    if let Err(refusal) = state::checks::check_pool(s, first, second, buffers.sizes(history)) {
        return Answer::refused(refusal, s);
    }
    Answer::accepted(pool_ready(s, first, second, buffers, history))
}
