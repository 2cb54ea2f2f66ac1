// pool: both sets renewed by those entries of two payloads that have the smaller sads (paper 02, request 3).
ghost use Rattle.std.specs.Prelude.{◌≡◌, [], ◌∷◌};
ghost use Rattle.state.specs.Buffers.{lent, out};
ghost use Rattle.state.specs.Calls.{pool_of};
ghost use Rattle.unit.specs.Answers.{kept};

use state::lent::LentBuffers;
use state::session::{Answer, Session};

// Renews both sets by the entries of two payloads that have the smaller sads, and fills all afresh.
#[unsafe(no_mangle)]
pub extern "C" fn unit_pool(
    session: Session,
    first: &[u8],
    second: &[u8],
    backward: &mut [u8],
    forward: &mut [u8],
    table: &[u8],
    grid: &mut [i32],
    xs: &mut [u16],
    ys: &mut [u16],
    averages: &mut [u8],
    map: &mut [u8],
    history: &mut [u8],
) -> Answer
    ensures { kept
        (out result.number result.session
        (lent backward.new forward.new table.now grid.new xs.new
        ys.new averages.new map.new history.new))
        (first.now ∷ second.now ∷ [])
        ≡ kept
        (pool_of session first.now second.now
        (lent backward.old forward.old table.now grid.old xs.old
        ys.old averages.old map.old history.old))
        (first.now ∷ second.now ∷ []) }
{
    let mut buffers = LentBuffers {
        backward,
        forward,
        table,
        grid,
        xs,
        ys,
        averages,
        map,
    };
    session::pool::pool(session, first, second, &mut buffers, history)
}
