// put: one entry by hand (paper 01, 'Session'; paper 02, request 2).
ghost use Rattle.std.specs.Prelude.{◌≡◌};
ghost use Rattle.state.specs.Buffers.{lent, out};
ghost use Rattle.state.specs.Calls.{put_of, entry_given};

use state::lent::LentBuffers;
use state::session::{Answer, Session};

// One entry of one side by hand: a step of a gesture.
#[unsafe(no_mangle)]
pub extern "C" fn unit_put(
    session: Session,
    side: u32,
    block: u32,
    x: i16,
    y: i16,
    sad: i32,
    luma: u8,
    gesture: u32,
    backward: &mut [u8],
    forward: &mut [u8],
    table: &[u8],
    grid: &mut [i32],
    xs: &mut [u16],
    ys: &mut [u16],
    averages: &mut [u8],
    map: &mut [u8],
    history: &mut [u8],
) -> Answer
    ensures { out result.number result.session
        (lent backward.new forward.new table.now grid.new xs.new
        ys.new averages.new map.new history.new)
        ≡ put_of session side block (entry_given x y sad luma) gesture
        (lent backward.old forward.old table.now grid.old xs.old
        ys.old averages.old map.old history.old) }
{
    let mut buffers = LentBuffers {
        backward,
        forward,
        table,
        grid,
        xs,
        ys,
        averages,
        map,
    };
    session::put::put(
        session,
        side,
        block,
        x,
        y,
        sad,
        luma,
        gesture,
        &mut buffers,
        history,
    )
}
