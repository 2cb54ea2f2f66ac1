// One call of a session from a decoded command: what reads a list's records, a page or a script makes a `Command`, and calls the session here.
#![tactic(auto)]

ghost use Rattle.std.specs.Prelude.{◌≡◌};
ghost use Rattle.state.specs.Buffers.{out};
ghost use Rattle.state.specs.Calls.{retime_of};
ghost use Rattle.state.specs.Lent.{held, SameReferences};
ghost use Rattle.machine.specs.Play.{call_of};
ghost use Rattle.command.specs.Commands.{commanded};

use state::lent::LentBuffers;
use state::session::{Answer, Session};

// A call with its arguments. The payload of a take and the two of a pool are lent beside it.
#[derive(Clone, Copy)]
pub enum Command {
    Take,
    Put {
        side: u32,
        block: u32,
        x: i16,
        y: i16,
        sad: i32,
        luma: u8,
        gesture: u32,
    },
    Undo,
    Redo,
    Retime {
        time: i32,
    },
    Pool,
}

// A retime, to which all but the grid is lent to read.
fn retime(s: Session, time: i32, buffers: &mut LentBuffers<'_>, history: &[u8]) -> Answer
    ensures same_references { SameReferences buffers.new buffers.old }
    ensures made { out result.number result.session (held buffers.new history.now)
        ≡ retime_of s time (held buffers.old history.now) }
{
    let table = buffers.table;
    let backward = &mut *buffers.backward;
    let forward = &mut *buffers.forward;
    let grid = &mut *buffers.grid;
    let xs = &mut *buffers.xs;
    let ys = &mut *buffers.ys;
    let averages = &mut *buffers.averages;
    let map = &mut *buffers.map;
    session::retime::retime(
        s, time, backward, forward, table, grid, xs, ys, averages, map, history,
    )
}

// Makes the call on the buffers; `first` is a take's payload, or with `second` a pool's two.
#[tactic(auto, unfolding(crate::specs::Commands::commanded, machine::specs::Play::call_of))]
pub fn call(
    s: Session,
    command: Command,
    first: &[u8],
    second: &[u8],
    buffers: &mut LentBuffers<'_>,
    history: &mut [u8],
) -> Answer
    ensures same_references { SameReferences buffers.new buffers.old }
    ensures made { out result.number result.session (held buffers.new history.new)
        ≡ call_of (commanded command first.now second.now) s (held buffers.old history.old) }
{
    match command {
        Command::Take => session::take::take(s, first, buffers, history),
        Command::Put {
            side,
            block,
            x,
            y,
            sad,
            luma,
            gesture,
        } => session::put::put(s, side, block, x, y, sad, luma, gesture, buffers, history),
        Command::Undo => session::run::run(s, true, buffers, history),
        Command::Redo => session::run::run(s, false, buffers, history),
        Command::Retime { time } => retime(s, time, buffers, history),
        Command::Pool => session::pool::pool(s, first, second, buffers, history),
    }
}
