// All that depends on the sets, made afresh: open, take and pool; and the grid alone: retime (paper 01, 'Session'; of the kept counts paper 02, request 1).
ghost use Rattle.std.specs.Prelude.{◌≡◌, ◌≤◌, length};
ghost use Rattle.arith.specs.Splice.{over};
ghost use Rattle.record.specs.Entries.{set_of};
ghost use Rattle.record.specs.Shape.{blocks_of, set_size, grid_size, plane_size};
ghost use Rattle.record.specs.Shape.Laws.{Accepted};
ghost use Rattle.scatter.specs.Geometry.{Timed};
ghost use Rattle.scatter.specs.Grid.{grid_of};
ghost use Rattle.maps.specs.Class.{counts_of};
ghost use Rattle.maps.specs.Map.{map_made};
ghost use Rattle.maps.specs.Planes.{planes, planes_made};
ghost use Rattle.state.specs.Buffers.{lent, sizes_of, state_of};
ghost use Rattle.state.specs.Lent.{held, SameReferences};
ghost use Rattle.state.specs.Calls.{rebuilt};
ghost use Rattle.state.specs.Ready.{SessionReady};

use maps::class::Counts;
use state::lent::LentBuffers;
use state::session::Session;

// Fills the grid afresh from the shown set at a time.
#[tactic(auto, using(scatter::specs::Geometry::Laws::time_back, scatter::specs::Geometry::Laws::timed_read, scatter::specs::Grid::Laws::grid_front), unfolding(record::specs::Entries::side_set))]
pub fn fill_grid<'a>(s: Session, time: i32, backward: &'a [u8], forward: &'a [u8], grid: &mut [i32])
    requires { Accepted s.shape × Timed time × (set_size s.shape ≤ length backward.now) × (set_size s.shape ≤ length forward.now)
        × (grid_size s.shape ≤ length grid.old) }
    ensures { grid.new
        ≡ over (grid_of s.shape time (set_of s.side backward.now forward.now)) grid.old }
{
    fast::scatter(
        s.shape,
        time,
        record::entry::set(s.shape, s.side, backward, forward),
        grid,
    );
}

// Fills what is made of the shown set: both planes and, with the averages, the map; hands back the counts of the map's scores.
#[tactic(auto, using(maps::specs::Class::Laws::counts_front, maps::specs::Map::Laws::map_front, maps::specs::Planes::Laws::planes_front), unfolding(record::specs::Entries::side_set))]
fn fill_shown<'a>(
    s: Session,
    backward: &'a [u8],
    forward: &'a [u8],
    averages: &[u8],
    xs: &mut [u16],
    ys: &mut [u16],
    map: &mut [u8],
) -> Counts
    requires { Accepted s.shape × (set_size s.shape ≤ length backward.now) × (set_size s.shape ≤ length forward.now)
        × (blocks_of s.shape ≤ length averages.now) × (plane_size s.shape ≤ length xs.old) × (plane_size s.shape ≤ length ys.old)
        × (blocks_of s.shape ≤ length map.old) }
    ensures planes { planes xs.new ys.new
        ≡ planes_made s.shape (set_of s.side backward.now forward.now) (planes xs.old ys.old) }
    ensures map { map.new
        ≡ map_made s.shape s.limits (set_of s.side backward.now forward.now) averages.now map.old }
    ensures counts { result
        ≡ counts_of s.shape s.limits (set_of s.side backward.now forward.now) averages.now }
{
    let shown = record::entry::set(s.shape, s.side, backward, forward);
    maps::planes::fill_planes(s.shape, shown, xs, ys);
    maps::judge::fill_judged(s.shape, s.limits, shown, averages, map)
}

// Fills the grid, both planes, the averages, the map and the D slots afresh from the two sets, which were replaced; hands back the session, whose lists
// are empty and whose counts are those of the map's scores. The nine buffers stay apart: the promise asks only to read the sets.
pub fn refill<'a>(
    s: Session,
    backward: &'a [u8],
    forward: &'a [u8],
    table: &[u8],
    grid: &mut [i32],
    xs: &mut [u16],
    ys: &mut [u16],
    averages: &mut [u8],
    map: &mut [u8],
    history: &mut [u8],
) -> Session
    requires { SessionReady s.shape s.time (sizes_of (lent backward.now forward.now table.now grid.old
        xs.old ys.old averages.old map.old history.old)) }
    ensures { state_of result
        (lent backward.now forward.now table.now grid.new
        xs.new ys.new averages.new map.new history.new)
        ≡ rebuilt s backward.now forward.now
        (lent backward.now forward.now table.now grid.old
        xs.old ys.old averages.old map.old history.old) }
{
    fill_grid(s, s.time, backward, forward, grid);
    maps::luma::fill_averages(s.shape, backward, forward, table, averages);
    let counts = fill_shown(s, backward, forward, averages, xs, ys, map);
    let depth = history::depth(history.len());
    history::clear(history, depth);
    state::after::renewed(s, counts)
}

// The same of buffers that are lent as one value.
pub fn rebuild(s: Session, buffers: &mut LentBuffers<'_>, history: &mut [u8]) -> Session
    requires { SessionReady s.shape s.time (sizes_of (held buffers.old history.old)) }
    ensures same_references { SameReferences buffers.new buffers.old }
    ensures rebuilt { state_of result (held buffers.new history.new)
        ≡ rebuilt s buffers.old.backward.now buffers.old.forward.now (held buffers.old history.old) }
{
    let table = buffers.table;
    let backward = &mut *buffers.backward;
    let forward = &mut *buffers.forward;
    refill(
        s,
        backward,
        forward,
        table,
        buffers.grid,
        buffers.xs,
        buffers.ys,
        buffers.averages,
        buffers.map,
        history,
    )
}
