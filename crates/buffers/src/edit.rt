// One entry stored, and what depends on it patched: put, undo and redo (paper 01, 'Session'; of the kept counts paper 02, request 1).
ghost use Rattle.std.specs.Prelude.{◌≡◌, cond, [], ◌+◌, ◌*◌, ◌≤◌, eqb, length};
ghost use Rattle.record.specs.Entries.{entry_at, with_entry, Holds, set_of};
ghost use Rattle.scatter.specs.Added.{patched};
ghost use Rattle.maps.specs.Luma.{average_patched};
ghost use Rattle.maps.specs.Map.{map_patched};
ghost use Rattle.maps.specs.Kept.{score_from};
ghost use Rattle.maps.specs.Planes.{planes, planes_patched};
ghost use Rattle.state.specs.Buffers.{sizes_of, state_of};
ghost use Rattle.state.specs.Lent.{held, SameReferences};
ghost use Rattle.state.specs.Calls.{edited_backward, edited_forward, edited};
ghost use Rattle.state.specs.Ready.{EditReady, ShownReady, JudgedReady};

use record::entry::BlockVector;
use state::lent::LentBuffers;
use state::session::Session;

// What an edit hands back: the session, and the entry that stood there.
#[derive(Clone, Copy)]
pub struct Edited {
    pub session: Session,
    pub old: BlockVector,
}

// Stores an entry in a set, and hands back the one that stood there.
#[tactic(auto, using(record::specs::Entries::Again::entry_holds))]
fn replace(set: &mut [u8], block: usize, v: BlockVector) -> BlockVector
    requires { (8 * block + 8 ≤ length set.old) × Holds v }
    ensures old { result ≡ entry_at set.old block }
    ensures holds { Holds result }
    ensures set { set.new ≡ with_entry set.old block v }
{
    let old = record::entry::read(set, block);
    record::entry::write(set, block, v);
    old
}

// The same in the set of a side.
#[tactic(auto, unfolding(record::specs::Entries::set_of))]
fn store(
    side: u32,
    block: usize,
    v: BlockVector,
    backward: &mut [u8],
    forward: &mut [u8],
) -> BlockVector
    requires { (8 * block + 8 ≤ length backward.old) × (8 * block + 8 ≤ length forward.old) × Holds v }
    ensures old { result ≡ entry_at (set_of side backward.old forward.old) block }
    ensures holds { Holds result }
    ensures backward { backward.new ≡ edited_backward side block v backward.old }
    ensures forward { forward.new ≡ edited_forward side block v forward.old }
{
    if side == 1 {
        replace(backward, block, v)
    } else {
        replace(forward, block, v)
    }
}

// This and the next take those buffers alone that they read and write.
// On the shown side: the old entry's products taken from the grid, the new one's added, and the block's plane cells worked out anew.
#[tactic(auto, using(scatter::specs::Geometry::Laws::time_back), unfolding(record::specs::Entries::side_set))]
fn patch_shown<'a>(
    s: Session,
    side: u32,
    block: usize,
    old: BlockVector,
    new: BlockVector,
    backward: &'a [u8],
    forward: &'a [u8],
    grid: &mut [i32],
    xs: &mut [u16],
    ys: &mut [u16],
)
    requires { ShownReady s.shape s.time block (length backward.now) (length forward.now) (length grid.old) (length xs.old) (length ys.old) }
    ensures grid { grid.new
        ≡ cond (eqb side s.side) (patched s.shape s.time block old new grid.old) grid.old }
    ensures planes { planes xs.new ys.new
        ≡ cond (eqb side s.side)
        (planes_patched s.shape (set_of s.side backward.now forward.now) block (planes xs.old ys.old))
        (planes xs.old ys.old) }
{
    if side != s.side {
        return;
    }
    scatter::patch::patch(s.shape, s.time, block, old, new, grid);
    maps::planes::patch_planes(
        s.shape,
        record::entry::set(s.shape, s.side, backward, forward),
        block,
        xs,
        ys,
    );
}

// On either side: the block's average, then its map byte; answers the block's score.
#[tactic(auto, using(maps::specs::Change::map_by_entry, record::specs::Entries::Again::entry_front), unfolding(record::specs::Entries::side_set))]
fn patch_judged<'a>(
    s: Session,
    block: usize,
    backward: &'a [u8],
    forward: &'a [u8],
    table: &[u8],
    averages: &mut [u8],
    map: &mut [u8],
) -> i32
    requires { JudgedReady s.shape block (length backward.now) (length forward.now) (length table.now) (length averages.old) (length map.old) }
    ensures score { result ≡ score_from table.now s.side backward.now forward.now block }
    ensures averages { averages.new
        ≡ average_patched table.now backward.now forward.now block averages.old }
    ensures map { map.new
        ≡ map_patched s.limits (set_of s.side backward.now forward.now)
        (average_patched table.now backward.now forward.now block averages.old)
        block map.old }
{
    maps::luma::patch_average(backward, forward, table, block, averages);
    maps::map::patch_map(
        s.limits,
        record::entry::set(s.shape, s.side, backward, forward),
        averages,
        block,
        map,
    )
}

// One entry of one side becomes v, and what depends on it follows. The history is no part of this.
pub fn edit(
    s: Session,
    side: u32,
    block: usize,
    v: BlockVector,
    buffers: &mut LentBuffers<'_>,
) -> Edited
    requires { EditReady s block v (held buffers.old []) }
    ensures same_references { SameReferences buffers.new buffers.old }
    ensures same_sizes { sizes_of (held buffers.new []) ≡ sizes_of (held buffers.old []) }
    ensures old { result.old
        ≡ entry_at (set_of side buffers.old.backward.now buffers.old.forward.now) block }
    ensures holds { Holds result.old }
    ensures edited { state_of result.session (held buffers.new [])
        ≡ edited s side block v (held buffers.old []) }
{
    let table = buffers.table;
    let backward = &mut *buffers.backward;
    let forward = &mut *buffers.forward;
    let before = maps::kept::score_from(s.shape, s.side, backward, forward, table, block);
    let old = store(side, block, v, backward, forward);
    patch_shown(
        s,
        side,
        block,
        old,
        v,
        backward,
        forward,
        buffers.grid,
        buffers.xs,
        buffers.ys,
    );
    let after = patch_judged(
        s,
        block,
        backward,
        forward,
        table,
        buffers.averages,
        buffers.map,
    );
    let session = state::after::kept_moved(s, before, after);
    Edited { session, old }
}
