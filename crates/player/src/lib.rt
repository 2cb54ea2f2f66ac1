// Plays a list of calls from bytes on a session and its buffers, and writes the number that each call answers (demand 3, for code).
#![tactic(auto)]

ghost use Rattle.std.specs.Prelude.{◌≡◌, ◌-◌, ◌≤◌, ◌<◌, length, drop};
ghost use Rattle.state.specs.Lent.{held, SameReferences};
ghost use Rattle.record.specs.Bytes.{byte_at};
ghost use Rattle.command.specs.Commands.{kind_of};
ghost use Rattle.player.specs.Records.{found, whole_size, take_size, pool_size, record_size, next_size, command_in, head_size, first_end};
ghost use Rattle.player.specs.Played.{After, played_of, Begun, begun_of};

use command::Command;
use maps::map::SceneLimits;
use record::shape::FieldShape;
use state::lent::LentBuffers;
use state::session::{Answer, Session};

// What is left after a list: the session, and how many calls were played.
#[derive(Clone, Copy)]
pub struct Ended {
    pub session: Session,
    pub count: usize,
}

// The same after an open: its number too. A number beside the session, and no Result, since a refused open hands back a session too (`begun_of`).
#[derive(Clone, Copy)]
pub struct Opened {
    pub number: u32,
    pub session: Session,
    pub count: usize,
}

// A record of `size` bytes, where so many are there.
#[tactic(auto, unfolding(crate::specs::Records::found, crate::specs::Records::whole_size))]
fn whole(there: usize, size: usize) -> Option<usize>
    requires { 0 < size }
    ensures { result ≡ found (whole_size there size) }
{
    if size <= there { Some(size) } else { None }
}

// The bytes of a take's record.
#[tactic(auto, unfolding(crate::specs::Records::found, crate::specs::Records::take_size))]
fn take_size(list: &[u8]) -> Option<usize>
    ensures { result ≡ found (take_size list.now) }
{
    if list.len() < 5 {
        return None;
    }
    let payload = record::fields::u32_at(list, 1) as usize;
    whole(list.len(), 5 + payload)
}

// The bytes of a pool's record.
#[tactic(auto, unfolding(crate::specs::Records::found, crate::specs::Records::pool_size))]
fn pool_size(list: &[u8]) -> Option<usize>
    ensures { result ≡ found (pool_size list.now) }
{
    if list.len() < 9 {
        return None;
    }
    let first = record::fields::u32_at(list, 1) as usize;
    let second = record::fields::u32_at(list, 5) as usize;
    whole(list.len(), 9 + first + second)
}

// The bytes of the record that a list begins with; none where its kind is unknown or it is cut short.
#[tactic(auto, unfolding(crate::specs::Records::found, crate::specs::Records::record_size, command::specs::Commands::by_kind))]
fn record_size(list: &[u8]) -> Option<usize>
    ensures { result ≡ found (record_size list.now) }
{
    match *list.first()? {
        1 => take_size(list),
        2 => whole(list.len(), 22),
        3 | 4 => Some(1),
        5 => whole(list.len(), 5),
        6 => pool_size(list),
        _ => None,
    }
}

// The command of the record that a list begins with.
#[tactic(auto, using(crate::specs::Records::Laws::record_there, crate::specs::Records::Laws::put_there, crate::specs::Records::Laws::retime_there), unfolding(crate::specs::Records::command_in, crate::specs::Records::put_in, command::specs::Commands::put_command, command::specs::Commands::retime_command, command::specs::Commands::plain_command, command::specs::Commands::by_kind))]
fn decoded(list: &[u8]) -> Command
    requires { 0 < record_size list.now }
    ensures { result ≡ command_in list.now }
{
    match list[0] {
        1 => Command::Take,
        2 => Command::Put {
            side: record::fields::u32_at(list, 1),
            block: record::fields::u32_at(list, 5),
            x: record::fields::i16_at(list, 9),
            y: record::fields::i16_at(list, 11),
            sad: record::fields::i32_at(list, 13),
            luma: list[17],
            gesture: record::fields::u32_at(list, 18),
        },
        3 => Command::Undo,
        4 => Command::Redo,
        5 => Command::Retime {
            time: record::fields::i32_at(list, 1),
        },
        _ => Command::Pool, // 6: a record that begins is of a known kind
    }
}

// The bytes before a command's payload.
#[tactic(auto, unfolding(crate::specs::Records::head_size, command::specs::Commands::kind_of))]
fn head_size(command: Command) -> usize
    ensures { result ≡ head_size (kind_of command) }
{
    match command {
        Command::Pool => 9,
        _ => 5,
    }
}

// Where the first payload of a record of `size` bytes ends.
#[tactic(auto, using(crate::specs::Records::Laws::pool_there), unfolding(crate::specs::Records::first_end, command::specs::Commands::kind_of))]
fn first_end(list: &[u8], command: Command, size: usize) -> usize
    requires begins { 0 < record_size list.now }
    requires size { size ≡ record_size list.now }
    requires kind { kind_of command ≡ byte_at list.now 0 }
    ensures { result ≡ first_end list.now }
{
    match command {
        Command::Pool => 9 + record::fields::u32_at(list, 1) as usize,
        _ => size,
    }
}

// The size of the record at `at`, where one more answer has room.
#[tactic(auto, using(crate::specs::Records::Laws::next_some, crate::specs::Records::Laws::next_full, arith::specs::Splice::Laws::take_rest), unfolding(crate::specs::Records::found))]
fn next_size(list: &[u8], at: usize, count: usize, room: usize) -> Option<usize>
    requires { at ≤ length list.now }
    ensures { result ≡ found (next_size (drop at list.now) (room - count)) }
{
    if count < room {
        record_size(&list[at..])
    } else {
        None
    }
}

// Plays the calls of a list, from the first on, each on session and buffers as the one before left them, and writes their numbers. The list ends
// where its bytes end, at a record that is cut short or whose kind is unknown, and where the answers are full; later answers stay.
pub fn play(
    s: Session,
    list: &[u8],
    answers: &mut [u32],
    buffers: &mut LentBuffers<'_>,
    history: &mut [u8],
) -> Ended
    ensures same_references { SameReferences buffers.new buffers.old }
    ensures made { ◌≡◌ {A = After}
        (record {
          count = result.count;
          session = result.session;
          answers = answers.new;
          buffers = held buffers.new history.new;
        })
        (played_of s list.now answers.old (held buffers.old history.old)) }
{
    // No `for` over the answers: the list ends it too, and `at` would still be counted.
    let room = answers.len();
    let mut current = s;
    let mut at = 0;
    let mut count = 0;
    while let Some(size) = next_size(list, at, count, room) {
        let command = decoded(&list[at..]);
        let first = first_end(&list[at..], command, size);
        let start = at + head_size(command).min(first);
        let middle = at + first;
        let end = at + size;
        let payload = &list[start..middle];
        let second = &list[middle..end];
        let answer = command::call(current, command, payload, second, buffers, history);
        answers[count] = answer.number;
        current = answer.session;
        at = end;
        count += 1;
    }
    Ended {
        session: current,
        count,
    }
}

// Opens a session on the buffers and plays a list on it: after an accepted open, answers, session and buffers are the machine's. Refused,
// nothing is played and nothing is written.
pub fn open_and_play(
    shape: FieldShape,
    side: u32,
    limits: SceneLimits,
    time: i32,
    list: &[u8],
    answers: &mut [u32],
    buffers: &mut LentBuffers<'_>,
    history: &mut [u8],
) -> Opened
    ensures same_references { SameReferences buffers.new buffers.old }
    ensures made { ◌≡◌ {A = Begun}
        (record {
          number = result.number;
          after = record {
            count = result.count;
            session = result.session;
            answers = answers.new;
            buffers = held buffers.new history.new;
          };
        })
        (begun_of shape side limits time list.now answers.old (held buffers.old history.old)) }
{
    let opened = session::open::open(shape, side, limits, time, buffers, history);
    let Answer { number, session } = opened;
    if number != 0 {
        return Opened {
            number,
            session,
            count: 0,
        };
    }
    let Ended { session, count } = play(session, list, answers, buffers, history);
    Opened {
        number: 0,
        session,
        count,
    }
}
