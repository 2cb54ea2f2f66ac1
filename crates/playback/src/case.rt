// Plays a case: opens or takes the session as it stands, and plays the calls on it and the buffers.
use crate::fill::Buffers;
use crate::given::{Case, Start};
use state::lent::LentBuffers;
use state::session::Session;

// What is left after a case: the number of its open, where it opens, the session, and how many calls were played.
// The number stands beside the session, since a refused open hands back one too.
#[derive(Clone, Copy)]
pub struct Played {
    pub number: Option<u32>,
    pub session: Session,
    pub count: usize,
}

// Opens with the case's shape, side, limits and time, or takes its session, as it says, and plays.
pub fn play(case: &Case, start: Start, calls: &[u8], buffers: &mut Buffers) -> Played {
    let s = case.session();
    let answers = &mut buffers.answers;
    let history = &mut buffers.history;
    let mut lent = LentBuffers {
        backward: &mut buffers.backward,
        forward: &mut buffers.forward,
        table: &buffers.table,
        grid: &mut buffers.grid,
        xs: &mut buffers.xs,
        ys: &mut buffers.ys,
        averages: &mut buffers.averages,
        map: &mut buffers.map,
    };
    match start {
        Start::Open => {
            let opened = player::open_and_play(
                s.shape, s.side, s.limits, s.time, calls, answers, &mut lent, history,
            );
            Played {
                number: Some(opened.number),
                session: opened.session,
                count: opened.count,
            }
        }
        Start::AsGiven => {
            let ended = player::play(s, calls, answers, &mut lent, history);
            Played {
                number: None,
                session: ended.session,
                count: ended.count,
            }
        }
    }
}
