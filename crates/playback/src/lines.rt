// The lines that are printed.
use crate::case::Played;
use crate::digest::{of_answers, of_bytes, of_grid, of_plane, of_session};
use crate::fault::Stop;
use crate::fill::Buffers;
use crate::tally::Tally;
use std::io;

// A case's number, that of its open or `-`, and how many calls were played.
fn print_open(rt: &impl Print, case: u32, played: &Played) -> io::Result<()> {
    match played.number {
        Some(number) => print!(rt; "case {case}: open {number}, calls {}", played.count),
        None => print!(rt; "case {case}: open -, calls {}", played.count),
    }
}

// The session that is left; the number that its kept class answers, 0 for accepted, and the class, 0 where it is refused.
fn print_session(rt: &impl Print, played: &Played) -> io::Result<()> {
    let (number, class) = match state::kept::kept_class(played.session) {
        Ok(class) => (0, class),
        Err(refusal) => (refusal.code(), 0),
    };
    print!(rt;
        ", session {} K{number}.{class}",
        of_session(played.session)
    )
}

fn print_given(rt: &impl Print, buffers: &Buffers) -> io::Result<()> {
    print!(rt;
        ", answers {}, backward {}, forward {}, table {}",
        of_answers(&buffers.answers),
        of_bytes(&buffers.backward),
        of_bytes(&buffers.forward),
        of_bytes(&buffers.table)
    )
}

fn print_made(rt: &impl Print, buffers: &Buffers) -> io::Result<()> {
    print!(rt;
        ", grid {}, xs {}, ys {}",
        of_grid(&buffers.grid),
        of_plane(&buffers.xs),
        of_plane(&buffers.ys)
    )?;
    println!(rt;
        ", averages {}, map {}, history {}",
        of_bytes(&buffers.averages),
        of_bytes(&buffers.map),
        of_bytes(&buffers.history)
    )
}

// A case's line: what was played, and what the session and the buffers are after it.
pub fn print_case(
    rt: &impl Print,
    case: u32,
    played: &Played,
    buffers: &Buffers,
) -> io::Result<()> {
    print_open(rt, case, played)?;
    print_session(rt, played)?;
    print_given(rt, buffers)?;
    print_made(rt, buffers)
}

// The last line: cases, calls, and how often each refusal was answered.
pub fn print_last(rt: &impl Print, tally: &Tally) -> io::Result<()> {
    print!(rt; "{} cases, {} calls, refusals", tally.cases, tally.calls)?;
    for (number, times) in tally.numbers.iter().enumerate().skip(2) {
        print!(rt; " {number}:{times}")?;
    }
    rt.print("\n")
}

// Why the file can't be played to its end.
pub fn print_stop(rt: &impl Print, stop: Stop) -> io::Result<()> {
    let fault = stop.fault;
    match stop.case {
        Some(case) => println!(rt; "lists.bin: case {case} {fault}"),
        None => println!(rt; "lists.bin {fault}"),
    }
}
