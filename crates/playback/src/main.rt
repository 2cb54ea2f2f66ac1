// Plays the recorded lists of calls (data/lists.bin) through the proved session calls: a line for each case, then the counts.
// The file and what must be printed, `stdout`, come from host/model, a plain model of the session written apart from this code (host/README.md).
#![tactic(auto)]

mod fault; // why a file can't be played
mod file; // the file format
mod given; // what a case gives
mod fill; // what buffers hold at first
mod digest;
mod tally;
mod lines; // what is printed
mod case; // one case

use fault::{Fault, Stop};
use fill::Buffers;
use given::Case;
use std::fs::File;
use std::io;
use std::io::Read;
use std::rt::Files;
use tally::Tally;

// Reads and plays the next case, and prints its line.
fn step(
    rt: &(impl Print + AllocGlobal),
    file: &mut impl Read,
    at: u32,
    tally: &mut Tally,
) -> Result<(), Fault> {
    let case = Case::read(file)?;
    let start = case.start()?;
    let calls = file::read_calls(rt.alloc(), file, case.calls())?;
    let mut buffers = Buffers::of(rt.alloc(), &case)?;
    let played = case::play(&case, start, &calls, &mut buffers);
    if let Some(number) = played.number {
        tally.count(number);
    }
    tally.count_calls(buffers.answers.get(..played.count).unwrap_or(&[]));
    lines::print_case(rt, at, &played, &buffers)?;
    Ok(())
}

// Plays the cases of a file, which must end behind the last.
fn play(rt: &(impl Print + AllocGlobal), file: &mut impl Read) -> Result<Tally, Stop> {
    let mut tally = Tally::default();
    tally.cases = file::read_count(file)?;
    for at in 0..tally.cases {
        let case = at + 1;
        if let Err(fault) = step(rt, file, case, &mut tally) {
            return Err(Stop {
                case: Some(case),
                fault,
            });
        }
    }
    file::check_end(file)?;
    Ok(tally)
}

fn open_and_play(rt: &(impl Files + Print + AllocGlobal)) -> Result<Tally, Stop> {
    match File::open(rt, "lists.bin") {
        Ok(mut file) => play(rt, &mut file),
        Err(_) => Err(Stop::from(Fault::Unopened)),
    }
}

fn main(rt: HostRuntime) -> io::Result<()> {
    match open_and_play(&rt) {
        Ok(tally) => lines::print_last(&rt, &tally),
        Err(
            Stop {
                fault: Fault::System(error),
                ..
            },
        ) => Err(error),
        Err(stop) => lines::print_stop(&rt, stop),
    }
}
