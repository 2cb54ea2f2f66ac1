// Replays the recorded answers of the unchanged Rust: a line for each call, with its cases and how many of them differ,
// then how many damaged copies of cases there are and how many of those were found. What a call but update is lent to write
// holds 7s at first, so that what it leaves unwritten differs.
#![tactic(auto)]

mod answers; // the file format
mod failure; // why a case differs
mod file; // reading
mod given; // what a case gives to a call
mod avg_luma;
mod masked;
mod pack;
mod quality;
mod update;
mod vector_data;
mod table; // the lines that are printed

use failure::Failure;
use std::alloc::{AllocError, Global};
use std::fs::File;
use std::io;
use std::rt::Files;
use table::Tally;

// Every case of a file, checked. A file that is cut, or goes on behind its last case, counts as one difference more.
fn replay<F: Fn(Global, &[u8]) -> Result<(), Failure>>(
    alloc: Global,
    file: &[u8],
    check: F,
) -> Result<Tally, AllocError>
    requires { F.IsAlwaysCallable check }
{
    let count = answers::size_at(file, 0);
    let mut rest = file.get(4..);
    let mut cases = 0;
    let mut differences = 0;
    for turn in 0..count {
        let Some(bytes) = rest.filter(|bytes| !bytes.is_empty()) else {
            break;
        };
        let (case, after) = answers::piece(bytes);
        rest = after;
        cases += 1;
        match check(alloc, case) {
            Ok(()) => {}
            Err(Failure::Differs) => differences += 1,
            Err(Failure::Memory(error)) => return Err(error),
        }
    }
    if cases < count || !rest.is_some_and(|bytes| bytes.is_empty()) {
        differences += 1;
    }
    Ok(Tally { cases, differences })
}

// A call's file, replayed; one that can't be opened has no case.
fn tally<F: Fn(Global, &[u8]) -> Result<(), Failure>>(
    rt: &(impl Files + Eprint + AllocGlobal),
    path: &str,
    check: F,
) -> io::Result<Tally>
    requires { F.IsAlwaysCallable check }
{
    match File::open(rt, path) {
        Ok(file) => Ok(replay(rt.alloc(), &file::read(rt.alloc(), file)?, check)?),
        Err(error) => {
            eprintln!(rt; "{path}: {error}")?;
            Ok(Tally::default())
        }
    }
}

// A call's line: the recorded cases of a file, and its damaged ones, each of which must be found.
fn run<F: Fn(Global, &[u8]) -> Result<(), Failure> + Copy>(
    rt: &(impl Files + Print + Eprint + AllocGlobal),
    name: &str,
    file: &str,
    check: F,
) -> io::Result<()>
    requires { F.IsAlwaysCallable check }
{
    let answers = format!(in rt.alloc(); "{file}.answers")?;
    let recorded = tally(rt, &answers, check)?;
    let damaged = format!(in rt.alloc(); "{file}.damaged")?;
    let found = tally(rt, &damaged, check)?;
    table::print_line(rt, name, recorded, found)
}

fn main(rt: HostRuntime) -> io::Result<()> {
    table::print_head(&rt)?;
    run(&rt, "vector_data", "vector_data", vector_data::check)?;
    run(&rt, "update", "update", update::check)?;
    run(&rt, "scatter", "scatter", masked::check_scatter)?;
    run(&rt, "plain", "scatter", masked::check_plain)?;
    run(&rt, "pack", "pack", pack::check)?;
    run(&rt, "avg_luma", "avg_luma", avg_luma::check)?;
    run(&rt, "quality_map", "quality_map", quality::check_map)?;
    run(&rt, "quality", "quality", quality::check_class)?;
    run(&rt, "cover_mask", "cover_mask", masked::check_cover)?;
    run(&rt, "sad_mask", "sad_mask", masked::check_sad)
}
