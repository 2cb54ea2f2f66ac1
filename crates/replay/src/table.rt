// The table: for each call its cases and differences, and its damaged cases and those found.
use std::io;

// One call's file, replayed.
#[derive(Clone, Copy, Default)]
pub struct Tally {
    pub cases: usize,
    pub differences: usize,
}

pub fn print_head(rt: &impl Print) -> io::Result<()> {
    rt.println("call               cases differences     damaged       found")
}

// A call's name at the left of twelve columns, and each number at the right of twelve.
pub fn print_line(rt: &impl Print, name: &str, recorded: Tally, damaged: Tally) -> io::Result<()> {
    println!(rt;
        "{name:<12}{:>12}{:>12}{:>12}{:>12}",
        recorded.cases, recorded.differences, damaged.cases, damaged.differences
    )
}
