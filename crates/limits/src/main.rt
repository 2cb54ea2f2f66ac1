// The limits of `vector_data`, `check_shape` and `update` (paper 01): a row for each, with what the call answers.
#![tactic(auto)]

mod bytes; // i32s put into bytes, and sums of bytes
mod data; // vector_data: length, first i32, offsets
mod shape; // check_shape: one step outside a limit, and the limit
mod update; // update: payloads, sets and shapes, and what is written

use std::io;

fn main(rt: HostRuntime) -> io::Result<()> {
    data::rows(&rt)?;
    shape::rows(&rt)?;
    update::rows(&rt)
}
