// Reading a file of cases.
use std::alloc::Global;
use std::io;
use std::io::Read;

// Room for the largest file; what lies behind it is not read.
const ROOM: u64 = 327680;

pub fn read(alloc: Global, file: impl Read + Drop) -> io::Result<Vec<u8>> {
    let mut bytes = Vec::new(alloc);
    file.take(ROOM).read_to_end(&mut bytes)?;
    Ok(bytes)
}
