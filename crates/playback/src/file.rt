// The file of recorded lists (host/README.md): a count, and for each case 37 numbers and its calls.
use crate::fault::Fault;
use std::alloc::Global;
use std::io::{ErrorKind, Read};

// The numbers of a case.
pub const NUMBERS: usize = 37;

// The bytes of so many.
const HEAD: usize = 148;

// Reads as many bytes as the space has.
fn read_full(file: &mut impl Read, space: &mut [u8]) -> Result<(), Fault> {
    match file.read_exact(space) {
        Ok(()) => Ok(()),
        Err(error) => match error.kind() {
            ErrorKind::UnexpectedEof => Err(Fault::CutShort),
            _ => Err(Fault::System(error)),
        },
    }
}

// The count of cases.
pub fn read_count(file: &mut impl Read) -> Result<u32, Fault> {
    let mut bytes = [0u8; 4];
    read_full(file, &mut bytes)?;
    Ok(u32::from_le_bytes(bytes))
}

// A case's numbers.
pub fn read_numbers(file: &mut impl Read) -> Result<[u32; NUMBERS], Fault> {
    let mut bytes = [0u8; HEAD];
    read_full(file, &mut bytes)?;
    let mut numbers = [0u32; NUMBERS];
    let (each, _) = bytes.as_chunks::<4>();
    for (number, four) in numbers.iter_mut().zip(each) {
        *number = u32::from_le_bytes(*four);
    }
    Ok(numbers)
}

// A case's calls, so many bytes behind its numbers.
pub fn read_calls(alloc: Global, file: &mut impl Read, size: usize) -> Result<Vec<u8>, Fault> {
    let mut calls = vec![in alloc; 0u8; size]?;
    read_full(file, &mut calls)?;
    Ok(calls)
}

// The file ends here.
pub fn check_end(file: &mut impl Read) -> Result<(), Fault> {
    let mut more = [0u8; 1];
    match file.read(&mut more)? {
        0 => Ok(()),
        _ => Err(Fault::GoesOn),
    }
}
