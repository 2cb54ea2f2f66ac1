// What a case's buffers hold at first: element i of buffer b is (seed + 31 i + 101 b) modulo 251; answers are 99.
ghost use Rattle.std.specs.Prelude.{◌<◌};

use crate::given::Case;
use std::alloc::{AllocError, Global};
use std::iter;

// What stands where no call answered.
const UNANSWERED: u32 = 99;

// The buffers of a case, of the lengths that it gives.
#[derive(Drop)]
pub struct Buffers {
    pub answers: Vec<u32>,
    pub backward: Vec<u8>,
    pub forward: Vec<u8>,
    pub table: Vec<u8>,
    pub grid: Vec<i32>,
    pub xs: Vec<u16>,
    pub ys: Vec<u16>,
    pub averages: Vec<u8>,
    pub map: Vec<u8>,
    pub history: Vec<u8>,
}

fn first(seed: u32, b: usize) -> u8
    requires { b < 9 }
    ensures { result < 251 }
{
    ((seed % 251 + 101 * (b as u32)) % 251) as u8
}

fn next(value: u8) -> u8
    ensures { result < 251 }
{
    ((u32::from(value) + 31) % 251) as u8
}

// Buffer b, of elements made from those numbers.
fn buffer<T: Drop, F: Fn(u8) -> T>(
    alloc: Global,
    case: &Case,
    b: usize,
    element: F,
) -> Result<Vec<T>, AllocError>
    requires place { b < 9 }
    requires callable { (state : F) (x : _) → F.pre state x }
{
    iter::successors(Some(first(case.seed(), b)), |value| Some(next(*value)))
        .take(case.length(b))
        .map(element)
        .collect(alloc)
}

impl Buffers {
    pub fn of(alloc: Global, case: &Case) -> Result<Buffers, AllocError> {
        Ok(Buffers {
            answers: vec![in alloc; UNANSWERED; case.answers()]?,
            backward: buffer(alloc, case, 0, u8::from)?,
            forward: buffer(alloc, case, 1, u8::from)?,
            table: buffer(alloc, case, 2, u8::from)?,
            grid: buffer(alloc, case, 3, i32::from)?,
            xs: buffer(alloc, case, 4, u16::from)?,
            ys: buffer(alloc, case, 5, u16::from)?,
            averages: buffer(alloc, case, 6, u8::from)?,
            map: buffer(alloc, case, 7, u8::from)?,
            history: buffer(alloc, case, 8, u8::from)?,
        })
    }
}
