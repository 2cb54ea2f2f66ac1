// Why a case is not as it was recorded, or can't be replayed.
ghost use Rattle.std.specs.Prelude.{IsTrue, OnOk};

use record::refusal::Refusal;
use std::alloc::AllocError;

#[derive(Clone, Copy)]
pub enum Failure {
    Differs,
    Memory(AllocError),
}

impl From<AllocError> for Failure {
    fn from(error: AllocError) -> Failure {
        Failure::Memory(error)
    }
}

// A refusal where an answer is recorded is a difference.
impl From<Refusal> for Failure {
    fn from(_refusal: Refusal) -> Failure {
        Failure::Differs
    }
}

// The case differs unless this is so.
pub fn ensure(so: bool) -> Result<(), Failure>
    ensures { OnOk result (IsTrue so) }
{
    if so { Ok(()) } else { Err(Failure::Differs) }
}
