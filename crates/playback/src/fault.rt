// Why a file of lists can't be played to its end.
use std::alloc::AllocError;
use std::{fmt, io};

#[derive(Clone, Copy)]
pub enum Fault {
    Unopened,
    CutShort,
    TooLarge,
    NoStart,
    GoesOn,
    System(io::Error),
}

impl fmt::Display for Fault {
    fn fmt<W: fmt::Write>(&self, f: &mut fmt::Formatter<W>) -> fmt::Result {
        match self {
            Fault::Unopened => write!(f, "can't be opened"),
            Fault::CutShort => write!(f, "is cut short"),
            Fault::TooLarge => write!(f, "is larger than this program's buffers"),
            Fault::NoStart => write!(f, "neither opens nor plays on its session"),
            Fault::GoesOn => write!(f, "goes on behind its last case"),
            Fault::System(error) => write!(f, "{error}"),
        }
    }
}

impl From<io::Error> for Fault {
    fn from(error: io::Error) -> Fault {
        Fault::System(error)
    }
}

impl From<AllocError> for Fault {
    fn from(error: AllocError) -> Fault {
        Fault::System(io::Error::from(error))
    }
}

// A fault of the file, or of one of its cases.
#[derive(Clone, Copy)]
pub struct Stop {
    pub case: Option<u32>,
    pub fault: Fault,
}

impl From<Fault> for Stop {
    fn from(fault: Fault) -> Stop {
        Stop { case: None, fault }
    }
}
