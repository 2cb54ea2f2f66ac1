// The refusals, and the numbers that a host is given for them (paper 01, 'Refused calls').
ghost use Rattle.std.specs.Prelude.{◌≡◌};
ghost use Rattle.record.specs.Refusals.{code, number_of};

// Why a call is refused.
#[derive(Clone, Copy, Debug, PartialEq, Eq)]
pub enum Refusal {
    Record, // 1: no vector record
    Shape, // 2: a shape beyond its limits
    Room, // 3: a buffer too short
    Head, // 4: a payload's head
    BackwardHalf, // 5: its backward half
    ForwardHalf, // 6: its forward half
    Range, // 7: a time, a sad or a setting beyond its range
    Place, // 8: a side or a block
    NothingPast, // 9: no step to undo
    NothingFuture, // 10: no step to redo
    Slots, // 11: step counts or slots that no session leaves
    Counts, // 12: kept counts above the blocks
}

impl Refusal {
    // The number of a refusal.
    pub fn code(self) -> u32
        ensures { result ≡ code self }
    {
        match self {
            Refusal::Record => 1,
            Refusal::Shape => 2,
            Refusal::Room => 3,
            Refusal::Head => 4,
            Refusal::BackwardHalf => 5,
            Refusal::ForwardHalf => 6,
            Refusal::Range => 7,
            Refusal::Place => 8,
            Refusal::NothingPast => 9,
            Refusal::NothingFuture => 10,
            Refusal::Slots => 11,
            Refusal::Counts => 12,
        }
    }
}

// The number of an outcome: 0 for accepted.
pub fn number(outcome: Result<(), Refusal>) -> u32
    ensures { result ≡ number_of outcome }
{
    match outcome {
        Ok(()) => 0,
        Err(refusal) => refusal.code(),
    }
}
