// Two payloads, judged apart from any copying (paper 02, request 3).
ghost use Rattle.std.specs.Prelude.{◌≡◌};
ghost use Rattle.record.specs.Refusals.{number_of};
ghost use Rattle.record.specs.Shape.Laws.{Accepted};
ghost use Rattle.pooling.specs.Pool.{both_number};

use record::payload::check_payload;
use record::refusal::Refusal;
use record::shape::FieldShape;

// The first payload, and where that is accepted the second: each refused by 4, 5 or 6.
pub fn check_both(shape: FieldShape, first: &[u8], second: &[u8]) -> Result<(), Refusal>
    requires { Accepted shape }
    ensures { number_of result ≡ both_number shape first.now second.now }
{
    check_payload(shape, first)?;
    check_payload(shape, second)
}
