// The kept class: the class of the shown side from the session alone (paper 02, request 1).
ghost use Rattle.std.specs.Prelude.{◌≡◌};
ghost use Rattle.state.specs.Kept.{kept_class_of};
ghost use Rattle.unit.specs.Answers.{grade_answer};

use crate::field::Class;
use state::session::Session;

// The class of the counts that a session keeps.
#[unsafe(no_mangle)]
pub extern "C" fn unit_kept_class(session: Session) -> Class
    ensures { grade_answer result ≡ kept_class_of session }
{
    Class::of(state::kept::kept_class(session))
}
