// The kept class: the class of the shown side from the counts that a session keeps, without a walk over its blocks (paper 02, request 1).
ghost use Rattle.std.specs.Prelude.{◌≡◌};
ghost use Rattle.record.specs.Refusals.{number_of};
ghost use Rattle.maps.specs.Class.{graded_of};
ghost use Rattle.state.specs.Kept.{kept_good, kept_number, kept_class_of};

use crate::session::Session;
use maps::class::Counts;
use record::refusal::Refusal;

// 12: no count exceeds n.
#[tactic(auto, unfolding(crate::specs::Kept::kept_good))]
fn counts_within(n: usize, counts: Counts) -> bool
    ensures { result ≡ kept_good n counts }
{
    counts.counted as usize <= n
        && counts.scene as usize <= n
        && counts.m2 as usize <= n
        && counts.m1 as usize <= n
}

// What the session carries, then its counts.
#[tactic(auto, unfolding(crate::specs::Kept::kept_number, record::specs::Numbers::first, record::specs::Numbers::unless))]
fn check_kept(s: Session) -> Result<(), Refusal>
    ensures { number_of result ≡ kept_number s }
{
    record::shape::check_shape(s.shape)?;
    record::checks::check_side(s.side)?;
    scatter::geometry::check_time(s.time)?;
    if !counts_within(record::shape::blocks(s.shape), s.kept) {
        return Err(Refusal::Counts);
    }
    Ok(())
}

// The class of the kept counts, or the refusal of the call: 2, 8, 7 or 12.
#[tactic(auto, unfolding(crate::specs::Kept::kept_class_of))]
pub fn kept_class(s: Session) -> Result<u32, Refusal>
    ensures { graded_of result ≡ kept_class_of s }
{
    check_kept(s)?;
    Ok(maps::class::class_of(s.limits.blocks, s.kept))
}
