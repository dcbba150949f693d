// The review in slices: one rule of the list at each call.
ghost use Rattle.std.specs.Prelude.{◌≡◌, true, eqb};
ghost use Rattle.std.proofs.Math.Option.{some};
ghost use Rattle.model.specs.Answer.{when};
ghost use Rattle.model.specs.Unfolding.{ListRule};
ghost use Rattle.model.specs.Review.{certified, running};
ghost use Rattle.model.specs.Slices.{in_writing, take_rule};
ghost use Rattle.model.specs.Entries.{step_entry};
ghost use Rattle.review.specs.States.{phase_of, state_of, SteppedBy};
ghost use Rattle.review.specs.Taken.{RuleAt, HasRule};

use super::rules::is_rule;
use super::{HEAD, Phase, State, take_rule};
use checking::check;
use refusals::{Fault, Refusal};
use suspects::Full;

// Certified once the last rule is done.
fn phase_at(next: usize, end: usize) -> Phase
    ensures { phase_of result ≡ when (eqb next end) certified running }
{
    if next == end {
        Phase::Certified
    } else {
        Phase::Running
    }
}

// A running state, over the rule at its place. A rule that refuses leaves suspects and place as they are.
fn step_rule(book: &[u8], list: &[u32], state: &mut State) -> Result<(), Refusal>
    requires stands { HasRule book.now list.now state.old.place }
    requires written { in_writing (state_of state.old) ≡ true }
    ensures { (rule : ListRule) → RuleAt book.now list.now state.old.place rule → SteppedBy (take_rule list.now (state_of state.old) (some rule)) state.old result state.new }
{
    let place = state.place;
    match take_rule(book, list, place, state.port, &mut state.suspects) {
        Err(Full) => return Err(Fault::TooManyRanges.at(place)),
        Ok(Some((rule, source))) => state.phase = Phase::Refused(rule, source),
        Ok(None) => {
            state.place = place + HEAD + list[place + 2] as usize;
            state.phase = phase_at(state.place, list.len());
        }
    }
    Ok(())
}

// ONE CALL: refusals 1 to 10, then 14 and 15. A refusal leaves the state as it was, and so does a call over a finished one. Nothing is taken
// of a running state that is not as this review leaves one.
pub fn step(book: &[u8], list: &[u32], state: &mut State) -> Result<(), Refusal>
    ensures { SteppedBy (step_entry book.now list.now (state_of state.old)) state.old result state.new }
{
    let checked = check(book)?;
    if state.phase != Phase::Running {
        return Ok(());
    }
    if !state.suspects.is_written() || !is_rule(&checked.contents, list, state.place) {
        return Err(Fault::StrayState.at(state.place));
    }
    step_rule(book, list, state)
}
