// The review in slices.
ghost use Rattle.std.specs.Prelude.{◌≡◌};
ghost use Rattle.model.specs.Answer.{refused as model_refused};
ghost use Rattle.refusals.specs.Refusals.{number_of};
ghost use Rattle.reviewer.specs.StateWords.{stray_over, step_over, step_words, state_words_after};

use super::state::{STATE, phase_out, state_in, state_out};
use super::words::{given, refused};
use checking::check;
use refusals::{Fault, Refusal};
use review::slices::step;

// A state whose phase is none is refused, after the book's own refusals.
fn stray(book: &[u8], place: u32) -> Refusal
    ensures { model_refused (number_of result.fault) result.place ≡ stray_over book.now place }
{
    match check(book) {
        Err(unfit) => unfit.refusal,
        Ok(_) => Fault::StrayState.at(place as usize),
    }
}

// One call of the review in slices: the phase after it. A finished state's words are left, whatever they are.
#[unsafe(no_mangle)]
pub extern "C" fn tannenlaut_step(
    book: &[u8],
    list: &[u32],
    state: &mut [u32; STATE],
    answer: &mut [u32; 6],
)
    ensures answer { answer.new ≡ step_words (step_over book.now list.now state.old) }
    ensures state { state.new ≡ state_words_after (step_over book.now list.now state.old) state.old }
{
    let Some(mut asked) = state_in(state) else {
        *answer = refused(stray(book, state[1]));
        return;
    };
    match step(book, list, &mut asked) {
        Err(refusal) => *answer = refused(refusal),
        Ok(()) => {
            let [number, _, _] = phase_out(asked.phase);
            *answer = given(number, 0, 0);
            if state[2] == 0 {
                state_out(&asked, state);
            }
        }
    }
}
