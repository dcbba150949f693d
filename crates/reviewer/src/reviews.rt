// The review of one port, whole, and the start of one in slices.
ghost use Rattle.std.specs.Prelude.{◌≡◌, length};
ghost use Rattle.model.specs.Entries.{review_entry, start_entry, words_after};
ghost use Rattle.reviewer.specs.StateWords.{review_words, start_words, start_state};

use super::state::{STATE, state_out};
use super::words::{counted, given, refused};
use review::Reviewed;
use review::beginning::start;
use review::whole::review;

// Reviews a port of the plan: certified, or refused with a rule and a source.
#[unsafe(no_mangle)]
pub extern "C" fn tannenlaut_review(
    book: &[u8],
    plan: &[u8],
    port: u32,
    words: &mut [u32],
    answer: &mut [u32; 6],
)
    ensures answer { answer.new ≡ review_words (review_entry book.now plan.now port (length words.old)) }
    ensures lent { words.new ≡ words_after (review_entry book.now plan.now port (length words.old)) book.now words.old }
{
    *answer = match review(book, plan, port, words) {
        Ok(Reviewed::Certified) => given(1, 0, 0),
        Ok(Reviewed::Refused(rule, source)) => given(2, rule.0, source),
        Err(refusal) => refused(refusal),
    };
}

// Starts the review of a port in slices: the list's words and rules, and the state to begin with.
#[unsafe(no_mangle)]
pub extern "C" fn tannenlaut_start(
    book: &[u8],
    plan: &[u8],
    port: u32,
    words: &mut [u32],
    state: &mut [u32; STATE],
    answer: &mut [u32; 6],
)
    ensures answer { answer.new ≡ start_words (start_entry book.now plan.now port (length words.old)) }
    ensures state { state.new ≡ start_state (start_entry book.now plan.now port (length words.old)) state.old }
    ensures lent { words.new ≡ words_after (start_entry book.now plan.now port (length words.old)) book.now words.old }
{
    match start(book, plan, port, words) {
        Ok(started) => {
            state_out(&started.state, state);
            *answer = counted(started.counts);
        }
        Err(refusal) => *answer = refused(refusal),
    }
}
