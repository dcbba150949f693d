// The whole review of one port.
ghost use Rattle.std.specs.Prelude.{◌≡◌, length};
ghost use Rattle.model.specs.Review.{review as modelReview};
ghost use Rattle.model.specs.Entries.{list_in, suspects_in, review_entry, words_after};
ghost use Rattle.review.specs.Reviews.{Reviewable, phase_told, review_told};

use super::beginning::start;
use super::{HEAD, Reviewed, take_rule};
use refusals::Refusal;
use suspects::{Full, Suspects};

// A list, for one port with its suspects, of a book that was read and unfolded: so a report reads and unfolds once for all ports. The
// suspects always have room here.
pub fn review_list(book: &[u8], list: &[u32], port: u32, mut suspects: Suspects) -> Reviewed
    requires { Reviewable book.now list.now port suspects }
    ensures { (x : Reviewable book.now list.now port suspects) → phase_told result ≡ modelReview port (suspects_in x.inputs) (list_in x.inputs) }
{
    let mut at = 0;
    while at < list.len() {
        match take_rule(book, list, at, port, &mut suspects) {
            Ok(None) => at += HEAD + list[at + 2] as usize,
            Ok(Some((rule, source))) => return Reviewed::Refused(rule, source),
            Err(Full) => unreachable!(),
        }
    }
    Reviewed::Certified
}

// THE REVIEW: 1 to 10, then 11, 12, 13; and then certified, or refused with a rule and a source.
pub fn review(book: &[u8], plan: &[u8], port: u32, words: &mut [u32]) -> Result<Reviewed, Refusal>
    ensures answer { review_told result ≡ review_entry book.now plan.now port (length words.old) }
    ensures lent { words.new ≡ words_after (review_entry book.now plan.now port (length words.old)) book.now words.old }
{
    let started = start(book, plan, port, words)?;
    let list = &words[..started.counts.words];
    Ok(review_list(book, list, port, started.state.suspects))
}
