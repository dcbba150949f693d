// The start of a review: the book, the plan, the port and the room are checked in their order, and the list is unfolded.
ghost use Rattle.std.specs.Prelude.{◌≡◌, ◌<◌, length};
ghost use Rattle.model.specs.Limits.{greatest};
ghost use Rattle.model.specs.Spans.{complement};
ghost use Rattle.model.specs.Entries.{start_entry, words_after};
ghost use Rattle.plan.specs.Contents.{PlanShape, ranges_at};
ghost use Rattle.suspects.specs.Slots.{writes};
ghost use Rattle.review.specs.Starts.{Starts};

use super::{Phase, Started, State};
use checking::check;
use listing::list_book;
use plan::{PlanContents, port_index, read_plan};
use refusals::{Fault, Refusal};
use suspects::{Suspects, outside};

// Suspect is every source outside the ranges of port `i` of the plan.
pub fn port_suspects(plan: &PlanContents, i: usize) -> Suspects
    requires shape { PlanShape plan.now }
    requires known { i < plan.now.ports }
    ensures { writes result (complement greatest (ranges_at plan.now i)) }
{
    let from = plan.first[i] as usize;
    let end = plan.first[i + 1] as usize;
    outside(&plan.low[from..end], &plan.high[from..end])
}

// THE START: 1 to 10, then 11, 12, 13; and then unfolding's two counts, and a state that runs at word 0.
pub fn start(book: &[u8], plan: &[u8], port: u32, words: &mut [u32]) -> Result<Started, Refusal>
    ensures { Starts (start_entry book.now plan.now port (length words.old)) (words_after (start_entry book.now plan.now port (length words.old)) book.now words.old) result words.new }
{
    let checked = check(book)?;
    let contents = read_plan(plan)?;
    let i = port_index(&contents, port).ok_or(Fault::MissingPort.at(port as usize))?;
    let counts = list_book(&checked, words)?;
    let state = State {
        phase: Phase::Running,
        place: 0,
        port,
        suspects: port_suspects(&contents, i),
    };
    Ok(Started { counts, state })
}
