// Reads the chains of a book into its contents.
ghost use Rattle.std.specs.Prelude.{◌≡◌, [], ◌≤◌, length};
ghost use Rattle.model.specs.Limits.{book_bytes, chains_most};
ghost use Rattle.refusals.specs.Refusals.{told};
ghost use Rattle.expressions.specs.Told.{stand};
ghost use Rattle.book.specs.Inner.{Finds, answered, all_chains, place_after};
ghost use Rattle.book.specs.Held.{charting};

use super::rules::read_rules;
use super::{Contents, RULES};
use expressions::ExpressionRead;
use numbers::read_field;
use refusals::Refusal;

// All the chains; the place after them. A count of rules is judged by the room that is left, so that no sum can wrap.
pub fn read_chains(s: &[u8], at: usize, contents: &mut Contents) -> Result<usize, Refusal>
    requires { (length s.now ≤ book_bytes) × (contents.old.chains ≤ chains_most) × (contents.old ≡ charting contents.old [] 0) }
    ensures answer { told result ≡ answered place_after (all_chains contents.old.chains s.now (stand at 0 0)) }
    ensures charted { Finds (all_chains contents.old.chains s.now (stand at 0 0)) (λ cs st. contents.new ≡ charting contents.old cs st.rules) }
{
    let chains = contents.chains as u32;
    let mut read = ExpressionRead {
        next: at,
        sources: 0,
    };
    for c in 0..contents.chains {
        let first = contents.rules;
        let count = read_field(s, read.next, 0, (RULES - first) as u64)?;
        let last = first + count.value as usize;
        read = read_rules(
            s,
            count.next,
            chains,
            read.sources,
            &mut contents.noted[first..last],
        )?;
        contents.rules = last;
        contents.first[c + 1] = last as u32;
    }
    Ok(read.next)
}
