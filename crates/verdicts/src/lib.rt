// The verdicts, as entries: the book is read first, so that every refusal comes in its order.
#![tactic(auto)]

ghost use Rattle.std.specs.Prelude.{◌≡◌, List, ℕ, length};
ghost use Rattle.model.specs.Answer.{fine};
ghost use Rattle.model.specs.Tree.{Book};
ghost use Rattle.model.specs.Limits.{answer_bytes};
ghost use Rattle.model.specs.Calls.{readable};
ghost use Rattle.model.specs.Entries.{answers_read, chain_entry, list_entry, closure_entry, words_after};
ghost use Rattle.refusals.specs.Refusals.{told_as};
ghost use Rattle.checking.specs.Checks.{Ready, CheckedFrom};
ghost use Rattle.walks.specs.Packets.{packet_of, tactic_of};
ghost use Rattle.verdicts.specs.Verdicts.{verdict_told, Decides};

use book::Verdict;
use checking::{Checked, check};
use listing::list_book;
use refusals::{Fault, Refusal};
use walks::{Packet, Tactic};

// A bit for each unread match.
const ANSWERS: usize = 32;

fn check_answers(answers: &[u8]) -> Result<(), Refusal>
    ensures { told_as (λ u. answer_bytes) result ≡ answers_read answers.now }
{
    if answers.len() != ANSWERS {
        return Err(Fault::WrongAnswers.at(answers.len()));
    }
    Ok(())
}

// By the list of a book that was read, once it is unfolded. The exact verdict is told the answers, a closure is not.
fn by_list(
    book: &[u8],
    answers: &[u8],
    p: Packet,
    checked: &Checked,
    told: bool,
    tactic: Tactic,
    words: &mut [u32],
) -> Result<Verdict, Refusal>
    requires { CheckedFrom book.now checked.now }
    ensures { (b : Book) → readable book.now ≡ fine b → Decides told tactic answers.now p b words.old result words.new }
{
    let need = list_book(checked, words)?;
    let action = walks::list_verdict(book, answers, &words[..need.words], p, told, tactic);
    Ok(Verdict::of(action))
}

// THE CHAIN VERDICT: 1 to 10, then 16.
pub fn chain_verdict(book: &[u8], answers: &[u8], p: Packet) -> Result<Verdict, Refusal>
    ensures { verdict_told result ≡ chain_entry book.now answers.now (packet_of p) }
{
    let contents = check(book)?.contents;
    check_answers(answers)?;
    let policy = contents.policy.number();
    let verdict = walks::chain_verdict(book, answers, p, &contents, policy);
    Ok(Verdict::of(verdict))
}

// THE LIST VERDICT: 1 to 10, then 16, then 13. Nothing is in doubt, so that either tactic gives the same.
pub fn list_verdict(
    book: &[u8],
    answers: &[u8],
    p: Packet,
    words: &mut [u32],
) -> Result<Verdict, Refusal>
    ensures answer { verdict_told result ≡ list_entry book.now answers.now (packet_of p) (length words.old) }
    ensures lent { words.new ≡ words_after (list_entry book.now answers.now (packet_of p) (length words.old)) book.now words.old }
{
    let checked = check(book)?;
    check_answers(answers)?;
    by_list(book, answers, p, &checked, true, Tactic::Upper, words)
}

// A CLOSURE, the upper or the lower: 1 to 10, then 13. It takes no answers.
pub fn closure(
    book: &[u8],
    tactic: Tactic,
    p: Packet,
    words: &mut [u32],
) -> Result<Verdict, Refusal>
    ensures answer { verdict_told result ≡ closure_entry (tactic_of tactic) book.now (packet_of p) (length words.old) }
    ensures lent { words.new ≡ words_after (closure_entry (tactic_of tactic) book.now (packet_of p) (length words.old)) book.now words.old }
{
    let checked = check(book)?;
    by_list(book, &[], p, &checked, false, tactic, words)
}
