// Unfolds a book into lent words: refusals 1 to 10, then 13.
#![tactic(auto)]

ghost use Rattle.std.specs.Prelude.{◌≡◌, List, ℕ, length};
ghost use Rattle.model.specs.Answer.{fine};
ghost use Rattle.model.specs.Tree.{Book};
ghost use Rattle.model.specs.Calls.{readable};
ghost use Rattle.model.specs.Entries.{unfold_entry, words_after};
ghost use Rattle.refusals.specs.Refusals.{told_as};
ghost use Rattle.checking.specs.Checks.{Ready, CheckedFrom};
ghost use Rattle.listing.specs.Listings.{counts, Lists};

use checking::{Checked, check};
use refusals::{Fault, Refusal};
use room::{Need, room};
use unfolding::unfold;

// Of a book that was read: the need is known before the first word is written, so that 13 leaves all words as they were.
pub fn list_book(checked: &Checked, words: &mut [u32]) -> Result<Need, Refusal>
    requires { Ready checked.now }
    ensures { (s : List ℕ) (b : Book) → readable s ≡ fine b → CheckedFrom s checked.now → Lists b words.old result words.new }
{
    let need = room(&checked.contents, &checked.ranks);
    if words.len() < need.words {
        return Err(Fault::NoRoom.at(need.words));
    }
    unfold(&checked.contents, checked.contents.policy.number(), words);
    Ok(need)
}

// UNFOLDING, the entry.
pub fn unfold_book(book: &[u8], words: &mut [u32]) -> Result<Need, Refusal>
    ensures answer { told_as counts result ≡ unfold_entry book.now (length words.old) }
    ensures lent { words.new ≡ words_after (unfold_entry book.now (length words.old)) book.now words.old }
{
    let checked = check(book)?;
    list_book(&checked, words)
}
