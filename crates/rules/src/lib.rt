// A rule by number: the part of the book that is its own bytes, and beside it where they stand or why there are none.
#![tactic(auto)]

ghost use Rattle.std.specs.Prelude.{ℕ, ◌≤◌, List, ◌≡◌};
ghost use Rattle.model.specs.Limits.{rules_most};
ghost use Rattle.model.specs.Answer.{fine};
ghost use Rattle.model.specs.Tree.{Book};
ghost use Rattle.model.specs.Calls.{readable};
ghost use Rattle.model.specs.Entries.{rule_entry, part_of};
ghost use Rattle.book.specs.Contents.{contents_of};
ghost use Rattle.rules.specs.Rules.{bounds_told, bounds_in, rule_bounds, bytes_in};

use book::{Contents, RuleNumber};
use checking::check;
use refusals::{Fault, Refusal};

// Where a rule's own bytes start in the book, and where they end.
#[derive(Clone, Copy, PartialEq, Eq)]
pub struct RuleBytes {
    pub start: usize,
    pub end: usize,
}

// In a book that was read.
fn bounds(contents: &Contents, number: RuleNumber) -> Result<RuleBytes, Refusal>
    requires { contents.now.rules ≤ rules_most }
    ensures { (s : List ℕ) (b : Book) → readable s ≡ fine b → contents.now ≡ contents_of b → bounds_told result ≡ bounds_in b number.0 }
{
    let i = number.0 as usize;
    if contents.rules <= i {
        return Err(Fault::MissingRule.at(i));
    }
    let rule = &contents.noted[i];
    Ok(RuleBytes {
        start: rule.place as usize,
        end: rule.end as usize,
    })
}

// WHERE A RULE STANDS: 1 to 10, then 17.
pub fn rule_reading(book: &[u8], number: RuleNumber) -> Result<RuleBytes, Refusal>
    ensures stands { bounds_told result ≡ rule_bounds book.now number.0 }
    ensures entry { bytes_in book.now (bounds_told result) ≡ rule_entry book.now number.0 }
{
    let checked = check(book)?;
    bounds(&checked.contents, number)
}

// A RULE'S OWN BYTES, action through expression. No rule is empty, so that an empty part is a refusal.
pub fn rule(book: &[u8], number: RuleNumber) -> &[u8]
    ensures { result.now ≡ part_of (rule_entry book.now number.0) }
{
    match rule_reading(book, number) {
        Ok(RuleBytes { start, end }) => &book[start..end],
        Err(_) => &[],
    }
}
