// A book checked, a rule of it by number, and its list.
ghost use Rattle.std.specs.Prelude.{◌≡◌, length};
ghost use Rattle.model.specs.Entries.{check_entry, unfold_entry, words_after};
ghost use Rattle.rules.specs.Rules.{rule_bounds};
ghost use Rattle.reviewer.specs.Words.{check_words, rule_words, unfold_words};

use super::words::{counted, given, refused, word};
use book::RuleNumber;
use checking::check;
use listing::unfold_book;
use rules::rule_reading;

// Checks a book: its chains and rules.
#[unsafe(no_mangle)]
pub extern "C" fn tannenlaut_check(book: &[u8], answer: &mut [u32; 6])
    ensures { answer.new ≡ check_words (check_entry book.now) }
{
    *answer = match check(book) {
        Ok(checked) => {
            let contents = &checked.contents;
            given(word(contents.chains), word(contents.rules), 0)
        }
        Err(unfit) => refused(unfit.refusal),
    };
}

// A rule by number: where its bytes start in the book, and where they end.
#[unsafe(no_mangle)]
pub extern "C" fn tannenlaut_rule(book: &[u8], rule: u32, answer: &mut [u32; 6])
    ensures { answer.new ≡ rule_words (rule_bounds book.now rule) }
{
    *answer = match rule_reading(book, RuleNumber(rule)) {
        Ok(bytes) => given(word(bytes.start), word(bytes.end), 0),
        Err(refusal) => refused(refusal),
    };
}

// Unfolds a book into words: the list's words and rules.
#[unsafe(no_mangle)]
pub extern "C" fn tannenlaut_unfold(book: &[u8], words: &mut [u32], answer: &mut [u32; 6])
    ensures answer { answer.new ≡ unfold_words (unfold_entry book.now (length words.old)) }
    ensures lent { words.new ≡ words_after (unfold_entry book.now (length words.old)) book.now words.old }
{
    *answer = match unfold_book(book, words) {
        Ok(need) => counted(need),
        Err(refusal) => refused(refusal),
    };
}
