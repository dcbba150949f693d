// The six words of an answer.
ghost use Rattle.std.specs.Prelude.{◌≡◌};
ghost use Rattle.listing.specs.Listings.{counts};
ghost use Rattle.refusals.specs.Refusals.{number_of};
ghost use Rattle.reviewer.specs.Words.{word, refusal_words, given_words, count_words};

use refusals::Refusal;
use room::Need;

// A number as a word; one that does not fit is told as the greatest that does.
pub fn word(x: usize) -> u32
    ensures { result ≡ word x }
{
    u32::try_from(x).unwrap_or(u32::MAX)
}

pub fn refused(refusal: Refusal) -> [u32; 6]
    ensures { result ≡ refusal_words (number_of refusal.fault) refusal.place }
{
    [refusal.fault.number(), word(refusal.place), 0, 0, 0, 0]
}

pub fn given(a: u32, b: u32, c: u32) -> [u32; 6]
    ensures { result ≡ given_words a b c }
{
    [0, 0, a, b, c, 0]
}

// How many words and rules a list has.
pub fn counted(need: Need) -> [u32; 6]
    ensures { result ≡ count_words (counts need) }
{
    given(word(need.words), word(need.rules), 0)
}
