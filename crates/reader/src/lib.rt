// A reader record: it keeps the lent book with its place, and moves past what it reads.
// `read_pair`, at the end, has plain parameters and the record inside.
#![tactic(auto)]

ghost use Rattle.std.specs.Prelude.{◌≡◌, ℕ, drop};
ghost use Rattle.model.specs.Number.{number_at};
ghost use Rattle.refusals.specs.Refusals.{told};
ghost use Rattle.numbers.specs.Told.{numbered};
ghost use Rattle.reader.specs.Moved.{expression_at, past_number, past_expression, number_from, after_number, expression_from, after_expression};

use expressions::{ExpressionRead, read_expression};
use numbers::{Number, read_number};
use refusals::Refusal;

#[derive(Drop)]
pub struct Reader<'a> {
    pub book: &'a [u8],
    pub at: usize,
}

// A reader at the start of a book.
pub fn start(book: &[u8]) -> Reader<'_>
    ensures book { result.book ≡ book.entry }
    ensures at { result.at ≡ 0 }
{
    Reader { book, at: 0 }
}

// Where a reader stands.
pub fn place(r: &Reader<'_>) -> usize
    ensures { result ≡ r.now.at }
{
    r.at
}

// The book from there on; past the end, nothing.
pub fn rest<'a>(r: &Reader<'a>) -> &'a [u8]
    ensures { result.now ≡ drop r.now.at r.now.book.now }
{
    r.book.get(r.at..).unwrap_or(&[])
}

// The next number. The reader moves past it; a refusal leaves it where it stood.
pub fn next_number(r: &mut Reader<'_>) -> Result<Number, Refusal>
    ensures answer { told result ≡ number_from r.old }
    ensures moved { r.new ≡ after_number r.old result }
{
    let number = read_number(r.book, r.at)?;
    r.at = number.next;
    Ok(number)
}

// The next expression, which may enter so many levels, where so many kinds 3 stand before it. The reader moves past it; a refusal leaves it where it stood.
pub fn next_expression(
    r: &mut Reader<'_>,
    levels: u32,
    sources: u32,
) -> Result<ExpressionRead, Refusal>
    ensures answer { (rules : ℕ) → told result ≡ expression_from levels sources rules r.old }
    ensures moved { r.new ≡ after_expression r.old result }
{
    let expression = read_expression(r.book, r.at, levels, sources)?;
    r.at = expression.next;
    Ok(expression)
}

// A number and the expression behind it: what a rule is that calls no chain. `next` is the place after both.
#[derive(Clone, Copy, PartialEq, Eq)]
pub struct Pair {
    pub number: Result<Number, Refusal>,
    pub expression: Result<ExpressionRead, Refusal>,
    pub next: usize,
}

pub fn read_pair(book: &[u8], at: usize, levels: u32, sources: u32) -> Pair
    ensures number { told result.number ≡ numbered at (number_at book.now at) }
    ensures expression { (rules : ℕ) → told result.expression ≡ expression_at levels sources rules book.now (past_number at result.number) }
    ensures next { result.next ≡ past_expression (past_number at result.number) result.expression }
{
    let mut r = start(book);
    r.at = at;
    let number = next_number(&mut r);
    let expression = next_expression(&mut r, levels, sources);
    Pair {
        number,
        expression,
        next: r.at,
    }
}
