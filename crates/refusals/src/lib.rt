// Document 01's refusals by name. Every entry that can refuse answers a value or one of these, with its place.
#![tactic(auto)]

ghost use Rattle.std.specs.Prelude.{◌≡◌};
ghost use Rattle.refusals.specs.Refusals.{number_of, refusal_at};

use std::fmt;

/// Why an entry refuses. The discriminants are document 01's numbers; 19 is our own.
#[derive(Clone, Copy, PartialEq, Eq)]
pub enum Fault {
    /// More bytes than a book may have.
    BookTooLong = 1,
    /// The bytes end inside a number, or before one.
    Cut = 2,
    /// A number that is too large, or not in its shortest writing.
    BadNumber = 3,
    /// A number outside its limits, or a kind that is none.
    OutOfRange = 4,
    /// A call of the entry, or of a chain that the book does not have.
    BadCall = 5,
    /// An expression at level 17.
    TooDeep = 6,
    /// A rule's source range past the book's 512th.
    TooManySources = 7,
    /// Bytes behind the book.
    ExtraBytes = 8,
    /// A chain that reaches itself by calls: the place is the lowest such chain.
    Loop = 9,
    /// An entry chain that weighs too much.
    TooHeavy = 10,
    /// A plan that cannot be read, whatever is wrong with it.
    BadPlan = 11,
    /// A port that the plan does not have: the place is the port.
    MissingPort = 12,
    /// Too few lent words: the place is how many are needed.
    NoRoom = 13,
    /// A state that is not as this review leaves one.
    StrayState = 14,
    /// Suspects in more ranges than a state has slots.
    TooManyRanges = 15,
    /// Answers that are no bit for each unread match: the place is their length.
    WrongAnswers = 16,
    /// A rule that the book does not have: the place is its number.
    MissingRule = 17,
    /// A lent text too short for the report: the place is how many bytes are needed.
    TextTooShort = 19,
}

/// A refusal: why, and the place that document 01 says for it.
#[derive(Clone, Copy, PartialEq, Eq)]
pub struct Refusal {
    pub fault: Fault,
    pub place: usize,
}

impl Fault {
    /// Document 01's number of it.
    pub fn number(self) -> u32
        ensures { result ≡ number_of self }
    {
        self as u32
    }

    pub fn at(self, place: usize) -> Refusal
        ensures { result ≡ refusal_at self place }
    {
        Refusal { fault: self, place }
    }
}

impl fmt::Display for Refusal {
    fn fmt<W: fmt::Write>(&self, f: &mut fmt::Formatter<W>) -> fmt::Result {
        write!(f, "refused {} place {}", self.fault.number(), self.place)
    }
}
