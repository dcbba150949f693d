// Reads a book: the whole grammar of document 01, refusals 1 to 8.
#![tactic(auto)]

ghost use Rattle.std.specs.Prelude.{◌≡◌, ◌<◌, length, take, drop};
ghost use Rattle.model.specs.Book.{book_of};
ghost use Rattle.refusals.specs.Refusals.{told};
ghost use Rattle.book.specs.Told.{book_answer};
ghost use Rattle.book.specs.Contents.{said, action_number, target_number, action_of, verdict_number, verdict_of, first_of, rules_in, Shape};

use chains::read_chains;
use numbers::read_field;
use refusals::{Fault, Refusal};

mod chains;
mod rules;

// The chains of a book, at most; one more, for where the last chain's rules end; its rules, at most.
pub const CHAINS: usize = 64;

pub const STARTS: usize = CHAINS + 1;

pub const RULES: usize = 1024;

pub const BYTES: usize = 65535;

// A chain number and a rule number are kinds of their own: a call cannot name a rule.
#[derive(Clone, Copy, PartialEq, Eq)]
pub struct ChainNumber(pub u32);

#[derive(Clone, Copy, PartialEq, Eq)]
pub struct RuleNumber(pub u32);

// What a rule does where it matches.
#[derive(Clone, Copy, PartialEq, Eq)]
pub enum Action {
    Accept,
    Drop,
    Reject,
    Log,
    Empty,
    Return,
    Call(ChainNumber),
}

impl Action {
    // The action that two numbers say: 6 is a call of the target, and what names no action is an accept.
    pub fn of(number: u32, target: u32) -> Action
        ensures { said result ≡ action_of number target }
    {
        match number {
            1 => Action::Drop,
            2 => Action::Reject,
            3 => Action::Log,
            4 => Action::Empty,
            5 => Action::Return,
            6 => Action::Call(ChainNumber(target)),
            _ => Action::Accept,
        }
    }

    // Document 01's number of it.
    pub fn number(self) -> u32
        ensures { result ≡ action_number (said self) }
    {
        match self {
            Action::Accept => 0,
            Action::Drop => 1,
            Action::Reject => 2,
            Action::Log => 3,
            Action::Empty => 4,
            Action::Return => 5,
            Action::Call(_) => 6,
        }
    }

    // The number of the chain that it calls; 0 where it calls none.
    pub fn target(self) -> u32
        ensures { result ≡ target_number (said self) }
    {
        match self {
            Action::Call(chain) => chain.0,
            _ => 0,
        }
    }
}

// What a policy says, and what every walk comes to in the end. The discriminants are document 01's numbers.
#[derive(Clone, Copy, PartialEq, Eq)]
pub enum Verdict {
    Accept = 0,
    Drop = 1,
}

impl Verdict {
    // Document 01's number of it.
    pub fn number(self) -> u32
        ensures { result ≡ verdict_number self }
    {
        self as u32
    }

    // The verdict of a number: 0 is accept, any other drop.
    pub fn of(number: u32) -> Verdict
        ensures { result ≡ verdict_of number }
    {
        match number {
            0 => Verdict::Accept,
            _ => Verdict::Drop,
        }
    }
}

// A rule as the contents note it: where it starts, its action, where its expression starts, and where it ends.
#[derive(Clone, Copy, PartialEq, Eq)]
pub struct NotedRule {
    pub place: u32,
    pub action: Action,
    pub expression: u32,
    pub end: u32,
}

// What everything above needs of a book, so that it is never scanned again. Chain c has the rules from first[c] up to, not with,
// first[c + 1]. Slots that are not used are 0: an accept at place 0.
#[derive(Clone, Copy)]
pub struct Contents {
    pub policy: Verdict,
    pub chains: usize,
    pub rules: usize,
    pub first: [u32; STARTS],
    pub noted: [NotedRule; RULES],
}

impl Contents {
    // The rules of chain c.
    pub fn rules_of(&self, c: usize) -> &[NotedRule]
        requires shape { Shape self.now }
        requires known { c < self.now.chains }
        ensures part { result.now ≡ take (rules_in self.now c) (drop (first_of self.now c) self.now.noted) }
        ensures count { length result.now ≡ rules_in self.now c }
    {
        &self.noted[self.first[c] as usize..self.first[c + 1] as usize]
    }
}

// What a slot that is not used notes.
const UNUSED: NotedRule = NotedRule {
    place: 0,
    action: Action::Accept,
    expression: 0,
    end: 0,
};

// Not inlined: a caller's frame would hold the contents once more, and the stack is small.
#[inline(never)]
pub fn read_book(s: &[u8]) -> Result<Contents, Refusal>
    ensures { told result ≡ book_answer (book_of s.now) }
{
    if BYTES < s.len() {
        return Err(Fault::BookTooLong.at(0));
    }
    let edition = read_field(s, 0, 1, 1)?;
    let chains = read_field(s, edition.next, 1, CHAINS as u64)?;
    let policy = read_field(s, chains.next, 0, 1)?;
    let mut contents = Contents {
        policy: Verdict::of(policy.value),
        chains: chains.value as usize,
        rules: 0,
        first: [0; STARTS],
        noted: [UNUSED; RULES],
    };
    let next = read_chains(s, policy.next, &mut contents)?;
    if next != s.len() {
        return Err(Fault::ExtraBytes.at(next));
    }
    Ok(contents)
}
