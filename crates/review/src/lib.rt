// The review of one port: whole, and in slices.
#![tactic(auto)]

ghost use Rattle.sweep.specs.Sweep.{Kept};
ghost use Rattle.review.specs.Taken.{HasRule, TakesRule};

use book::{RuleNumber, Verdict};
use room::Need;
use suspects::{Full, Suspects};
use sweep::{drop_suspects, first_passing};

pub mod beginning;
mod rules;
pub mod slices;
pub mod whole;

// Refused with the rule that may accept a suspect, and the lowest suspect that it may accept.
#[derive(Clone, Copy, PartialEq, Eq)]
pub enum Phase {
    Running,
    Certified,
    Refused(RuleNumber, u32),
}

// A review in slices as its caller holds it: the place is that of the next rule in the list's words.
#[derive(Clone, Copy)]
pub struct State {
    pub phase: Phase,
    pub place: usize,
    pub port: u32,
    pub suspects: Suspects,
}

// What the start answers: how many words and rules the list has, and the state to begin with.
#[derive(Drop)]
pub struct Started {
    pub counts: Need,
    pub state: State,
}

// What the whole review comes to.
#[derive(Clone, Copy, PartialEq, Eq)]
pub enum Reviewed {
    Certified,
    Refused(RuleNumber, u32),
}

// The words of a rule of the list before its conditions: its action, its number, and how many conditions it has.
const HEAD: usize = 3;

// One rule of the list: it refuses, with its number and the lowest suspect that it may accept, or leaves suspects to the rules behind.
// They are lent and not handed over: there are so many slots that to copy them at each rule would be most of the work.
pub fn take_rule(
    s: &[u8],
    list: &[u32],
    at: usize,
    port: u32,
    suspects: &mut Suspects,
) -> Result<Option<(RuleNumber, u32)>, Full>
    requires stands { HasRule s.now list.now at }
    requires kept { Kept suspects.old }
    ensures { TakesRule s.now list.now at port suspects.old result suspects.new }
{
    let count = list[at + 2] as usize;
    let conditions = &list[at + HEAD..at + HEAD + count];
    if list[at] == Verdict::Accept.number() {
        let source = first_passing(s, conditions, port, suspects);
        return Ok(source.map(|source| (RuleNumber(list[at + 1]), source)));
    }
    *suspects = drop_suspects(s, conditions, port, suspects)?;
    Ok(None)
}
