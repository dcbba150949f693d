// What one rule of the list does to the suspects. A range is walked from horizon to horizon: the rule's conditions have one value up to each.
#![tactic(auto)]

ghost use Rattle.std.specs.Prelude.{◌≤◌};
ghost use Rattle.matching.specs.Conditions.{Writing};
ghost use Rattle.suspects.specs.Build.{Filled};
ghost use Rattle.sweep.specs.Sweep.{Kept, Asks, KeepsPiece, KeepsRange, Drops, FirstIn, Passes};

use matching::{Asking, Held, Truth, eval_conditions};
use std::marker::Model;
use suspects::{Full, Suspects};

// A rule as it is asked: the book, the words of its conditions, whose expressions stand there, and the port.
#[derive(Drop)]
struct Rule<'a> {
    book: &'a [u8],
    conditions: &'a [u32],
    port: u32,
}

impl<'a> Model for Rule<'a> {
    ghost use Rattle.matching.specs.Conditions.{Writing};
    ghost use Rattle.sweep.specs.Sweep.{AskedRule};

    ghost Value = { AskedRule };

    ghost view = { λ r. record { book = r.book.now; conditions = r.conditions.now; port = r.port } };

    ghost invariant = { λ r. Writing r.book.now r.conditions.now };
}

impl Rule<'_> {
    // The value of the conditions for a source. The review knows the port and the source, and nothing else of the packet. No answers are looked at,
    // so any bytes do for them.
    fn ask(&self, source: u32) -> Held
        ensures ahead { source ≤ result.until }
        ensures value { Asks self.now source result }
    {
        let asking = Asking {
            port: self.port,
            header: None,
            told: false,
        };
        eval_conditions(self.book, self.book, self.conditions, asking, source)
    }

    // The suspects from `x` on for which the conditions have one value: they leave where that is true, and stay otherwise. The answer is the last of them.
    fn keep_piece(&self, left: &mut Suspects, x: u32, high: u32) -> Result<u32, Full>
        requires filled { Filled left.old }
        requires rising { x ≤ high }
        ensures { KeepsPiece self.now left.old x high result left.new }
    {
        let held = self.ask(x);
        let last = held.until.min(high);
        if held.value != Truth::Yes {
            left.push(x, last)?;
        }
        Ok(last)
    }

    // The suspects of one range that a drop rule leaves.
    fn keep_range(&self, left: &mut Suspects, low: u32, high: u32) -> Result<(), Full>
        requires filled { Filled left.old }
        requires rising { low ≤ high }
        ensures { KeepsRange self.now left.old low high result left.new }
    {
        let mut x = low;
        loop {
            let last = self.keep_piece(left, x, high)?;
            if last == high {
                return Ok(());
            }
            x = last + 1;
        }
    }

    // The lowest source of one range for which no condition is false.
    fn first_in(&self, low: u32, high: u32) -> Option<u32>
        ensures { FirstIn self.now low high result }
    {
        let mut x = low;
        while x <= high {
            let held = self.ask(x);
            if held.value != Truth::No {
                return Some(x);
            }
            x = held.until.checked_add(1)?;
        }
        None
    }
}

// The suspects that a drop rule leaves, where there is room for their ranges.
pub fn drop_suspects(
    s: &[u8],
    conditions: &[u32],
    port: u32,
    suspects: &Suspects,
) -> Result<Suspects, Full>
    requires written { Writing s.now conditions.now }
    requires kept { Kept suspects.now }
    ensures { Drops s.now conditions.now port suspects.now result }
{
    let rule = Rule {
        book: s,
        conditions,
        port,
    };
    let mut left = Suspects::empty();
    let (lows, _) = suspects.low.split_at(suspects.count);
    let (highs, _) = suspects.high.split_at(suspects.count);
    for (&low, &high) in lows.iter().zip(highs) {
        rule.keep_range(&mut left, low, high)?;
    }
    Ok(left)
}

// The lowest suspect that an accept rule may accept.
pub fn first_passing(s: &[u8], conditions: &[u32], port: u32, suspects: &Suspects) -> Option<u32>
    requires written { Writing s.now conditions.now }
    requires kept { Kept suspects.now }
    ensures { Passes s.now conditions.now port suspects.now result }
{
    let rule = Rule {
        book: s,
        conditions,
        port,
    };
    let (lows, _) = suspects.low.split_at(suspects.count);
    let (highs, _) = suspects.high.split_at(suspects.count);
    for (&low, &high) in lows.iter().zip(highs) {
        if let Some(source) = rule.first_in(low, high) {
            return Some(source);
        }
    }
    None
}
