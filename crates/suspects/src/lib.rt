// The set of suspects: rising ranges, neither touching nor overlapping, in slots of which the unused are 0.
#![tactic(auto)]

ghost use Rattle.std.specs.Prelude.{◌≡◌, ◌≤◌, ◌+◌, ℕ, [], length};
ghost use Rattle.model.specs.Limits.{greatest, ranges_most};
ghost use Rattle.model.specs.Spans.{one};
ghost use Rattle.model.specs.Review.{Phase};
ghost use Rattle.model.specs.Slices.{zip, rising, zeros, in_writing};
ghost use Rattle.suspects.specs.Slots.{writes, holding, Complements, Ranges, Outside};
ghost use Rattle.suspects.specs.Build.{Filled, Pushes, Fills, Gaps};

const LAST: u32 = u32::MAX;

// Behind the last address.
const END: u64 = LAST as u64 + 1;

// More ranges than there are slots.
#[derive(Clone, Copy, PartialEq, Eq)]
pub struct Full;

// The lows and the highs stand apart, as in a state's words: all the lows, then all the highs.
#[derive(Clone, Copy)]
pub struct Suspects {
    pub count: usize,
    pub low: [u32; Suspects::MAX],
    pub high: [u32; Suspects::MAX],
}

impl Suspects {
    pub const MAX: usize = 640;

    pub fn empty() -> Suspects
        ensures { writes result [] }
    {
        Suspects {
            count: 0,
            low: [0; Suspects::MAX],
            high: [0; Suspects::MAX],
        }
    }

    pub fn whole() -> Suspects
        ensures { writes result (one 0 greatest) }
    {
        let mut whole = Suspects::empty();
        whole.high[0] = LAST;
        whole.count = 1;
        whole
    }

    // The addresses that are not in the set; none where it is not in its one writing, or they need too many ranges.
    pub fn complement(&self) -> Option<Suspects>
        ensures { Complements self.now result }
    {
        if !self.is_written() {
            return None;
        }
        let (low, _) = self.low.split_at(self.count);
        let (high, _) = self.high.split_at(self.count);
        gaps(low, high).ok()
    }

    // Whether a value is a set's one writing. Any numbers may stand in it.
    pub fn is_written(&self) -> bool
        ensures { (port place : ℕ) (phase : Phase) → result ≡ in_writing (holding self.now port place phase) }
    {
        if Suspects::MAX < self.count {
            return false;
        }
        let (low, unused_low) = self.low.split_at(self.count);
        let (high, unused_high) = self.high.split_at(self.count);
        is_rising(low, high) && is_clear(unused_low) && is_clear(unused_high)
    }

    // The addresses from `from` to `to` more, behind all the others: a later end of the last range where they touch it. With no slot left for them
    // the set stays as it is.
    pub fn push(&mut self, from: u32, to: u32) -> Result<(), Full>
        requires filled { Filled self.old }
        requires rising { from ≤ to }
        ensures { Pushes from to self.old result self.new }
    {
        let n = self.count;
        if 0 < n && u64::from(self.high[n - 1]) + 1 == u64::from(from) {
            self.high[n - 1] = to;
            return Ok(());
        }
        if n == Suspects::MAX {
            return Err(Full);
        }
        self.low[n] = from;
        self.high[n] = to;
        self.count += 1;
        Ok(())
    }

    // The addresses from `from` up to and not with `to` more, if there are any.
    fn fill(&mut self, from: u64, to: u64) -> Result<(), Full>
        requires filled { Filled self.old }
        requires address { to ≤ greatest + 1 }
        ensures { Fills from to self.old result self.new }
    {
        if from < to {
            self.push(from as u32, (to - 1) as u32)
        } else {
            Ok(())
        }
    }
}

// Whether ranges rise and leave out an address between one and the next.
fn is_rising(low: &[u32], high: &[u32]) -> bool
    ensures { result ≡ rising 0 (zip low.now high.now) }
{
    let mut least = 0;
    for (&from, &to) in low.iter().zip(high) {
        if u64::from(from) < least || to < from {
            return false;
        }
        least = u64::from(to) + 2;
    }
    true
}

fn is_clear(slots: &[u32]) -> bool
    ensures { result ≡ zeros slots.now }
{
    slots.iter().all(|&x| x == 0)
}

// The addresses before, between and behind ranges.
fn gaps(low: &[u32], high: &[u32]) -> Result<Suspects, Full>
    requires { Ranges low.now high.now }
    ensures { Gaps low.now high.now result }
{
    let mut set = Suspects::empty();
    let mut next = 0;
    for (&from, &to) in low.iter().zip(high) {
        set.fill(next, u64::from(from))?;
        next = u64::from(to) + 1;
    }
    set.fill(next, END)?;
    Ok(set)
}

// The addresses outside a plan's ranges. Those are so few that there is room for what lies between them.
pub fn outside(low: &[u32], high: &[u32]) -> Suspects
    requires ranges { Ranges low.now high.now }
    requires few { length low.now ≤ ranges_most }
    ensures { Outside low.now high.now result }
{
    let Ok(outside) = gaps(low, high) else {
        unreachable!()
    };
    outside
}
