// Which chain reaches itself by calls, how calls rank, and whether the entry is too heavy: over a read book's contents.
#![tactic(auto)]

ghost use Rattle.std.specs.Prelude.{◌≡◌, ◌&&◌, ◌||◌, ℕ, ◌+◌, ◌^◌, ◌<◌, ◌≤◌, length, get_or, eqb, ltb};
ghost use Rattle.model.specs.Tree.{Book};
ghost use Rattle.model.specs.Reader.{Stand, got};
ghost use Rattle.model.specs.Calls.{LoopFree, lowest_loop, weight, checked};
ghost use Rattle.model.specs.Limits.{chains_most, weight_most};
ghost use Rattle.refusals.specs.Refusals.{told_as};
ghost use Rattle.calls.specs.Heavy.{heavy};
ghost use Rattle.calls.specs.Sets.{has, in_row, Table, Added, Passed, rank_of, Fit, Holds};
ghost use Rattle.book.specs.Contents.{Shape, first_of, rules_in};
ghost use Rattle.calls.specs.Actions.{Actions, calls_in, weigh_at};
ghost use Rattle.calls.specs.Reached.{calls, reach, Reached};
ghost use Rattle.calls.specs.Weights.{rank_in, capped, AllCapped, Weighed, Weighing, Upto};
ghost use Rattle.calls.specs.Checked.{loop_of};

use book::{Action, CHAINS, ChainNumber, Contents};
use refusals::{Fault, Refusal};

// What a book's entry may weigh, at most.
pub const WEIGHT: u32 = 16384;

// One more: it stands for every greater weight.
const HEAVY: u32 = WEIGHT + 1;

// The set x with d.
fn with(x: u64, d: usize) -> u64
    requires { (d < chains_most) × (x < 2 ^ chains_most) }
    ensures { (result < 2 ^ chains_most) × ((e : ℕ) → has result e ≡ has x e || eqb e d) }
{
    x | (1u64 << d)
}

// Whether d is in the set x.
fn has(x: u64, d: usize) -> bool
    requires { d < chains_most }
    ensures { result ≡ has x d }
{
    (x >> d) % 2 == 1
}

fn holds(sets: &[u64; CHAINS], c: usize, d: usize) -> bool
    requires { (c < chains_most) × (d < chains_most) }
    ensures { result ≡ in_row sets.now c d }
{
    has(sets[c], d)
}

fn add(sets: &mut [u64; CHAINS], c: usize, d: usize)
    requires { Fit sets.old × (c < chains_most) × (d < chains_most) }
    ensures { Added c d sets.old sets.new }
{
    sets[c] = with(sets[c], d);
}

// Whatever has k in its set takes k's set.
fn pass(sets: &mut [u64; CHAINS], k: usize)
    requires { Fit sets.old × (k < chains_most) }
    ensures { Passed k sets.old sets.new }
{
    for a in 0..CHAINS {
        if holds(sets, a, k) {
            sets[a] |= sets[k];
        }
    }
}

// Warshall's closure of the first sets.
fn close(sets: &mut [u64; CHAINS], chains: usize)
    requires { Fit sets.old × (chains ≤ chains_most) }
    ensures { Holds sets.new (reach (in_row sets.old) chains) }
{
    for k in 0..chains {
        pass(sets, k);
    }
}

// The chains that chain c calls.
fn add_calls(contents: &Contents, c: usize, sets: &mut [u64; CHAINS])
    requires { Shape contents.now × (c < contents.now.chains) × Fit sets.old }
    ensures { Holds sets.new (λ x e. in_row sets.old x e || (eqb x c && calls_in contents.now c e)) }
{
    for rule in contents.rules_of(c) {
        if let Action::Call(chain) = rule.action {
            add(sets, c, chain.0 as usize);
        }
    }
}

pub fn call_sets(contents: &Contents) -> [u64; CHAINS]
    requires { Shape contents.now }
    ensures { Fit result × ((b : Book) → Actions b contents.now → Table result (calls b)) }
{
    let mut sets = [0; CHAINS];
    for c in 0..contents.chains {
        add_calls(contents, c, &mut sets);
    }
    sets
}

pub fn reached(contents: &Contents) -> [u64; CHAINS]
    requires { Shape contents.now }
    ensures { (b : Book) → Actions b contents.now → Reached b result }
{
    let mut sets = call_sets(contents);
    close(&mut sets, contents.chains);
    sets
}

// The chains that are in their own set.
fn looping(sets: &[u64; CHAINS]) -> u64
    ensures { (result < 2 ^ chains_most) × ((d : ℕ) → d < chains_most → has result d ≡ in_row sets.now d d) }
{
    let mut loops = 0;
    for (c, &row) in sets.iter().enumerate() {
        if has(row, c) {
            loops = with(loops, c);
        }
    }
    loops
}

// Refusal 9's chain: the lowest that reaches itself.
pub fn lowest_loop(sets: &[u64; CHAINS]) -> Option<ChainNumber>
    ensures { (b : Book) → length b.chains ≤ chains_most → Reached b sets.now → loop_of result ≡ lowest_loop (length b.chains) 0 b }
{
    let loops = looping(sets);
    if loops == 0 {
        None
    } else {
        Some(ChainNumber(loops.trailing_zeros()))
    }
}

// How many chains c reaches.
pub fn rank(sets: &[u64; CHAINS], c: usize) -> u32
    requires { c < chains_most }
    ensures { result ≡ rank_of sets.now c }
{
    sets[c].count_ones()
}

// The weight of chain c by those of the chains that it calls, up to the limit.
fn weigh(contents: &Contents, c: usize, weights: &[u32; CHAINS]) -> u32
    requires { Shape contents.now × (c < contents.now.chains) × AllCapped weights.now }
    ensures { (result ≤ heavy)
        × ((w : ℕ → ℕ)
        → Weighed contents.now w weights.now c
        → result ≡ capped (weigh_at contents.now w (first_of contents.now c) (rules_in contents.now c))) }
{
    let mut sum = 0;
    for rule in contents.rules_of(c) {
        let more = match rule.action {
            Action::Call(chain) => weights[chain.0 as usize],
            _ => 0,
        };
        sum = (sum + 1 + more).min(HEAVY);
    }
    sum
}

// How many chains each chain reaches: without loops it falls at each call.
pub fn ranks(sets: &[u64; CHAINS], chains: usize) -> [u32; CHAINS]
    requires { chains ≤ chains_most }
    ensures { (c : ℕ) → c < chains → get_or result c 0 ≡ rank_of sets.now c }
{
    let mut ranks = [0; CHAINS];
    for c in 0..chains {
        ranks[c] = rank(sets, c);
    }
    ranks
}

// The weights of the chains of one rank.
fn weigh_rank(contents: &Contents, ranks: &[u32; CHAINS], level: usize, weights: &mut [u32; CHAINS])
    requires { Shape contents.now × AllCapped weights.old }
    ensures { AllCapped weights.new
        × ((w : ℕ → ℕ)
        → Weighing contents.now (rank_in ranks.now) w
        → Upto contents.now.chains (rank_in ranks.now) w level weights.old
        → Upto contents.now.chains (rank_in ranks.now) w (level + 1) weights.new) }
{
    for c in 0..contents.chains {
        if ranks[c] as usize == level {
            weights[c] = weigh(contents, c, weights);
        }
    }
}

// Rank by rank from the lowest, so that what a chain calls is weighed before it.
fn weights(contents: &Contents, ranks: &[u32; CHAINS]) -> [u32; CHAINS]
    requires { Shape contents.now }
    ensures { (w : ℕ → ℕ) → Weighing contents.now (rank_in ranks.now) w → (c : ℕ) → c < contents.now.chains → get_or result c 0 ≡ capped (w c) }
{
    let mut weights = [0; CHAINS];
    for level in 0..contents.chains {
        weigh_rank(contents, ranks, level, &mut weights);
    }
    weights
}

// Refusal 10.
pub fn too_heavy(contents: &Contents, sets: &[u64; CHAINS]) -> bool
    requires { Shape contents.now }
    ensures { (b : Book) → Actions b contents.now → Reached b sets.now → LoopFree b → result ≡ ltb weight_most (weight (length b.chains) b 0) }
{
    let order = ranks(sets, contents.chains);
    weights(contents, &order)[0] == HEAVY
}

// Refusals 9 and 10, in that order.
pub fn check_calls(contents: &Contents, sets: &[u64; CHAINS]) -> Result<(), Refusal>
    requires { Shape contents.now }
    ensures { (b : Book) (st : Stand) → Actions b contents.now → Reached b sets.now → told_as (λ u. b) result ≡ checked (got b st) }
{
    if let Some(chain) = lowest_loop(sets) {
        return Err(Fault::Loop.at(chain.0 as usize));
    }
    if too_heavy(contents, sets) {
        return Err(Fault::TooHeavy.at(0));
    }
    Ok(())
}
