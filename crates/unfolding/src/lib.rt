// Writes a book's unfolded list into lent words, over the book's contents. How many words it needs is known before: here they are there.
#![tactic(auto)]

ghost use Rattle.std.specs.Prelude.{◌≡◌, ◌+◌, length};
ghost use Rattle.model.specs.Filling.{put};
ghost use Rattle.unfolding.specs.Emitted.{entry};
ghost use Rattle.unfolding.specs.Walking.{Writable, ChainPre, ChainPost};
ghost use Rattle.unfolding.specs.Unfolded.{Unfoldable, Unfolded};

use book::{Action, ChainNumber, Contents, RULES, RuleNumber, Verdict};

// The actions of a chain's list rules, by document 01's numbers.
const ACCEPT: u32 = Verdict::Accept as u32;

const DROP: u32 = Verdict::Drop as u32;

// A list rule, from word `at` on: the number of its action, its own, a count, and its conditions. Answers where the next one goes.
fn write_rule(
    conditions: &[u32],
    action: u32,
    number: RuleNumber,
    words: &mut [u32],
    at: usize,
) -> usize
    requires { Writable conditions.now words.old at }
    ensures next { result ≡ at + (length conditions.now + 3) }
    ensures written { words.new ≡ put words.old at (entry action number.0 conditions.now) }
{
    let count = conditions.len();
    words[at] = action;
    words[at + 1] = number.0;
    words[at + 2] = count as u32;
    let from = at + 3;
    // word by word: the library's copy would need `memmove` of whoever links the exports
    for i in 0..count {
        words[from + i] = conditions[i];
    }
    from + count
}

// A chain's rules under the first n conditions of ctx. The depth falls at each call; without loops a chain's rank, the count of
// chains that it reaches, is always below it.
fn unfold_chain(
    contents: &Contents,
    chain: ChainNumber,
    depth: usize,
    ctx: &mut [u32],
    n: usize,
    words: &mut [u32],
    at: usize,
) -> usize
    requires { ChainPre contents.now chain.0 depth ctx.old n words.old at }
    ensures { ChainPost contents.now chain.0 depth ctx.old n words.old at result ctx.new words.new }
{
    let c = chain.0 as usize;
    let first = contents.first[c] as usize;
    let end = contents.first[c + 1] as usize;
    let mut m = n;
    let mut to = at;
    for i in first..end {
        let noted = contents.noted[i];
        let number = RuleNumber(i as u32);
        // the rule's own match stands behind the m conditions of its place
        ctx[m] = 2 * noted.expression;
        match noted.action {
            Action::Accept => to = write_rule(&ctx[..m + 1], ACCEPT, number, words, to),
            // a reject denies as a drop does
            Action::Drop | Action::Reject => to = write_rule(
                &ctx[..m + 1],
                DROP,
                number,
                words,
                to,
            ),
            Action::Log | Action::Empty => {}
            // what stands after a return in its chain is met only where the return fails
            Action::Return => {
                ctx[m] += 1;
                m += 1;
            }
            // the call's match holds in the called chain; that chain's own returns end with it
            Action::Call(called) => {
                to = unfold_chain(contents, called, depth - 1, ctx, m + 1, words, to);
            }
        }
    }
    to
}

// The whole list: the entry's rules, and last the policy, a word of any number. Answers how many words it has.
pub fn unfold(contents: &Contents, policy: u32, words: &mut [u32]) -> usize
    requires { Unfoldable contents.now policy (length words.old) }
    ensures { Unfolded contents.now policy words.old result words.new }
{
    let mut ctx = [0; RULES];
    let to = unfold_chain(
        contents,
        ChainNumber(0),
        contents.chains,
        &mut ctx,
        0,
        words,
        0,
    );
    write_rule(&[], policy, RuleNumber(contents.rules as u32), words, to)
}
