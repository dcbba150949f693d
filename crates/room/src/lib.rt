// How many rules and words the unfolded list needs, without unfolding: over a read book's contents, each chain counted once.
#![tactic(auto)]

ghost use Rattle.std.specs.Prelude.{◌≡◌, ℕ, ◌+◌, ◌<◌, ◌≤◌};
ghost use Rattle.model.specs.Limits.{chains_most};
ghost use Rattle.model.specs.Tree.{Book};
ghost use Rattle.book.specs.Contents.{said, Shape, first_of, rules_in};
ghost use Rattle.book.specs.declared.ChainNumber.{ChainNumber};
ghost use Rattle.book.specs.declared.Action.TheVariants.{Call};
ghost use Rattle.calls.specs.Actions.{Actions, actions_at};
ghost use Rattle.calls.specs.Weights.{rank_in, Ranked};
ghost use Rattle.calls.specs.Checked.{Passes};
ghost use Rattle.room.specs.declared.Need.{Need};
ghost use Rattle.room.specs.Counting.{put, counted, need_of};
ghost use Rattle.room.specs.Capped.{need_most, least, Small, Kept, kept, Known, Counting, Upto};

use book::{Action, CHAINS, Contents};

// A list rule's words before its conditions: action, rule number, count.
const HEAD: usize = 3;

// An entry of this weight is the heaviest that passes.
const WEIGHT: usize = calls::WEIGHT as usize;

// So no entry that passes needs more: at most as many rules, each of at most as many conditions. It stands for every greater need,
// which a chain that the entry does not reach may have.
const MOST: usize = WEIGHT * (WEIGHT + HEAD);

// Of a chain under no condition of its callers, or of the whole list.
#[derive(Clone, Copy, PartialEq, Eq)]
pub struct Need {
    pub rules: usize,
    pub words: usize,
}

// Of no rule, and of one that leaves nothing in the list.
const NOTHING: Need = Need { rules: 0, words: 0 };

// What one rule puts into the list, before the conditions of its chain: a call puts what the called chain does.
fn put_by(action: Action, needs: &[Need; CHAINS]) -> Need
    requires { (d : ChainNumber) → action ≡ Call d → d.0 < chains_most }
    ensures { result ≡ put (kept needs.now) (said action) }
{
    match action {
        Action::Accept | Action::Drop | Action::Reject => Need {
            rules: 1,
            words: HEAD,
        },
        Action::Log | Action::Empty | Action::Return => NOTHING,
        Action::Call(chain) => needs[chain.0 as usize],
    }
}

// What chain c puts into the list under no condition but its own.
fn count_chain(contents: &Contents, c: usize, needs: &[Need; CHAINS]) -> Need
    requires { Shape contents.now × (c < contents.now.chains) × Kept needs.now }
    ensures { Small result
        × ((f : ℕ → Need)
        → Known contents.now f (kept needs.now) c
        → result ≡ least (counted f 1 (actions_at contents.now (first_of contents.now c) (rules_in contents.now c)))) }
{
    // the conditions that a rule has of its own chain: the returns before it, and its own match
    let mut held = 1;
    let mut need = NOTHING;
    for rule in contents.rules_of(c) {
        let own = put_by(rule.action, needs);
        need.rules = (need.rules + own.rules).min(MOST);
        need.words = (need.words + own.words + held * own.rules).min(MOST);
        if rule.action == Action::Return {
            held += 1;
        }
    }
    need
}

// The chains of one rank: what they call has a lower rank and is counted.
fn count_rank(contents: &Contents, ranks: &[u32; CHAINS], level: usize, needs: &mut [Need; CHAINS])
    requires { Shape contents.now × Kept needs.old }
    ensures { Kept needs.new
        × ((f : ℕ → Need)
        → Counting contents.now (rank_in ranks.now) f
        → Upto contents.now.chains (rank_in ranks.now) f level (kept needs.old)
        → Upto contents.now.chains (rank_in ranks.now) f (level + 1) (kept needs.new)) }
{
    for c in 0..contents.chains {
        if ranks[c] as usize == level {
            needs[c] = count_chain(contents, c, needs);
        }
    }
}

// The list's need: the entry's, and the policy under no condition.
pub fn room(contents: &Contents, ranks: &[u32; CHAINS]) -> Need
    requires { Shape contents.now }
    ensures { (result.rules ≤ need_most + 1)
        × (result.words ≤ need_most + 3)
        × ((b : Book) → Actions b contents.now → Ranked contents.now (rank_in ranks.now) → Passes b → result ≡ need_of b) }
{
    let mut needs = [NOTHING; CHAINS];
    for level in 0..contents.chains {
        count_rank(contents, ranks, level, &mut needs);
    }
    let entry = needs[0];
    Need {
        rules: entry.rules + 1,
        words: entry.words + HEAD,
    }
}
