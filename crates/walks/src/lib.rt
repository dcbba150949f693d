// The verdict of a book's chains and of its unfolded list, out of the bytes and contents of a book that was read.
#![tactic(auto)]

ghost use Rattle.std.specs.Prelude.{◌≡◌};
ghost use Rattle.model.specs.Verdict.{taken};
ghost use Rattle.matching.specs.Sight.{tri_of};
ghost use Rattle.walks.specs.Packets.{asking_of, tactic_of};
ghost use Rattle.walks.specs.Walks.{Keeping, HasChain, HasChains, HasRule, WalksRule, WalksChain, ChainsSay};
ghost use Rattle.walks.specs.Lists.{Listing, ListSays};

use book::{Action, ChainNumber, Contents, RuleNumber, Verdict};
use matching::{Asking, Header, Truth, eval_conditions, eval_expression};

// Each of any value. `service` is the destination port number, `port` the input port: one above 31 equals none in a book.
#[derive(Clone, Copy, PartialEq, Eq)]
pub struct Packet {
    pub source: u32,
    pub destination: u32,
    pub protocol: u32,
    pub service: u32,
    pub port: u32,
}

impl Packet {
    // All of the packet is known. `told`: the unread matches are, out of the answers.
    fn asking(self, told: bool) -> Asking
        ensures { result ≡ asking_of self told }
    {
        Asking {
            port: self.port,
            header: Some(Header {
                destination: self.destination,
                protocol: self.protocol,
                service: self.service,
            }),
            told,
        }
    }
}

// What a closure does with a rule in doubt: upper takes an accept and skips a drop, and lower the reverse.
#[derive(Clone, Copy, PartialEq, Eq)]
pub enum Tactic {
    Upper,
    Lower,
}

impl Tactic {
    // Whether a rule whose conditions have this value is taken.
    fn takes(self, action: u32, value: Truth) -> bool
        ensures { result ≡ taken (tactic_of self) action (tri_of value) }
    {
        match value {
            Truth::No => false,
            Truth::Unknown => match self {
                Tactic::Upper => action == Verdict::Accept.number(),
                Tactic::Lower => action == Verdict::Drop.number(),
            },
            Truth::Yes => true,
        }
    }
}

// What a rule does to its chain: decides the verdict, ends the chain undecided, or goes on to the rules behind.
#[derive(Clone, Copy)]
enum Step {
    Decides(Verdict),
    Leaves,
    GoesOn,
}

// One rule of a chain, where calls nest at most `depth` deep.
#[cycle(walk_chain_walk_rule)]
fn walk_rule(
    s: &[u8],
    answers: &[u8],
    p: Packet,
    contents: &Contents,
    rule: RuleNumber,
    depth: u32,
) -> Step
    requires { Keeping s.now contents.now (HasRule s.now contents.now rule.0) }
    ensures { WalksRule s.now answers.now p contents.now rule.0 depth result }
{
    let noted = contents.noted[rule.0 as usize];
    let seen = eval_expression(
        s,
        answers,
        p.asking(true),
        p.source,
        noted.expression as usize,
    );
    if seen.held.value != Truth::Yes {
        return Step::GoesOn;
    }
    match noted.action {
        Action::Accept => Step::Decides(Verdict::Accept),
        Action::Drop | Action::Reject => Step::Decides(Verdict::Drop),
        Action::Log | Action::Empty => Step::GoesOn,
        Action::Return => Step::Leaves,
        // Undecided, a call leaves its own chain to go on behind it.
        Action::Call(chain) => match walk_chain(s, answers, p, contents, chain, depth) {
            Some(verdict) => Step::Decides(verdict),
            None => Step::GoesOn,
        },
    }
}

// A chain's rules in their order: their verdict, if they come to one. The depth falls at each call, so that the walk ends whatever the
// chains call.
#[cycle(walk_chain_walk_rule)]
fn walk_chain(
    s: &[u8],
    answers: &[u8],
    p: Packet,
    contents: &Contents,
    chain: ChainNumber,
    depth: u32,
) -> Option<Verdict>
    requires { Keeping s.now contents.now (HasChain chain.0) }
    ensures { WalksChain s.now answers.now p contents.now chain.0 depth result }
{
    if depth == 0 {
        return None;
    }
    let c = chain.0 as usize;
    for i in contents.first[c]..contents.first[c + 1] {
        match walk_rule(s, answers, p, contents, RuleNumber(i), depth - 1) {
            Step::Decides(verdict) => return Some(verdict),
            Step::Leaves => return None,
            Step::GoesOn => {}
        }
    }
    None
}

// The verdict of the chains, as a number, since it promises for policies of any number. Without loops, calls nest no deeper than there
// are chains.
pub fn chain_verdict(s: &[u8], answers: &[u8], p: Packet, contents: &Contents, policy: u32) -> u32
    requires { Keeping s.now contents.now (HasChains contents.now.chains) }
    ensures { ChainsSay s.now answers.now p contents.now policy result }
{
    let walk = walk_chain(
        s,
        answers,
        p,
        contents,
        ChainNumber(0),
        contents.chains as u32,
    );
    match walk {
        Some(verdict) => verdict.number(),
        None => policy,
    }
}

// The verdict of a list: the action of the first rule that is taken. One function for the exact verdict and the closures: they differ in
// whether they are told the unread matches, and in what they do in doubt. It answers a number, since it promises for lists of any actions.
pub fn list_verdict(
    s: &[u8],
    answers: &[u8],
    list: &[u32],
    p: Packet,
    told: bool,
    tactic: Tactic,
) -> u32
    requires { Listing s.now list.now }
    ensures { ListSays s.now answers.now list.now p told tactic result }
{
    let asking = p.asking(told);
    let mut rest = list;
    while let [action, _, count, behind @ ..] = rest {
        let (conditions, after) = behind.split_at(*count as usize);
        let held = eval_conditions(s, answers, conditions, asking, p.source);
        if tactic.takes(*action, held.value) {
            return *action;
        }
        rest = after;
    }
    Verdict::Drop.number()
}
