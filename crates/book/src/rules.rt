// Reads a rule and the rules of a chain, and notes each as it is read.
ghost use Rattle.std.specs.Prelude.{◌≡◌, ℕ, map, ◌≤◌, length};
ghost use Rattle.model.specs.Limits.{book_bytes};
ghost use Rattle.model.specs.Reader.{each};
ghost use Rattle.model.specs.Book.{action_in, rule};
ghost use Rattle.refusals.specs.Refusals.{told};
ghost use Rattle.expressions.specs.Told.{noted, stand};
ghost use Rattle.book.specs.Contents.{note_of};
ghost use Rattle.book.specs.Inner.{Finds, answered, call_in, action_read, rule_read};

use super::{Action, ChainNumber, NotedRule};
use expressions::{ExpressionRead, LEVELS, read_expression};
use numbers::read_number;
use refusals::{Fault, Refusal};

// An action and the place after it.
#[derive(Clone, Copy)]
struct ActionRead {
    action: Action,
    next: usize,
}

// A rule as its reading leaves it: what is noted of it, and where it ends.
#[derive(Clone, Copy)]
struct RuleRead {
    noted: NotedRule,
    end: ExpressionRead,
}

// The chain that a call names. The entry can't be called.
fn read_called(s: &[u8], at: usize, chains: u32) -> Result<ActionRead, Refusal>
    ensures { (rules sources : ℕ) → told result ≡ answered action_read (call_in chains s.now (stand at rules sources)) }
{
    let number = read_number(s, at)?;
    if !(1..chains).contains(&number.value) {
        return Err(Fault::BadCall.at(at));
    }
    Ok(ActionRead {
        action: Action::Call(ChainNumber(number.value)),
        next: number.next,
    })
}

fn read_action(s: &[u8], at: usize, chains: u32) -> Result<ActionRead, Refusal>
    ensures { (rules sources : ℕ) → told result ≡ answered action_read (action_in chains s.now (stand at rules sources)) }
{
    let number = read_number(s, at)?;
    let action = match number.value {
        0 => Action::Accept,
        1 => Action::Drop,
        2 => Action::Reject,
        3 => Action::Log,
        4 => Action::Empty,
        5 => Action::Return,
        6 => return read_called(s, number.next, chains),
        _ => return Err(Fault::OutOfRange.at(at)),
    };
    Ok(ActionRead {
        action,
        next: number.next,
    })
}

fn read_rule(s: &[u8], at: usize, chains: u32, sources: u32) -> Result<RuleRead, Refusal>
    requires { length s.now ≤ book_bytes }
    ensures { (i rules : ℕ) → told result ≡ answered rule_read (rule chains i s.now (stand at rules sources)) }
{
    let action = read_action(s, at, chains)?;
    let end = read_expression(s, action.next, LEVELS, sources)?;
    Ok(RuleRead {
        noted: NotedRule {
            place: at as u32,
            action: action.action,
            expression: action.next as u32,
            end: end.next as u32,
        },
        end,
    })
}

// The rules of one chain, each noted in its slot as it is read.
pub fn read_rules(
    s: &[u8],
    at: usize,
    chains: u32,
    sources: u32,
    slots: &mut [NotedRule],
) -> Result<ExpressionRead, Refusal>
    requires { length s.now ≤ book_bytes }
    ensures answer { (first rules : ℕ) → told result ≡ noted (each (length slots.old) first (rule chains) s.now (stand at rules sources)) }
    ensures held { (first rules : ℕ) → Finds (each (length slots.old) first (rule chains) s.now (stand at rules sources)) (λ rs st. slots.new ≡ map note_of rs) }
{
    let mut read = ExpressionRead { next: at, sources };
    for slot in slots {
        let rule = read_rule(s, read.next, chains, read.sources)?;
        *slot = rule.noted;
        read = rule.end;
    }
    Ok(read)
}
