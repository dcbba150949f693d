// Reads a match expression of a book: an expression and its list of operands are read in turns.
#![tactic(auto)]

ghost use Rattle.std.specs.Prelude.{◌≡◌, ℕ, suc};
ghost use Rattle.model.specs.Reader.{each};
ghost use Rattle.model.specs.Book.{within, expression};
ghost use Rattle.refusals.specs.Refusals.{told};
ghost use Rattle.expressions.specs.Told.{noted, stand, twice};
ghost use Rattle.expressions.specs.Kinds.{Names, Plain};

use numbers::{LARGEST, read_field, read_number};
use refusals::{Fault, Refusal};

// Where reading an expression ends: the place after it, and the kinds 3 counted so far.
#[derive(Clone, Copy, PartialEq, Eq)]
pub struct ExpressionRead {
    pub next: usize,
    pub sources: u32,
}

// The kinds of an expression, in the order of their numbers.
#[derive(Clone, Copy, PartialEq, Eq)]
pub enum Kind {
    Always,
    Not,
    All,
    Source,
    Port,
    Destination,
    Protocol,
    Service,
    Unread,
}

// A number that names no kind.
#[derive(Clone, Copy, PartialEq, Eq)]
pub struct UnknownKind(pub u32);

impl TryFrom<u32> for Kind {
    type Error = UnknownKind;

    ghost try_from_gives = { Names };

    fn try_from(number: u32) -> Result<Kind, UnknownKind> {
        Ok(match number {
            0 => Kind::Always,
            1 => Kind::Not,
            2 => Kind::All,
            3 => Kind::Source,
            4 => Kind::Port,
            5 => Kind::Destination,
            6 => Kind::Protocol,
            7 => Kind::Service,
            8 => Kind::Unread,
            _ => return Err(UnknownKind(number)),
        })
    }
}

// The levels that a rule's own expression may enter: its own and those below it.
pub const LEVELS: u32 = 16;

const SOURCES: u32 = 512;

const OPERANDS: u64 = 16;

const PORT: u64 = 31;

const PROTOCOL: u64 = 255;

const SERVICE: u64 = 65535;

const UNREAD: u64 = 255;

// An address is any number.
const ADDRESS: u64 = LARGEST;

// An expression's one number.
fn read_one(s: &[u8], at: usize, high: u64, sources: u32) -> Result<ExpressionRead, Refusal>
    ensures { (rules : ℕ) → told result ≡ noted (within 0 high s.now (stand at rules sources)) }
{
    let number = read_field(s, at, 0, high)?;
    Ok(ExpressionRead {
        next: number.next,
        sources,
    })
}

// An expression's low and high. Inlined, and what reads by kind returns in each arm: else the answer is copied byte by byte.
#[inline(always)]
fn read_two(s: &[u8], at: usize, high: u64, sources: u32) -> Result<ExpressionRead, Refusal>
    ensures { (rules : ℕ) → told result ≡ noted (twice high s.now (stand at rules sources)) }
{
    let low = read_field(s, at, 0, high)?;
    read_one(s, low.next, high, sources)
}

// What stands after a kind without operands. The kind stands at `place`, where 7 is given.
fn read_plain(
    s: &[u8],
    place: usize,
    kind: Kind,
    at: usize,
    sources: u32,
) -> Result<ExpressionRead, Refusal>
    requires { Plain s.now place kind at }
    ensures { (levels rules : ℕ) → told result ≡ noted (expression (suc levels) s.now (stand place rules sources)) }
{
    match kind {
        Kind::Source if SOURCES <= sources => return Err(Fault::TooManySources.at(place)),
        Kind::Source => return read_two(s, at, ADDRESS, sources + 1),
        Kind::Port => return read_one(s, at, PORT, sources),
        Kind::Destination => return read_two(s, at, ADDRESS, sources),
        Kind::Protocol => return read_one(s, at, PROTOCOL, sources),
        Kind::Service => return read_two(s, at, SERVICE, sources),
        Kind::Unread => return read_one(s, at, UNREAD, sources),
        _ => return Ok(ExpressionRead { next: at, sources }),
    }
}

// An expression that may enter so many levels, where so many kinds 3 stand before it. The level is checked before the kind is read.
#[cycle(read_expression_read_operands)]
pub fn read_expression(
    s: &[u8],
    at: usize,
    levels: u32,
    sources: u32,
) -> Result<ExpressionRead, Refusal>
    ensures { (rules : ℕ) → told result ≡ noted (expression levels s.now (stand at rules sources)) }
{
    if levels == 0 {
        return Err(Fault::TooDeep.at(at));
    }
    let number = read_number(s, at)?;
    let Ok(kind) = Kind::try_from(number.value) else {
        return Err(Fault::OutOfRange.at(at));
    };
    match kind {
        Kind::Not => return read_expression(s, number.next, levels - 1, sources),
        Kind::All => {
            let count = read_field(s, number.next, 2, OPERANDS)?;
            read_operands(s, count.next, levels - 1, sources, count.value)
        }
        _ => return read_plain(s, at, kind, number.next, sources),
    }
}

// So many operands, one after the other.
#[cycle(read_expression_read_operands)]
fn read_operands(
    s: &[u8],
    at: usize,
    levels: u32,
    sources: u32,
    count: u32,
) -> Result<ExpressionRead, Refusal>
    ensures { (rules i : ℕ) → told result ≡ noted (each count i (λ j. expression levels) s.now (stand at rules sources)) }
{
    let mut read = ExpressionRead { next: at, sources };
    for _ in 0..count {
        read = read_expression(s, read.next, levels, read.sources)?;
    }
    Ok(read)
}
