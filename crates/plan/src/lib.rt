// Reads an address plan: refusals 11 and 12.
#![tactic(auto)]

ghost use Rattle.std.specs.Prelude.{◌≡◌, ◌+◌, ◌≤◌};
ghost use Rattle.model.specs.Limits.{ports_most, ranges_most};
ghost use Rattle.model.specs.Book.{within};
ghost use Rattle.model.specs.Plan.{plan_of, ports_from, ranges_from};
ghost use Rattle.refusals.specs.Refusals.{told};
ghost use Rattle.plan.specs.Contents.{plan_answer, slots, asked};
ghost use Rattle.plan.specs.Written.{standing, one_port, FieldIs, RangesAre, PortIs, PortsAre};

use numbers::{LARGEST, Number, read_field};
use refusals::{Fault, Refusal};

// The ports of a plan, at most; one more, for where the last port's ranges end; the ranges of all ports, at most.
pub const PORTS: usize = 32;

pub const STARTS: usize = PORTS + 1;

pub const RANGES: usize = PORTS * RANGES_MOST as usize;

pub const BYTES: usize = 32768;

const GREATEST: u64 = LARGEST;

const PORT_HIGHEST: u64 = 31;

const PORTS_MOST: u64 = PORTS as u64;

const RANGES_MOST: u64 = 64;

// A plan's ports in order: the number of each, and its ranges, which are those from first[i] up to, not with, first[i + 1]. Slots that
// are not used are 0. The ends are two arrays, as what walks over the addresses outside takes them.
#[derive(Clone, Copy)]
pub struct PlanContents {
    pub ports: usize,
    pub number: [u32; PORTS],
    pub first: [u32; STARTS],
    pub low: [u32; RANGES],
    pub high: [u32; RANGES],
}

// A port's number, its count of ranges and the place after them.
#[derive(Clone, Copy, PartialEq, Eq)]
struct PortRead {
    number: u32,
    ranges: u32,
    next: usize,
}

// Every fault of a plan is refusal 11, at the first bad number.
fn plan_field(s: &[u8], at: usize, low: u64, high: u64) -> Result<Number, Refusal>
    ensures { FieldIs low high result (within low high s.now (standing at)) }
{
    read_field(s, at, low, high).map_err(|_| Fault::BadPlan.at(at))
}

// The ranges of one port, into the slots from `to` on; answers the place after them.
fn read_ranges(
    s: &[u8],
    at: usize,
    count: u32,
    to: usize,
    contents: &mut PlanContents,
) -> Result<usize, Refusal>
    requires { to + count ≤ slots }
    ensures { RangesAre count to contents.old contents.new result (ranges_from count 0 s.now (standing at)) }
{
    let mut next = at;
    let mut least: u64 = 0;
    for i in to..to + count as usize {
        let low = plan_field(s, next, least, GREATEST)?;
        let high = plan_field(s, low.next, u64::from(low.value), GREATEST)?;
        contents.low[i] = low.value;
        contents.high[i] = high.value;
        // one address at least stays between two ranges
        least = u64::from(high.value) + 2;
        next = high.next;
    }
    Ok(next)
}

fn read_port(
    s: &[u8],
    at: usize,
    least: u64,
    to: usize,
    contents: &mut PlanContents,
) -> Result<PortRead, Refusal>
    requires { to + ranges_most ≤ slots }
    ensures { PortIs to contents.old contents.new result (one_port least s.now (standing at)) }
{
    let number = plan_field(s, at, least, PORT_HIGHEST)?;
    let count = plan_field(s, number.next, 0, RANGES_MOST)?;
    let next = read_ranges(s, count.next, count.value, to, contents)?;
    Ok(PortRead {
        number: number.value,
        ranges: count.value,
        next,
    })
}

// As many ports as the contents say; answers the place after them.
fn read_ports(s: &[u8], at: usize, contents: &mut PlanContents) -> Result<usize, Refusal>
    requires { contents.old.ports ≤ ports_most }
    ensures { PortsAre contents.old.ports 0 0 contents.old contents.new result (ports_from contents.old.ports 0 s.now (standing at)) }
{
    let mut next = at;
    let mut least: u64 = 0;
    let mut to: usize = 0;
    for i in 0..contents.ports {
        let port = read_port(s, next, least, to, contents)?;
        contents.number[i] = port.number;
        contents.first[i] = to as u32;
        least = u64::from(port.number) + 1;
        to += port.ranges as usize;
        next = port.next;
    }
    contents.first[contents.ports] = to as u32;
    Ok(next)
}

// Not inlined: a caller's frame would hold the contents once more, and the stack is small.
#[inline(never)]
pub fn read_plan(s: &[u8]) -> Result<PlanContents, Refusal>
    ensures { told result ≡ plan_answer (plan_of s.now) }
{
    if BYTES < s.len() {
        return Err(Fault::BadPlan.at(0));
    }
    let edition = plan_field(s, 0, 1, 1)?;
    let ports = plan_field(s, edition.next, 0, PORTS_MOST)?;
    let mut contents = PlanContents {
        ports: ports.value as usize,
        number: [0; PORTS],
        first: [0; STARTS],
        low: [0; RANGES],
        high: [0; RANGES],
    };
    let end = read_ports(s, ports.next, &mut contents)?;
    if end != s.len() {
        return Err(Fault::BadPlan.at(end));
    }
    Ok(contents)
}

// Where in the contents the asked port stands; none is refusal 12.
pub fn port_index(plan: &PlanContents, port: u32) -> Option<usize>
    requires { plan.now.ports ≤ ports_most }
    ensures { result ≡ asked plan.now.number port 0 plan.now.ports }
{
    plan.number[..plan.ports]
        .iter()
        .position(|&number| number == port)
}
