// Reads some plans, each boundary of document 01 among them, and writes what was found: the counts, or the refusal.
#![tactic(auto)]

use plan::{port_index, read_plan};
use refusals::{Fault, Refusal};
use std::io;

fn show(rt: &HostRuntime, name: &str, plan: &[u8]) -> io::Result<()> {
    match read_plan(plan) {
        Ok(contents) => {
            let ranges = contents.first[contents.ports];
            println!(rt; "{name}: ports {} ranges {ranges}", contents.ports)
        }
        Err(refusal) => println!(rt; "{name}: {refusal}"),
    }
}

fn show_all(rt: &HostRuntime, cases: &[(&str, &[u8])]) {
    for &(name, plan) in cases {
        let _ = show(rt, name, plan);
    }
}

fn place_of(plan: &[u8], port: u32) -> Result<usize, Refusal> {
    let contents = read_plan(plan)?;
    port_index(&contents, port).ok_or(Fault::MissingPort.at(port as usize))
}

// Where the asked port of a plan stands.
fn ask(rt: &HostRuntime, plan: &[u8], port: u32) -> io::Result<()> {
    match place_of(plan, port) {
        Ok(i) => println!(rt; "asked {port}: at {i}"),
        Err(refusal) => println!(rt; "asked {port}: {refusal}"),
    }
}

fn ask_all(rt: &HostRuntime, cases: &[(&[u8], u32)]) {
    for &(plan, port) in cases {
        let _ = ask(rt, plan, port);
    }
}

// The edition and the count of ports.
fn editions(rt: &HostRuntime) {
    show_all(
        rt,
        &[
            ("empty", b""),
            ("edition 0", b"\x00\x00"),
            ("edition 1, no ports", b"\x01\x00"),
            ("edition 2", b"\x02\x00"),
            ("edition not shortest", b"\x81\x00\x00"),
            ("count cut", b"\x01\x80"),
        ],
    );
}

// Ports in their order, none with ranges.
fn show_ports(rt: &HostRuntime, name: &str, ports: u8) -> io::Result<()> {
    let mut plan = [0u8; 68];
    plan[0] = 1;
    plan[1] = ports;
    for port in 0..33u8 {
        plan[2 + 2 * usize::from(port)] = port;
    }
    match plan.get(..2 + 2 * usize::from(ports)) {
        Some(plan) => show(rt, name, plan),
        None => Ok(()),
    }
}

// Numbers of ports, and what is missing.
fn ports(rt: &HostRuntime) {
    show_all(
        rt,
        &[
            ("port missing", b"\x01\x01"),
            ("port 31", b"\x01\x01\x1F\x00"),
            ("port 32", b"\x01\x01\x20\x00"),
            ("port again", b"\x01\x02\x03\x00\x03\x00"),
            ("port falls", b"\x01\x02\x03\x00\x02\x00"),
            ("count of ranges missing", b"\x01\x01\x00"),
        ],
    );
}

// 64 ranges of one address each, two apart.
fn many_ranges(rt: &HostRuntime) -> io::Result<()> {
    let mut plan = [0u8; 132];
    plan[0] = 1;
    plan[1] = 1;
    plan[3] = 64;
    for i in 0..64u8 {
        let at = 4 + 2 * usize::from(i);
        plan[at] = 2 * i;
        plan[at + 1] = 2 * i;
    }
    show(rt, "64 ranges", &plan)
}

// The count of ranges, and the low and the high of a range, and the high before, up to the greatest address.
fn ranges(rt: &HostRuntime) {
    show_all(
        rt,
        &[
            ("65 ranges", b"\x01\x01\x00\x41"),
            ("low missing", b"\x01\x01\x00\x01"),
            ("high missing", b"\x01\x01\x00\x01\x05"),
            ("low above high", b"\x01\x01\x00\x01\x05\x04"),
            ("low is high", b"\x01\x01\x00\x01\x05\x05"),
            (
                "low meets the high before",
                b"\x01\x01\x00\x02\x05\x06\x06\x06",
            ),
            (
                "low touches the high before",
                b"\x01\x01\x00\x02\x05\x06\x07",
            ),
            (
                "low two above the high before",
                b"\x01\x01\x00\x02\x05\x06\x08\x08",
            ),
            (
                "range to the greatest",
                b"\x01\x01\x00\x01\x00\xFF\xFF\xFF\xFF\x0F",
            ),
            (
                "range after the greatest",
                b"\x01\x01\x00\x02\x00\xFF\xFF\xFF\xFF\x0F\xFF\xFF\xFF\xFF\x0F\xFF\xFF\xFF\xFF\x0F",
            ),
            (
                "low two above a high of 4294967293",
                b"\x01\x01\x00\x02\x00\xFD\xFF\xFF\xFF\x0F\xFF\xFF\xFF\xFF\x0F\xFF\xFF\xFF\xFF\x0F",
            ),
            (
                "low one above a high of 4294967294",
                b"\x01\x01\x00\x02\x00\xFE\xFF\xFF\xFF\x0F\xFF\xFF\xFF\xFF\x0F\xFF\xFF\xFF\xFF\x0F",
            ),
            (
                "high too large",
                b"\x01\x01\x00\x01\x00\xFF\xFF\xFF\xFF\x10",
            ),
        ],
    );
}

// What follows, and the plan of C2.
fn ends(rt: &HostRuntime) {
    show_all(
        rt,
        &[
            (
                "next port starts anew",
                b"\x01\x02\x00\x01\x05\x06\x01\x01\x00\x00",
            ),
            ("extra byte after no ports", b"\x01\x00\x00"),
            ("extra byte", b"\x01\x01\x00\x00\x07"),
            (
                "C2",
                b"\x01\x02\x00\x01\x80\x80\xA0\x85\x0C\xFF\x81\xA0\x85\x0C\x01\x00",
            ),
        ],
    );
}

fn long_plans(rt: &HostRuntime) {
    let mut long = [0u8; 32769];
    long[0] = 1;
    let _ = show(rt, "32769 bytes", &long);
    let _ = show(rt, "32768 bytes", &long[..32768]);
}

// Ports of C2's plan, and one of a plan without ports.
fn asked(rt: &HostRuntime) {
    let c2 = b"\x01\x02\x00\x01\x80\x80\xA0\x85\x0C\xFF\x81\xA0\x85\x0C\x01\x00";
    ask_all(
        rt,
        &[(c2, 0), (c2, 1), (c2, 2), (c2, 4000), (b"\x01\x00", 0)],
    );
}

// A print that fails is left off: each of the others is tried, and the status is 0.
fn main(rt: HostRuntime) {
    editions(&rt);
    let _ = show_ports(&rt, "32 ports", 32);
    let _ = show_ports(&rt, "33 ports", 33);
    ports(&rt);
    let _ = many_ranges(&rt);
    ranges(&rt);
    ends(&rt);
    long_plans(&rt);
    asked(&rt);
}
