// Ports in number and order, and the rule and the source that refuse them.
use crate::put::{bytes, ports};
use crate::show::{report_all, report_books, report_plans, reported, with_text};
use text::put_text;

fn few(rt: &HostRuntime, book: &[u8]) {
    report_all(
        rt,
        &[
            ("no ports", book, b"\x01\x00"),
            ("no ports, no rules", b"\x01\x01\x00\x00", b"\x01\x00"),
            (
                "ports 5, 9 and 31",
                book,
                b"\x01\x03\x05\x00\x09\x00\x1F\x00",
            ),
        ],
    );
}

// Ranges for ports 11, 12 and 31.
fn ranged(b: &mut [u8]) -> usize {
    let mut at = bytes(b, 0, b"\x01\x20");
    at = ports(b, at, 0, 11);
    at = bytes(b, at, b"\x0B\x01\x00\xFF\xFF\xFF\x4F\x0C\x01\x00\x00");
    at = ports(b, at, 13, 31);
    bytes(b, at, b"\x1F\x01\x00\xFE\xFF\xFF\xFF\x0F")
}

// Rules for ports 0, 1, 2, 9, 10, 11, 12, 30 and 31, and the policy drop for the others.
fn refused_by_rules(rt: &HostRuntime) {
    let mut book = [0u8; 82];
    let mut at = bytes(
        &mut book,
        0,
        b"\x01\x01\x01\x0C\x01\x04\x00\x00\x04\x01\x01\x02\x02\x04\x02\x03\x00\x09\x00\x04\x02",
    );
    at = bytes(
        &mut book,
        at,
        b"\x01\x02\x02\x04\x09\x01\x03\xFF\xFF\xFF\xFF\x0F\xFF\xFF\xFF\xFF\x0F\x00\x04\x09",
    );
    at = bytes(
        &mut book,
        at,
        b"\x00\x02\x02\x04\x0A\x03\x83\x84\x84\x50\x83\x84\x84\x50\x00\x02\x02\x04\x0B\x08\x05",
    );
    bytes(
        &mut book,
        at,
        b"\x01\x02\x02\x04\x0C\x08\x05\x00\x04\x0C\x00\x02\x02\x04\x1E\x04\x1F\x00\x04\x1F",
    );
    let mut plan = [0u8; 79];
    ranged(&mut plan);
    reported(rt, "32 ports, some refused", &book, &plan);
}

// Each port has its own ranges; the greatest count of them.
fn ranges(rt: &HostRuntime, book: &[u8]) {
    let three = b"\x01\x03\x00\x01\x05\x06\x01\x01\x00\x00\x02\x02\x00\x09\x0B\x14";
    reported(rt, "three ports with ranges", book, three);
    let mut plan = [0u8; 132];
    let mut at = bytes(&mut plan, 0, b"\x01\x01\x00\x40");
    for i in 0..64u8 {
        at = bytes(&mut plan, at, &[2 * i, 2 * i]);
    }
    reported(rt, "64 ranges", book, &plan);
}

// An accept of all names the lowest source outside the ranges.
fn lowest(rt: &HostRuntime, book: &[u8]) {
    report_plans(
        rt,
        book,
        &[
            (
                "all sources but 0.0.0.0",
                b"\x01\x01\x00\x01\x01\xFF\xFF\xFF\xFF\x0F",
            ),
            (
                "all sources but 255.255.255.255",
                b"\x01\x01\x00\x01\x00\xFE\xFF\xFF\xFF\x0F",
            ),
            (
                "sources to 192.168.0.255",
                b"\x01\x01\x00\x01\x00\xFF\x81\xA0\x85\x0C",
            ),
            (
                "sources to 9.10.99.99",
                b"\x01\x01\x00\x01\x00\xE3\xC6\xA9\x48",
            ),
            ("all sources", b"\x01\x01\x00\x01\x00\xFF\xFF\xFF\xFF\x0F"),
        ],
    );
}

// The policy refuses by the total of rules. Reject drops, log and empty are not in the list.
fn policies(rt: &HostRuntime, plan: &[u8]) {
    report_books(
        rt,
        plan,
        &[
            ("no rules, policy accept", b"\x01\x01\x00\x00"),
            ("no rules, policy drop", b"\x01\x01\x01\x00"),
            (
                "log, empty, an accept of no port, policy accept",
                b"\x01\x01\x00\x03\x03\x00\x04\x00\x00\x02\x02\x04\x00\x04\x01",
            ),
            ("reject of all, policy accept", b"\x01\x01\x00\x01\x02\x00"),
            (
                "log, empty, accept",
                b"\x01\x01\x01\x03\x03\x00\x04\x00\x00\x00",
            ),
        ],
    );
}

// Bytes of 4 are rules that do nothing for port 4. The first rule drops all sources but the greatest, and the last may accept.
fn numbers(rt: &HostRuntime) {
    let mut plan = [0u8; 66];
    let at = bytes(&mut plan, 0, b"\x01\x20");
    ports(&mut plan, at, 0, 32);
    let mut book = [4u8; 3087];
    put_text(
        &mut book,
        0,
        b"\x01\x01\x00\x80\x08\x01\x01\x03\xFF\xFF\xFF\xFF\x0F\xFF\xFF\xFF\xFF\x0F",
    );
    let mut text = [b'.'; 1591];
    with_text(
        rt,
        "32 ports by the policy, 1590 bytes",
        &book,
        &plan,
        &mut text[..1590],
    );
    with_text(
        rt,
        "32 ports by the policy, 1591 bytes",
        &book,
        &plan,
        &mut text,
    );
    book[3084] = 0;
    reported(
        rt,
        "port 4 by the last of 1024 rules",
        &book,
        b"\x01\x02\x03\x00\x04\x00",
    );
}

// The book of the ranges accepts all; the plan of the policies has no ranges.
pub fn all(rt: &HostRuntime, c1: &[u8]) {
    let accepting = b"\x01\x01\x01\x01\x00\x00";
    few(rt, c1);
    refused_by_rules(rt);
    ranges(rt, accepting);
    lowest(rt, accepting);
    policies(rt, b"\x01\x01\x00\x00");
    numbers(rt);
}
