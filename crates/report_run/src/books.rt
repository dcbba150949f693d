// Books that are refused, by each of the refusals 1 to 10, beside some that just pass.
use crate::put::{bytes, doubling};
use crate::show::{report_books, reported};

// Books of n bytes: those given, and then all of one value.
fn filled(rt: &HostRuntime, plan: &[u8], cases: &[(&str, &[u8], u8, usize)]) {
    for &(name, head, value, n) in cases {
        let mut b = [value; 65536];
        bytes(&mut b, 0, head);
        if let Some(book) = b.get(..n) {
            reported(rt, name, book, plan);
        }
    }
}

// Refusal 1 by the length, whatever the bytes; a byte less is read.
fn lengths(rt: &HostRuntime, plan: &[u8]) {
    filled(
        rt,
        plan,
        &[
            ("65536 bytes, edition 0", b"", 0, 65536),
            ("65535 bytes, edition 0", b"", 0, 65535),
            (
                "the smallest book, then up to 65536 bytes",
                b"\x01\x01",
                0,
                65536,
            ),
            (
                "the smallest book, then up to 65535 bytes",
                b"\x01\x01",
                0,
                65535,
            ),
        ],
    );
}

fn unread(rt: &HostRuntime, plan: &[u8]) {
    report_books(
        rt,
        plan,
        &[
            // Refusal 2.
            ("80 at the end", b"\x80"),
            ("high cut", b"\x01\x01\x00\x01\x00\x03\x00\x80\x80"),
            (
                "C1 with a byte less",
                b"\x01\x01\x01\x02\x01\x02\x02\x04\x00\x01\x03\x80\x80\xA0\x85\x0C\xFF\x81\xA0\x85\x0C\x00",
            ),
            // Refusal 3.
            ("80 00 as edition", b"\x80\x00"),
            (
                "high with fifth byte 16",
                b"\x01\x01\x00\x01\x00\x03\x00\xFF\xFF\xFF\xFF\x10",
            ),
            // Refusal 4, by the edition, each count, the policy, the action, the kind and a field.
            ("edition 2", b"\x02\x01\x00\x00"),
            ("65 chains", b"\x01\x41"),
            ("policy 2", b"\x01\x01\x02\x00"),
            (
                "1 rule and 4294967295 more",
                b"\x01\x02\x00\x01\x00\x00\xFF\xFF\xFF\xFF\x0F",
            ),
            ("action 7", b"\x01\x01\x00\x01\x07\x00"),
            ("kind 9", b"\x01\x01\x00\x01\x00\x09"),
            ("1 operand", b"\x01\x01\x00\x01\x00\x02\x01\x00"),
            ("port 32", b"\x01\x01\x00\x01\x00\x04\x20"),
            (
                "port number high 65536",
                b"\x01\x01\x00\x01\x00\x07\x00\x80\x80\x04",
            ),
            // Refusals 5 and 6.
            ("called chain 0", b"\x01\x02\x00\x01\x06\x00\x00\x00"),
            ("called chain 2 of 2", b"\x01\x02\x00\x01\x06\x02\x00\x00"),
            (
                "level 16",
                b"\x01\x01\x01\x01\x00\x01\x01\x01\x01\x01\x01\x01\x01\x01\x01\x01\x01\x01\x01\x01\x00",
            ),
            (
                "level 17",
                b"\x01\x01\x01\x01\x00\x01\x01\x01\x01\x01\x01\x01\x01\x01\x01\x01\x01\x01\x01\x01\x01\x00",
            ),
        ],
    );
}

// Refusal 7: bytes of 3 are rules that log the source 3.
fn sources(rt: &HostRuntime, plan: &[u8]) {
    filled(
        rt,
        plan,
        &[
            ("512 kinds 3", b"\x01\x01\x01\x80\x04", 3, 2053),
            ("513 kinds 3", b"\x01\x01\x01\x81\x04", 3, 2057),
        ],
    );
}

// Refusal 8, before 9; and refusal 9: chain 1 leads to a loop and is not on it.
fn behind(rt: &HostRuntime, plan: &[u8]) {
    report_books(
        rt,
        plan,
        &[
            (
                "C1 with a byte more",
                b"\x01\x01\x01\x02\x01\x02\x02\x04\x00\x01\x03\x80\x80\xA0\x85\x0C\xFF\x81\xA0\x85\x0C\x00\x00\x00",
            ),
            (
                "a loop and a byte more",
                b"\x01\x02\x00\x00\x01\x06\x01\x00\x00",
            ),
            ("chain 1 calls itself", b"\x01\x02\x00\x00\x01\x06\x01\x00"),
            (
                "a loop of chains 2 and 3, and one of chain 4",
                b"\x01\x05\x01\x01\x06\x01\x00\x01\x06\x04\x00\x01\x06\x03\x00\x01\x06\x02\x00\x01\x06\x04\x00",
            ),
        ],
    );
}

// The loop is in a chain that nothing calls.
fn last_loop(rt: &HostRuntime, plan: &[u8]) {
    let mut b = [0u8; 70];
    bytes(&mut b, 0, b"\x01\x40");
    bytes(&mut b, 66, b"\x01\x06\x3F");
    reported(rt, "chain 63 of 64 calls itself", &b, plan);
}

// Refusal 10: chains 0 to 11 call the next twice, chain 12 and the entry have two logs more: 2^14. Then an accept more, and a chain that
// calls itself. The entry, chain 12 and what is behind it, and the plan.
fn weights(rt: &HostRuntime, cases: &[(&str, &[u8], &[u8], &[u8])]) {
    for &(name, entry, last, plan) in cases {
        let mut b = [0u8; 128];
        let n = doubling(&mut b, 0, entry, 13, last);
        if let Some(book) = b.get(..n) {
            reported(rt, name, book, plan);
        }
    }
}

fn heavy(rt: &HostRuntime, plan: &[u8]) {
    let fine = b"\x01\x0D\x01\x04\x06\x01\x00\x06\x01\x00\x03\x00\x03\x00";
    let heavy = b"\x01\x0D\x01\x05\x06\x01\x00\x06\x01\x00\x03\x00\x03\x00\x00\x00";
    let looping = b"\x01\x0E\x01\x05\x06\x01\x00\x06\x01\x00\x03\x00\x03\x00\x00\x00";
    weights(
        rt,
        &[
            ("weight 16384", fine, b"\x02\x03\x00\x03\x00", plan),
            ("weight 16385", heavy, b"\x02\x03\x00\x03\x00", plan),
            ("weight 16385, no plan", heavy, b"\x02\x03\x00\x03\x00", b""),
            (
                "weight 16385 and a loop",
                looping,
                b"\x02\x03\x00\x03\x00\x01\x06\x0D\x00",
                plan,
            ),
        ],
    );
}

pub fn all(rt: &HostRuntime, plan: &[u8]) {
    lengths(rt, plan);
    unread(rt, plan);
    sources(rt, plan);
    behind(rt, plan);
    last_loop(rt, plan);
    heavy(rt, plan);
}
