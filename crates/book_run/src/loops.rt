// Chains that reach themselves.
use crate::put::{byte, bytes, calls};
use crate::show::{show_all, show_part};

fn small(rt: &HostRuntime) {
    show_all(
        rt,
        &[
            (
                "chains 1 and 2 call each other",
                b"\x01\x03\x00\x00\x01\x06\x02\x00\x01\x06\x01\x00",
                None,
            ),
            (
                "chain 1 leads to the loop of 2 and 3",
                b"\x01\x04\x00\x00\x01\x06\x03\x00\x01\x06\x03\x00\x01\x06\x02\x00",
                None,
            ),
            (
                "loops of 3 with 4, and of 5",
                b"\x01\x06\x00\x00\x00\x00\x01\x06\x04\x00\x01\x06\x03\x00\x01\x06\x05\x00",
                None,
            ),
            (
                "loops of 2, and of 1 with 3",
                b"\x01\x04\x00\x00\x01\x06\x03\x00\x01\x06\x02\x00\x01\x06\x01\x00",
                None,
            ),
            (
                "loop by the third rule",
                b"\x01\x02\x00\x00\x03\x00\x00\x01\x00\x06\x01\x00",
                None,
            ),
            (
                "chain 3 reached by two ways, no loop",
                b"\x01\x04\x00\x02\x06\x01\x00\x06\x02\x00\x01\x06\x03\x00\x01\x06\x03\x00\x00",
                Some(0),
            ),
            (
                "calls of lower chains, no loop",
                b"\x01\x04\x00\x01\x06\x03\x00\x00\x01\x06\x01\x00\x01\x06\x02\x00",
                Some(0),
            ),
            // Loops are of the book, not of a packet's way: a match is not looked at, nor who calls.
            (
                "loop behind accepts of all",
                b"\x01\x02\x00\x02\x00\x00\x06\x01\x00\x02\x00\x00\x06\x01\x00",
                None,
            ),
            (
                "loop behind a return of all",
                b"\x01\x02\x00\x00\x02\x05\x00\x06\x01\x00",
                None,
            ),
            (
                "loop under never",
                b"\x01\x02\x00\x00\x01\x06\x01\x01\x00",
                None,
            ),
            (
                "loop under a reversed range",
                b"\x01\x02\x00\x00\x01\x06\x01\x03\x05\x04",
                None,
            ),
            (
                "loop in a chain that nothing calls",
                b"\x01\x03\x00\x00\x00\x01\x06\x02\x00",
                None,
            ),
            (
                "loop in two chains that nothing calls",
                b"\x01\x04\x00\x01\x06\x01\x00\x00\x01\x06\x03\x00\x01\x06\x02\x00",
                None,
            ),
            // What is read goes first.
            (
                "loop and a byte more",
                b"\x01\x02\x00\x00\x01\x06\x01\x00\x00",
                None,
            ),
            (
                "loop and a chain missing",
                b"\x01\x03\x00\x00\x01\x06\x01\x00",
                None,
            ),
            (
                "loop and action 7",
                b"\x01\x03\x00\x00\x01\x06\x01\x00\x01\x07",
                None,
            ),
            (
                "loop and called chain 3 of 3",
                b"\x01\x03\x00\x00\x01\x06\x01\x00\x01\x06\x03\x00",
                None,
            ),
        ],
    );
}

// 64 chains: the entry is empty, each other calls the next, and the last is as given.
fn rising(rt: &HostRuntime, cases: &[(&str, &[u8])]) {
    for &(name, last) in cases {
        let mut b = [0u8; 512];
        let mut at = bytes(&mut b, 0, b"\x01\x40\x00\x00");
        for called in 2..64u8 {
            at = byte(&mut b, at, 1);
            at = calls(&mut b, at, called, 1);
        }
        at = bytes(&mut b, at, last);
        show_part(rt, name, &b, at, Some(61));
    }
}

// 64 chains: the entry calls the last, each other calls the one before, and chain 1 is as given.
fn falling(rt: &HostRuntime, cases: &[(&str, &[u8])]) {
    for &(name, first) in cases {
        let mut b = [0u8; 512];
        let mut at = bytes(&mut b, 0, b"\x01\x40\x00\x01\x06\x3F\x00");
        at = bytes(&mut b, at, first);
        for called in 1..63u8 {
            at = byte(&mut b, at, 1);
            at = calls(&mut b, at, called, 1);
        }
        show_part(rt, name, &b, at, Some(62));
    }
}

pub fn all(rt: &HostRuntime) {
    small(rt);
    rising(
        rt,
        &[
            ("each chain calls the next, the last none", b"\x00"),
            ("each chain calls the next, the last 1", b"\x01\x06\x01\x00"),
            (
                "each chain calls the next, the last 32",
                b"\x01\x06\x20\x00",
            ),
            (
                "each chain calls the next, the last 62",
                b"\x01\x06\x3E\x00",
            ),
            (
                "each chain calls the next, the last itself",
                b"\x01\x06\x3F\x00",
            ),
        ],
    );
    falling(
        rt,
        &[
            ("each chain calls the one before, chain 1 none", b"\x00"),
            (
                "each chain calls the one before, chain 1 itself",
                b"\x01\x06\x01\x00",
            ),
            (
                "each chain calls the one before, chain 1 the last",
                b"\x01\x06\x3F\x00",
            ),
        ],
    );
}
