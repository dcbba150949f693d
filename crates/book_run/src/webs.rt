// The largest books that the check for loops and weight meets: 64 chains, 1,024 rules, most of them calls.
use crate::put::{byte, bytes, calls, repeat};
use crate::show::show_part;

// 16 calls of the chains behind c; of the last where there are no more.
fn row(b: &mut [u8], at: usize, c: u8) -> usize {
    let mut next = byte(b, at, 16);
    for behind in 1..17u8 {
        next = calls(b, next, c.saturating_add(behind).min(63), 1);
    }
    next
}

// 64 chains of 16 rules: those of the entry and of the last chain are as given, each other calls 16 chains behind it.
fn web(rt: &HostRuntime, cases: &[(&str, &[u8], &[u8])]) {
    for &(name, entry, last) in cases {
        let mut b = [0u8; 4096];
        let mut at = bytes(&mut b, 0, b"\x01\x40\x00\x10");
        at = repeat(&mut b, at, entry, 16);
        for c in 1..63u8 {
            at = row(&mut b, at, c);
        }
        at = byte(&mut b, at, 16);
        at = repeat(&mut b, at, last, 16);
        show_part(rt, name, &b, at, Some(1022));
    }
}

pub fn all(rt: &HostRuntime) {
    web(
        rt,
        &[
            (
                "64 chains call many, the entry none",
                b"\x00\x00",
                b"\x00\x00",
            ),
            (
                "64 chains call many, the entry the last",
                b"\x06\x3F\x00",
                b"\x00\x00",
            ),
            (
                "64 chains call many, the entry chain 1",
                b"\x06\x01\x00",
                b"\x00\x00",
            ),
            (
                "64 chains call many, the last chain 1",
                b"\x00\x00",
                b"\x06\x01\x00",
            ),
            (
                "64 chains call many, the last chain 40",
                b"\x00\x00",
                b"\x06\x28\x00",
            ),
            (
                "64 chains call many, the entry chain 1, the last itself",
                b"\x06\x01\x00",
                b"\x06\x3F\x00",
            ),
        ],
    );
}
