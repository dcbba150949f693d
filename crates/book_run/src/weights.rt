// The weight of the entry: 16,384 is accepted.
use crate::put::{byte, bytes, calls, repeat};
use crate::show::show_part;

// The entry calls chain 1 16 times and has more, chain 1 calls chain 2 31 times, chain 2 has 32 plain rules: without more,
// 16 * (1 + 31 * (1 + 32)) = 16,384. Chain 3 is as given.
fn nest(rt: &HostRuntime, cases: &[(&str, u8, &[u8], &[u8], &[u8])]) {
    for &(name, count, more, plain, rest) in cases {
        let mut b = [0u8; 512];
        let mut at = bytes(&mut b, 0, b"\x01\x04\x00");
        at = byte(&mut b, at, count);
        at = calls(&mut b, at, 1, 16);
        at = bytes(&mut b, at, more);
        at = byte(&mut b, at, 31);
        at = calls(&mut b, at, 2, 31);
        at = byte(&mut b, at, 32);
        at = repeat(&mut b, at, plain, 32);
        at = bytes(&mut b, at, rest);
        show_part(rt, name, &b, at, None);
    }
}

fn nests(rt: &HostRuntime) {
    nest(
        rt,
        &[
            // Chain 2's rules, and no more.
            ("weight 16384", 16, b"", b"\x00\x00", b"\x00"),
            ("weight 16384, logs", 16, b"", b"\x03\x00", b"\x00"),
            ("weight 16384, empties", 16, b"", b"\x04\x00", b"\x00"),
            ("weight 16384, returns", 16, b"", b"\x05\x00", b"\x00"),
            // A rule more in the entry.
            (
                "weight 16385 by an accept",
                17,
                b"\x00\x00",
                b"\x00\x00",
                b"\x00",
            ),
            (
                "weight 16385 by a drop",
                17,
                b"\x01\x00",
                b"\x00\x00",
                b"\x00",
            ),
            (
                "weight 16385 by a reject",
                17,
                b"\x02\x00",
                b"\x00\x00",
                b"\x00",
            ),
            (
                "weight 16385 by a log",
                17,
                b"\x03\x00",
                b"\x00\x00",
                b"\x00",
            ),
            (
                "weight 16385 by an empty",
                17,
                b"\x04\x00",
                b"\x00\x00",
                b"\x00",
            ),
            (
                "weight 16385 by a return",
                17,
                b"\x05\x00",
                b"\x00\x00",
                b"\x00",
            ),
            (
                "weight 16385 by a call of no rules",
                17,
                b"\x06\x03\x00",
                b"\x00\x00",
                b"\x00",
            ),
            (
                "weight 16385 by a call under never",
                17,
                b"\x06\x03\x01\x00",
                b"\x00\x00",
                b"\x00",
            ),
            // Chain 3, and what is behind it.
            (
                "weight 16384, more in a chain that nothing calls",
                16,
                b"",
                b"\x00\x00",
                b"\x02\x06\x01\x00\x06\x02\x00",
            ),
            (
                "weight 16385 and a byte more",
                17,
                b"\x00\x00",
                b"\x00\x00",
                b"\x00\x00",
            ),
            (
                "weight 16385 and a loop",
                17,
                b"\x00\x00",
                b"\x00\x00",
                b"\x01\x06\x03\x00",
            ),
        ],
    );
}

// Each chain but the last, which is empty, calls the next twice, and the entry has more rules. With n chains and m more rules the
// entry weighs 2^n - 2 + m: with 2 more it is 0 in n bits.
fn doubling(rt: &HostRuntime, cases: &[(&str, &[u8], u8, usize)]) {
    for &(name, head, chains, more) in cases {
        let mut b = [0u8; 1024];
        let mut at = bytes(&mut b, 0, head);
        at = calls(&mut b, at, 1, 2);
        at = repeat(&mut b, at, b"\x00\x00", more);
        for called in 2..chains {
            at = byte(&mut b, at, 2);
            at = calls(&mut b, at, called, 2);
        }
        at = byte(&mut b, at, 0);
        show_part(rt, name, &b, at, None);
    }
}

// Chains 1 to 62 call the next 16 times, chain 63 has 16 rules, and the entry is as given. Chain 1 weighs above 16^62; chains 63, 62,
// 61 and 60 weigh 16, 272, 4,368 and 69,904.
fn power(rt: &HostRuntime, cases: &[(&str, &[u8])]) {
    for &(name, entry) in cases {
        let mut b = [0u8; 4096];
        let mut at = bytes(&mut b, 0, b"\x01\x40\x00");
        at = bytes(&mut b, at, entry);
        for called in 2..64u8 {
            at = byte(&mut b, at, 16);
            at = calls(&mut b, at, called, 16);
        }
        at = byte(&mut b, at, 16);
        at = repeat(&mut b, at, b"\x00\x00", 16);
        show_part(rt, name, &b, at, None);
    }
}

pub fn all(rt: &HostRuntime) {
    nests(rt);
    doubling(
        rt,
        &[
            ("weight 2^14", b"\x01\x0E\x00\x04", 14, 2),
            ("weight 2^14 + 1", b"\x01\x0E\x00\x05", 14, 3),
            ("weight 2^15", b"\x01\x0F\x00\x04", 15, 2),
            ("weight 2^16", b"\x01\x10\x00\x04", 16, 2),
            ("weight 2^32", b"\x01\x20\x00\x04", 32, 2),
            ("weight 2^32 + 1", b"\x01\x20\x00\x05", 32, 3),
            ("weight 2^64", b"\x01\x40\x00\x04", 64, 2),
            ("weight 2^64 + 1", b"\x01\x40\x00\x05", 64, 3),
        ],
    );
    power(
        rt,
        &[
            ("16^62 in a chain that nothing calls", b"\x00"),
            ("16^62 in a chain that the entry calls", b"\x01\x06\x01\x00"),
            ("the entry calls a chain of 16", b"\x01\x06\x3F\x00"),
            (
                "the entry calls a chain of 4368 three times",
                b"\x03\x06\x3D\x00\x06\x3D\x00\x06\x3D\x00",
            ),
            (
                "the entry calls a chain of 4368 four times",
                b"\x04\x06\x3D\x00\x06\x3D\x00\x06\x3D\x00\x06\x3D\x00",
            ),
            ("the entry calls a chain of 69904", b"\x01\x06\x3C\x00"),
        ],
    );
}
