// Counts of rules, and the length of a book.
use crate::put::{byte, bytes, repeat};
use crate::show::{show, show_filled, show_part};

// One chain: the count of its rules as it is written, and accepts of all.
fn one_chain(rt: &HostRuntime, cases: &[(&str, &[u8], usize)]) {
    for &(name, count, rules) in cases {
        let mut b = [0u8; 2304];
        let mut at = bytes(&mut b, 0, b"\x01\x01\x00");
        at = bytes(&mut b, at, count);
        at = repeat(&mut b, at, b"\x00\x00", rules);
        show_part(rt, name, &b, at, Some(1022));
    }
}

// Two chains of accepts of all.
fn two_chains(rt: &HostRuntime, cases: &[(&str, &[u8], usize, &[u8], usize)]) {
    for &(name, one, rules, other, others) in cases {
        let mut b = [0u8; 2304];
        let mut at = bytes(&mut b, 0, b"\x01\x02\x00");
        at = bytes(&mut b, at, one);
        at = repeat(&mut b, at, b"\x00\x00", rules);
        at = bytes(&mut b, at, other);
        at = repeat(&mut b, at, b"\x00\x00", others);
        show_part(rt, name, &b, at, Some(1023));
    }
}

// 63 chains of 16 rules, and a last one.
fn sixteens(rt: &HostRuntime, cases: &[(&str, u8, usize)]) {
    for &(name, count, rules) in cases {
        let mut b = [0u8; 2304];
        let mut at = bytes(&mut b, 0, b"\x01\x40\x00");
        for _ in 0..63 {
            at = byte(&mut b, at, 16);
            at = repeat(&mut b, at, b"\x00\x00", 16);
        }
        at = byte(&mut b, at, count);
        at = repeat(&mut b, at, b"\x00\x00", rules);
        show_part(rt, name, &b, at, Some(1023));
    }
}

fn counts(rt: &HostRuntime) {
    one_chain(
        rt,
        &[
            ("1023 rules", b"\xFF\x07", 1023),
            ("1024 rules", b"\x80\x08", 1024),
            ("1025 rules", b"\x81\x08", 1025),
            ("1025 rules, none of them there", b"\x81\x08", 0),
            ("1024 rules, 1023 there", b"\x80\x08", 1023),
            ("1024 rules, 1025 there", b"\x80\x08", 1025),
            ("count of rules cut", b"\x80", 0),
            ("count of rules not shortest", b"\x81\x00", 1),
        ],
    );
    two_chains(
        rt,
        &[
            ("1000 and 24 rules", b"\xE8\x07", 1000, b"\x18", 24),
            ("1000 and 25 rules", b"\xE8\x07", 1000, b"\x19", 25),
            ("1024 and 0 rules", b"\x80\x08", 1024, b"\x00", 0),
            ("1024 and 1 rules", b"\x80\x08", 1024, b"\x01", 1),
            ("0 and 1024 rules", b"\x00", 0, b"\x80\x08", 1024),
            ("0 and 1025 rules", b"\x00", 0, b"\x81\x08", 1025),
            ("1 and 1024 rules", b"\x01", 1, b"\x80\x08", 1024),
        ],
    );
    sixteens(
        rt,
        &[
            ("64 chains of 16 rules", 16, 16),
            ("64 chains, the last of 17 rules", 17, 17),
            ("64 chains of 16 rules, one more there", 16, 17),
        ],
    );
}

// 366 rules of 179 bytes and 8 of 2 bytes, behind 5 bytes: 65,535 bytes.
fn longest(rt: &HostRuntime) {
    let mut b = [0u8; 65536];
    let mut at = bytes(&mut b, 0, b"\x01\x01\x00\xF6\x02");
    for _ in 0..366 {
        at = bytes(&mut b, at, b"\x00\x02\x10");
        at = repeat(
            &mut b,
            at,
            b"\x05\xFF\xFF\xFF\xFF\x0F\xFF\xFF\xFF\xFF\x0F",
            16,
        );
    }
    repeat(&mut b, at, b"\x00\x00", 8);
    show_part(rt, "65535 bytes", &b, 65535, Some(365));
    show_part(rt, "65535 bytes, the last missing", &b, 65534, None);
    show(rt, "65536 bytes", &b, None);
}

fn extra(rt: &HostRuntime) {
    show_filled(
        rt,
        &[
            ("65535 bytes, edition 0", b"", 65535, None),
            ("65536 bytes, edition 0", b"", 65536, None),
            (
                "the smallest, then up to 65535 bytes",
                b"\x01\x01\x00\x00",
                65535,
                None,
            ),
            (
                "the smallest, then up to 65536 bytes",
                b"\x01\x01\x00\x00",
                65536,
                None,
            ),
        ],
    );
}

pub fn all(rt: &HostRuntime) {
    counts(rt);
    longest(rt);
    extra(rt);
}
