// Levels, and the count of kinds 3.
use crate::put::{byte, bytes, repeat};
use crate::show::show_part;

// Rule 0's expression, under some negations.
fn negated(rt: &HostRuntime, cases: &[(&str, usize, &[u8])]) {
    for &(name, negations, rest) in cases {
        let mut b = [0u8; 64];
        let mut at = bytes(&mut b, 0, b"\x01\x01\x00\x01\x00");
        at = repeat(&mut b, at, b"\x01", negations);
        at = bytes(&mut b, at, rest);
        show_part(rt, name, &b, at, Some(0));
    }
}

// A level is judged before its kind is read.
fn levels(rt: &HostRuntime) {
    negated(
        rt,
        &[
            ("level 16", 15, b"\x00"),
            ("level 16, kind 3", 15, b"\x03\x00\x09"),
            ("level 16, kind missing", 15, b""),
            ("level 16, kind 9", 15, b"\x09"),
            ("level 16, kind not shortest", 15, b"\x80\x00"),
            ("level 17", 16, b"\x00"),
            ("level 17 where the bytes end", 16, b""),
            ("level 17, kind 9", 16, b"\x09"),
            ("level 17, kind not shortest", 16, b"\x80\x00"),
            ("level 17, kind cut", 16, b"\x80"),
            ("level 18", 17, b"\x00"),
            // A count of operands goes before the level of the first of them.
            ("kind 2 at level 15", 14, b"\x02\x02\x00\x00"),
            ("kind 2 at level 16", 15, b"\x02\x02\x00\x00"),
            ("kind 2 at level 16, operands missing", 15, b"\x02\x02"),
            ("kind 2 at level 16, count missing", 15, b"\x02"),
            (
                "kind 2 at level 16, count not shortest",
                15,
                b"\x02\x82\x00",
            ),
            ("kind 2 at level 16, count 1", 15, b"\x02\x01\x00"),
            ("kind 2 at level 16, count 16", 15, b"\x02\x10\x00"),
            ("kind 2 at level 16, count 17", 15, b"\x02\x11\x00"),
            ("kind 2 at level 17", 16, b"\x02\x01"),
        ],
    );
}

// Some conjunctions, each the last operand of the one around it or the first, and as many evers as stand behind them.
fn conjunctions(rt: &HostRuntime, cases: &[(&str, &[u8], usize, usize)]) {
    for &(name, opening, n, behind) in cases {
        let mut b = [0u8; 64];
        let mut at = bytes(&mut b, 0, b"\x01\x01\x00\x01\x00");
        at = repeat(&mut b, at, opening, n);
        at = repeat(&mut b, at, b"\x00", behind);
        show_part(rt, name, &b, at, Some(0));
    }
}

// Two operands side by side, each under some negations: the second one's level does not rest on the first one's.
fn beside(rt: &HostRuntime, cases: &[(&str, usize, usize)]) {
    for &(name, first, second) in cases {
        let mut b = [0u8; 64];
        let mut at = bytes(&mut b, 0, b"\x01\x01\x00\x01\x00\x02\x02");
        at = repeat(&mut b, at, b"\x01", first);
        at = bytes(&mut b, at, b"\x00");
        at = repeat(&mut b, at, b"\x01", second);
        at = bytes(&mut b, at, b"\x00");
        show_part(rt, name, &b, at, Some(0));
    }
}

fn operand_levels(rt: &HostRuntime) {
    conjunctions(
        rt,
        &[
            (
                "15 conjunctions by their last operands",
                b"\x02\x02\x00",
                15,
                1,
            ),
            (
                "16 conjunctions by their last operands",
                b"\x02\x02\x00",
                16,
                1,
            ),
            (
                "15 conjunctions by their first operands",
                b"\x02\x02",
                15,
                16,
            ),
            (
                "16 conjunctions by their first operands",
                b"\x02\x02",
                16,
                17,
            ),
        ],
    );
    beside(
        rt,
        &[
            ("level 16 twice", 14, 14),
            ("level 17 in the first operand", 15, 14),
            ("level 17 in the second operand", 14, 15),
        ],
    );
}

// The count of rules, 32 rules with 16 kinds 3 each, or others, and what is to follow them.
fn after_sources(rt: &HostRuntime, cases: &[(&str, u8, &[u8], &[u8])]) {
    for &(name, rules, source, rest) in cases {
        let mut b = [0u8; 2048];
        let mut at = bytes(&mut b, 0, b"\x01\x01\x00");
        at = byte(&mut b, at, rules);
        for _ in 0..32 {
            at = bytes(&mut b, at, b"\x00\x02\x10");
            at = repeat(&mut b, at, source, 16);
        }
        at = bytes(&mut b, at, rest);
        show_part(rt, name, &b, at, Some(31));
    }
}

fn sources(rt: &HostRuntime) {
    after_sources(
        rt,
        &[
            ("512 kinds 3", 32, b"\x03\x00\x09", b""),
            ("512 kinds 3 reversed", 32, b"\x03\x09\x00", b""),
            (
                "512 kinds 5 and 1 kind 3",
                33,
                b"\x05\x00\x09",
                b"\x00\x03\x00\x09",
            ),
            (
                "512 kinds 3 and 1 kind 5",
                33,
                b"\x03\x00\x09",
                b"\x00\x05\x00\x09",
            ),
            ("513 kinds 3", 33, b"\x03\x00\x09", b"\x00\x03\x00\x09"),
            (
                "513 kinds 3 reversed",
                33,
                b"\x03\x09\x00",
                b"\x00\x03\x09\x00",
            ),
            // 7 goes before the low.
            (
                "513th kind 3, low missing",
                33,
                b"\x03\x00\x09",
                b"\x00\x03",
            ),
            (
                "513th kind 3, low not shortest",
                33,
                b"\x03\x00\x09",
                b"\x00\x03\x80\x00",
            ),
            (
                "513th kind 3 negated",
                33,
                b"\x03\x00\x09",
                b"\x00\x01\x03\x00\x09",
            ),
            (
                "513th kind 3 as second operand",
                33,
                b"\x03\x00\x09",
                b"\x00\x02\x02\x00\x03\x00\x09",
            ),
            // Kind 9 goes before 7, and level 17 before both.
            ("512 kinds 3, then kind 9", 33, b"\x03\x00\x09", b"\x00\x09"),
            (
                "513th kind 3 at level 16",
                33,
                b"\x03\x00\x09",
                b"\x00\x01\x01\x01\x01\x01\x01\x01\x01\x01\x01\x01\x01\x01\x01\x01\x03\x00\x09",
            ),
            (
                "513th kind 3 at level 17",
                33,
                b"\x03\x00\x09",
                b"\x00\x01\x01\x01\x01\x01\x01\x01\x01\x01\x01\x01\x01\x01\x01\x01\x01\x03\x00\x09",
            ),
        ],
    );
}

// Kinds 3 count in all chains, called or not.
fn chains_of_sources(rt: &HostRuntime, cases: &[(&str, &[u8])]) {
    for &(name, rest) in cases {
        let mut b = [0u8; 2304];
        let mut at = bytes(&mut b, 0, b"\x01\x03\x00");
        for _ in 0..2 {
            at = bytes(&mut b, at, b"\x80\x02");
            at = repeat(&mut b, at, b"\x00\x03\x00\x09", 256);
        }
        at = bytes(&mut b, at, rest);
        show_part(rt, name, &b, at, None);
    }
}

pub fn all(rt: &HostRuntime) {
    levels(rt);
    operand_levels(rt);
    sources(rt);
    chains_of_sources(
        rt,
        &[
            ("512 kinds 3 in two chains", b"\x00"),
            ("513th kind 3 in a third", b"\x01\x00\x03\x00\x09"),
        ],
    );
}
