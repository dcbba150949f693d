// Numbers, the edition, the counts and the policy, and document 01's own books.
use crate::show::{show_all, show_filled};

// How a number is written, shown on the edition first.
fn numbers(rt: &HostRuntime) {
    show_all(
        rt,
        &[
            ("C9, empty", b"", None),
            ("80 at the end", b"\x80", None),
            ("80 80 80 80 at the end", b"\x80\x80\x80\x80", None),
            ("80 80 80 80 80", b"\x80\x80\x80\x80\x80", None),
            ("80 80 80 80 00", b"\x80\x80\x80\x80\x00", None),
            ("80 00 as edition", b"\x80\x00", None),
            ("82 00 as edition", b"\x82\x00", None),
            ("81 80 00 as edition", b"\x81\x80\x00", None),
            ("80 01 as edition", b"\x80\x01", None),
            ("the largest as edition", b"\xFF\xFF\xFF\xFF\x0F", None),
            ("fifth byte 16 as edition", b"\xFF\xFF\xFF\xFF\x10", None),
            (
                "fifth byte 8F as edition",
                b"\xFF\xFF\xFF\xFF\x8F\x00",
                None,
            ),
            // Below on fields.
            (
                "protocol 80 01",
                b"\x01\x01\x00\x01\x00\x06\x80\x01",
                Some(0),
            ),
            ("protocol 80 00", b"\x01\x01\x00\x01\x00\x06\x80\x00", None),
            ("protocol cut", b"\x01\x01\x00\x01\x00\x06\x80", None),
            (
                "low with fifth byte 16",
                b"\x01\x01\x00\x01\x00\x03\xFF\xFF\xFF\xFF\x10\x00",
                None,
            ),
            (
                "high with fifth byte 16",
                b"\x01\x01\x00\x01\x00\x03\x00\xFF\xFF\xFF\xFF\x10",
                None,
            ),
            ("high cut", b"\x01\x01\x00\x01\x00\x03\x00\x80\x80", None),
            ("high missing", b"\x01\x01\x00\x01\x00\x03\x00", None),
        ],
    );
}

fn headers(rt: &HostRuntime) {
    show_all(
        rt,
        &[
            ("edition 0", b"\x00\x01\x00\x00", None),
            ("edition 1 alone", b"\x01", None),
            ("02 alone", b"\x02", None),
            ("edition 2", b"\x02\x01\x00\x00", None),
            ("no chains", b"\x01\x00\x00", None),
            ("the smallest, policy 0", b"\x01\x01\x00\x00", Some(0)),
            ("policy 1", b"\x01\x01\x01\x00", Some(0)),
            ("policy 2", b"\x01\x01\x02\x00", None),
            ("policy missing", b"\x01\x01", None),
            ("65 chains, no more", b"\x01\x41", None),
            ("chains not shortest", b"\x01\x81\x00\x00\x00", None),
            ("count of rules missing", b"\x01\x01\x00", None),
            ("second count of rules missing", b"\x01\x02\x00\x00", None),
            ("byte after the smallest", b"\x01\x01\x00\x00\x00", None),
            (
                "half a number after the smallest",
                b"\x01\x01\x00\x00\x80",
                None,
            ),
        ],
    );
}

// As many counts of rules as there are chains, each 0.
fn chains(rt: &HostRuntime) {
    show_filled(
        rt,
        &[
            ("64 chains", b"\x01\x40", 67, Some(0)),
            ("64 chains, 63 counts", b"\x01\x40", 66, None),
            ("64 chains, 65 counts", b"\x01\x40", 68, None),
            ("65 chains", b"\x01\x41", 68, None),
        ],
    );
}

// The books of document 01's cases; the unread match is the last operand.
fn cases(rt: &HostRuntime) {
    show_all(
        rt,
        &[
            (
                "C1",
                b"\x01\x01\x01\x02\x01\x02\x02\x04\x00\x01\x03\x80\x80\xA0\x85\x0C\xFF\x81\xA0\x85\x0C\x00\x00",
                Some(0),
            ),
            (
                "C1 with a byte more",
                b"\x01\x01\x01\x02\x01\x02\x02\x04\x00\x01\x03\x80\x80\xA0\x85\x0C\xFF\x81\xA0\x85\x0C\x00\x00\x00",
                None,
            ),
            (
                "C1 with a byte less",
                b"\x01\x01\x01\x02\x01\x02\x02\x04\x00\x01\x03\x80\x80\xA0\x85\x0C\xFF\x81\xA0\x85\x0C\x00",
                None,
            ),
            (
                "C3",
                b"\x01\x01\x01\x02\x01\x02\x03\x04\x00\x01\x03\x80\x80\xA0\x85\x0C\xFF\x81\xA0\x85\x0C\x08\x00\x00\x00",
                Some(0),
            ),
            (
                "C4",
                b"\x01\x01\x01\x03\x00\x08\x00\x01\x02\x02\x04\x00\x01\x03\x80\x80\xA0\x85\x0C\xFF\x81\xA0\x85\x0C\x00\x00",
                Some(0),
            ),
            (
                "C5",
                b"\x01\x01\x01\x03\x01\x08\x00\x01\x02\x02\x04\x00\x01\x03\x80\x80\xA0\x85\x0C\xFF\x81\xA0\x85\x0C\x00\x08\x01",
                Some(0),
            ),
            (
                "C6",
                b"\x01\x01\x01\x03\x01\x02\x03\x04\x00\x01\x03\x80\x80\xA0\x85\x0C\xFF\x81\xA0\x85\x0C\x08\x00\x01\x02\x03\x04\x00\x01\x03\x80\x80\xA0\x85\x0C\xFF\x81\xA0\x85\x0C\x01\x08\x00\x00\x00",
                Some(0),
            ),
            // C7 with an entry that calls and with one that is empty, and C8.
            (
                "C7",
                b"\x01\x04\x00\x01\x06\x01\x00\x01\x06\x02\x00\x01\x06\x03\x00\x01\x06\x02\x00",
                None,
            ),
            (
                "C7, entry empty",
                b"\x01\x04\x00\x00\x01\x06\x02\x00\x01\x06\x03\x00\x01\x06\x02\x00",
                None,
            ),
            (
                "C8",
                b"\x01\x02\x01\x01\x06\x01\x08\x00\x02\x01\x00\x00\x00",
                Some(0),
            ),
            // Returns.
            (
                "return, accept",
                b"\x01\x01\x01\x02\x05\x00\x00\x00",
                Some(0),
            ),
            (
                "accept if unread is not",
                b"\x01\x01\x01\x01\x00\x01\x08\x00",
                Some(0),
            ),
            (
                "return before a call",
                b"\x01\x02\x01\x02\x05\x03\x00\x09\x06\x01\x00\x01\x00\x00",
                Some(0),
            ),
            (
                "return in the called chain",
                b"\x01\x02\x01\x02\x06\x01\x00\x00\x00\x01\x05\x03\x00\x09",
                Some(0),
            ),
            ("return, drop", b"\x01\x01\x00\x02\x05\x00\x01\x00", Some(0)),
        ],
    );
}

pub fn all(rt: &HostRuntime) {
    numbers(rt);
    headers(rt);
    chains(rt);
    cases(rt);
}
