// Actions, called chains, kinds and their fields.
use crate::show::{show_all, show_filled};

fn actions(rt: &HostRuntime) {
    show_all(
        rt,
        &[
            (
                "each action",
                b"\x01\x02\x00\x07\x00\x00\x01\x00\x02\x00\x03\x00\x04\x00\x05\x00\x06\x01\x00\x00",
                Some(0),
            ),
            ("action 7", b"\x01\x01\x00\x01\x07\x00", None),
            ("action 7 alone", b"\x01\x01\x00\x01\x07", None),
            ("action missing", b"\x01\x01\x00\x01", None),
            ("action not shortest", b"\x01\x01\x00\x01\x80\x00\x00", None),
            ("second action 7", b"\x01\x01\x00\x02\x00\x00\x07", None),
            ("expression missing", b"\x01\x01\x00\x01\x00", None),
            (
                "1 rule and 4294967295 more",
                b"\x01\x02\x00\x01\x00\x00\xFF\xFF\xFF\xFF\x0F",
                None,
            ),
            (
                "4294967295 rules",
                b"\x01\x01\x00\xFF\xFF\xFF\xFF\x0F",
                None,
            ),
            (
                "called chain 1 of 2",
                b"\x01\x02\x00\x01\x06\x01\x00\x00",
                Some(0),
            ),
            (
                "called chain 2 of 2",
                b"\x01\x02\x00\x01\x06\x02\x00\x00",
                None,
            ),
            ("called chain 0", b"\x01\x02\x00\x01\x06\x00\x00\x00", None),
            (
                "called chain 0 from chain 1",
                b"\x01\x02\x00\x00\x01\x06\x00\x00",
                None,
            ),
            ("called chain 1 of 1", b"\x01\x01\x00\x01\x06\x01\x00", None),
            (
                "called chain 4294967295",
                b"\x01\x02\x00\x01\x06\xFF\xFF\xFF\xFF\x0F\x00\x00",
                None,
            ),
            ("called chain missing", b"\x01\x02\x00\x01\x06", None),
            (
                "called chain not shortest",
                b"\x01\x02\x00\x01\x06\x81\x00\x00\x00",
                None,
            ),
            // The called chain is judged before the rule's expression is looked at; a chain that calls itself is in the book.
            (
                "bad called chain, bad kind",
                b"\x01\x02\x00\x01\x06\x02\x09\x00",
                None,
            ),
            (
                "bad called chain, kind missing",
                b"\x01\x02\x00\x01\x06\x02",
                None,
            ),
            (
                "chain 1 calls itself",
                b"\x01\x02\x00\x00\x01\x06\x01\x00",
                None,
            ),
        ],
    );
}

fn called_of_64(rt: &HostRuntime) {
    show_filled(
        rt,
        &[
            (
                "called chain 63 of 64",
                b"\x01\x40\x00\x01\x06\x3F\x00",
                70,
                Some(0),
            ),
            (
                "called chain 64 of 64",
                b"\x01\x40\x00\x01\x06\x40\x00",
                70,
                None,
            ),
        ],
    );
}

fn kinds(rt: &HostRuntime) {
    show_all(
        rt,
        &[
            (
                "each kind, its fields at their limits",
                b"\x01\x01\x00\x01\x00\x02\x09\x00\x01\x00\x02\x02\x00\x00\x03\x00\x09\x04\x1F\x05\x00\x09\x06\xFF\x01\x07\x00\xFF\xFF\x03\x08\xFF\x01",
                Some(0),
            ),
            ("kind 8", b"\x01\x01\x00\x01\x00\x08\x00", None),
            ("kind 9", b"\x01\x01\x00\x01\x00\x09\x00", None),
            ("kind 9 alone", b"\x01\x01\x00\x01\x00\x09", None),
            (
                "kind 9 as an operand",
                b"\x01\x01\x00\x01\x00\x02\x02\x00\x09",
                None,
            ),
            ("kind 9 negated", b"\x01\x01\x00\x01\x00\x01\x09", None),
            (
                "kind 4294967295",
                b"\x01\x01\x00\x01\x00\xFF\xFF\xFF\xFF\x0F",
                None,
            ),
            ("kind not shortest", b"\x01\x01\x00\x01\x00\x80\x00", None),
            ("negated, then missing", b"\x01\x01\x00\x01\x00\x01", None),
            ("0 operands", b"\x01\x01\x00\x01\x00\x02\x00", None),
            ("1 operand", b"\x01\x01\x00\x01\x00\x02\x01\x00", None),
            (
                "2 operands",
                b"\x01\x01\x00\x01\x00\x02\x02\x00\x00",
                Some(0),
            ),
            (
                "2 operands, second missing",
                b"\x01\x01\x00\x01\x00\x02\x02\x00",
                None,
            ),
            (
                "2 operands, a third",
                b"\x01\x01\x00\x01\x00\x02\x02\x00\x00\x00",
                None,
            ),
            (
                "count of operands missing",
                b"\x01\x01\x00\x01\x00\x02",
                None,
            ),
            (
                "count of operands not shortest",
                b"\x01\x01\x00\x01\x00\x02\x82\x00\x00\x00",
                None,
            ),
        ],
    );
}

fn many_operands(rt: &HostRuntime) {
    show_filled(
        rt,
        &[
            ("16 operands", b"\x01\x01\x00\x01\x00\x02\x10", 23, Some(0)),
            (
                "16 operands, the last missing",
                b"\x01\x01\x00\x01\x00\x02\x10",
                22,
                None,
            ),
            ("17 operands", b"\x01\x01\x00\x01\x00\x02\x11", 24, None),
            (
                "17 operands, bad kinds",
                b"\x01\x01\x00\x01\x00\x02\x11\x09",
                24,
                None,
            ),
        ],
    );
}

fn fields(rt: &HostRuntime) {
    show_all(
        rt,
        &[
            ("port 31", b"\x01\x01\x00\x01\x00\x04\x1F", None),
            ("port 32", b"\x01\x01\x00\x01\x00\x04\x20", None),
            ("port missing", b"\x01\x01\x00\x01\x00\x04", None),
            (
                "port not shortest",
                b"\x01\x01\x00\x01\x00\x04\xA0\x00",
                None,
            ),
            ("protocol 255", b"\x01\x01\x00\x01\x00\x06\xFF\x01", None),
            ("protocol 256", b"\x01\x01\x00\x01\x00\x06\x80\x02", None),
            ("protocol missing", b"\x01\x01\x00\x01\x00\x06", None),
            ("unread 255", b"\x01\x01\x00\x01\x00\x08\xFF\x01", None),
            ("unread 256", b"\x01\x01\x00\x01\x00\x08\x80\x02", None),
            ("unread missing", b"\x01\x01\x00\x01\x00\x08", None),
            // A range with low above high is legal: it matches nothing.
            (
                "sources up to the largest",
                b"\x01\x01\x00\x01\x00\x03\xFF\xFF\xFF\xFF\x0F\xFF\xFF\xFF\xFF\x0F",
                Some(0),
            ),
            (
                "destinations up to the largest",
                b"\x01\x01\x00\x01\x00\x05\x00\xFF\xFF\xFF\xFF\x0F",
                Some(0),
            ),
            (
                "sources reversed",
                b"\x01\x01\x00\x01\x00\x03\x05\x04",
                None,
            ),
            (
                "destinations reversed",
                b"\x01\x01\x00\x01\x00\x05\x05\x04",
                None,
            ),
            (
                "port numbers reversed",
                b"\x01\x01\x00\x01\x00\x07\x05\x04",
                None,
            ),
            ("destination low missing", b"\x01\x01\x00\x01\x00\x05", None),
            (
                "destination high missing",
                b"\x01\x01\x00\x01\x00\x05\x09",
                None,
            ),
            (
                "destination low too large",
                b"\x01\x01\x00\x01\x00\x05\x80\x80\x80\x80\x10\x00",
                None,
            ),
            // The low is judged before the high is read.
            (
                "port numbers 65535",
                b"\x01\x01\x00\x01\x00\x07\xFF\xFF\x03\xFF\xFF\x03",
                Some(0),
            ),
            (
                "port number low 65536",
                b"\x01\x01\x00\x01\x00\x07\x80\x80\x04\x00",
                None,
            ),
            (
                "port number high 65536",
                b"\x01\x01\x00\x01\x00\x07\x00\x80\x80\x04",
                None,
            ),
            (
                "port number low 65536, high missing",
                b"\x01\x01\x00\x01\x00\x07\x80\x80\x04",
                None,
            ),
            (
                "port number low 65536, high not shortest",
                b"\x01\x01\x00\x01\x00\x07\x80\x80\x04\x80\x00",
                None,
            ),
            (
                "port number high missing",
                b"\x01\x01\x00\x01\x00\x07\x00",
                None,
            ),
        ],
    );
}

pub fn all(rt: &HostRuntime) {
    actions(rt);
    called_of_64(rt);
    kinds(rt);
    many_operands(rt);
    fields(rt);
}
