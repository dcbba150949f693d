// Plans that are refused, each with 11: a plan's numbers never give 2, 3, 4 or 8.
use crate::show::{report_plans, reported};

fn short(rt: &HostRuntime, book: &[u8]) {
    report_plans(
        rt,
        book,
        &[
            ("plan: edition 2", b"\x02\x00"),
            ("plan: edition not shortest", b"\x81\x00\x00"),
            ("plan: count of ports cut", b"\x01\x80"),
            ("plan: 33 ports", b"\x01\x21"),
            ("plan: 65 ranges", b"\x01\x01\x00\x41"),
            ("plan: port 32", b"\x01\x01\x20\x00"),
            ("plan: port falls", b"\x01\x02\x03\x00\x02\x00"),
            ("plan: port missing", b"\x01\x01"),
            ("plan: high missing", b"\x01\x01\x00\x01\x05"),
            ("plan: low above high", b"\x01\x01\x00\x01\x05\x04"),
            (
                "plan: low touches the high before",
                b"\x01\x01\x00\x02\x05\x06\x07",
            ),
            (
                "plan: range after the greatest",
                b"\x01\x01\x00\x02\x00\xFF\xFF\xFF\xFF\x0F\xFF\xFF\xFF\xFF\x0F\xFF\xFF\xFF\xFF\x0F",
            ),
            (
                "plan: high too large",
                b"\x01\x01\x00\x01\x00\xFF\xFF\xFF\xFF\x10",
            ),
            ("plan: a byte behind no ports", b"\x01\x00\x00"),
            (
                "plan: C2 with a byte more",
                b"\x01\x02\x00\x01\x80\x80\xA0\x85\x0C\xFF\x81\xA0\x85\x0C\x01\x00\x00",
            ),
            (
                "plan: C2 with a byte less",
                b"\x01\x02\x00\x01\x80\x80\xA0\x85\x0C\xFF\x81\xA0\x85\x0C\x01",
            ),
        ],
    );
}

// Too long is 0, where a byte less is refused at its first extra byte.
fn lengths(rt: &HostRuntime, book: &[u8]) {
    let mut long = [0u8; 32769];
    long[0] = 1;
    reported(rt, "plan: 32769 bytes", book, &long);
    reported(rt, "plan: 32768 bytes", book, &long[..32768]);
}

pub fn all(rt: &HostRuntime, book: &[u8]) {
    short(rt, book);
    lengths(rt, book);
}
