// Document 01's cases, and four books that tell a negation and a return.
use crate::show::{report_all, report_books};

// C2's book is C1.
pub fn c2_to_c7(rt: &HostRuntime, plan: &[u8]) {
    report_books(
        rt,
        plan,
        &[
            (
                "C2",
                b"\x01\x01\x01\x02\x01\x02\x02\x04\x00\x01\x03\x80\x80\xA0\x85\x0C\xFF\x81\xA0\x85\x0C\x00\x00",
            ),
            (
                "C3",
                b"\x01\x01\x01\x02\x01\x02\x03\x04\x00\x01\x03\x80\x80\xA0\x85\x0C\xFF\x81\xA0\x85\x0C\x08\x00\x00\x00",
            ),
            (
                "C4",
                b"\x01\x01\x01\x03\x00\x08\x00\x01\x02\x02\x04\x00\x01\x03\x80\x80\xA0\x85\x0C\xFF\x81\xA0\x85\x0C\x00\x00",
            ),
            (
                "C5",
                b"\x01\x01\x01\x03\x01\x08\x00\x01\x02\x02\x04\x00\x01\x03\x80\x80\xA0\x85\x0C\xFF\x81\xA0\x85\x0C\x00\x08\x01",
            ),
            (
                "C6",
                b"\x01\x01\x01\x03\x01\x02\x03\x04\x00\x01\x03\x80\x80\xA0\x85\x0C\xFF\x81\xA0\x85\x0C\x08\x00\x01\x02\x03\x04\x00\x01\x03\x80\x80\xA0\x85\x0C\xFF\x81\xA0\x85\x0C\x01\x08\x00\x00\x00",
            ),
            (
                "C7",
                b"\x01\x04\x01\x00\x01\x06\x02\x00\x01\x06\x03\x00\x01\x06\x02\x00",
            ),
        ],
    );
}

// C8, and the books of negations and returns.
pub fn c8_and_returns(rt: &HostRuntime, plan: &[u8]) {
    report_all(
        rt,
        &[
            (
                "C8",
                b"\x01\x02\x01\x01\x06\x01\x08\x00\x02\x01\x00\x00\x00",
                plan,
            ),
            (
                "accept unless unread 0",
                b"\x01\x01\x01\x01\x00\x01\x08\x00",
                plan,
            ),
            (
                "a return before a call",
                b"\x01\x02\x01\x02\x05\x03\x00\x09\x06\x01\x00\x01\x00\x00",
                b"\x01\x01\x00\x01\x0A\xFF\xFF\xFF\xFF\x0F",
            ),
            (
                "a return in a called chain",
                b"\x01\x02\x01\x02\x06\x01\x00\x00\x00\x01\x05\x03\x00\x09",
                plan,
            ),
            (
                "a return of all in the entry, policy accept",
                b"\x01\x01\x00\x02\x05\x00\x01\x00",
                plan,
            ),
        ],
    );
}

// As the program sees files that are missing: both, the book, the plan.
pub fn missing(rt: &HostRuntime, book: &[u8], plan: &[u8]) {
    report_all(
        rt,
        &[
            ("C9, no plan", b"", b""),
            ("C9, C2's plan", b"", plan),
            ("C1, no plan", book, b""),
        ],
    );
}
