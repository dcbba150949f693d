// Lists that are not C1's own, over its book.
use super::damaged::{called, running};
use super::show::slices;

// C1's list with another first rule: its action, its count of conditions, and the first of them.
fn first_rules(rt: &HostRuntime, book: &[u8], cases: &[(&str, u32, u32, u32)]) {
    for &(name, action, count, condition) in cases {
        let list = [action, 0, count, condition, 0, 1, 1, 44, 1, 2, 0];
        called(rt, name, book, &list, running(0, 0));
    }
}

pub fn damaged_lists(rt: &HostRuntime, book: &[u8]) {
    let _ = println!(rt; "lists over C1's book");
    first_rules(
        rt,
        book,
        &[
            ("action 2", 2, 1, 10),
            ("action 4294967295", 4294967295, 1, 10),
            ("count 0", 1, 0, 10),
            ("count 9", 1, 9, 10),
            ("count 4294967295", 1, 4294967295, 10),
            ("condition 10", 1, 1, 10),
            ("condition 11", 1, 1, 11),
            ("condition 44", 1, 1, 44),
            ("condition 45", 1, 1, 45),
            ("condition 14", 1, 1, 14),
            ("condition 8", 1, 1, 8),
            ("condition 4294967295", 1, 1, 4294967295),
        ],
    );
}

fn parts(rt: &HostRuntime, book: &[u8], cases: &[(&str, &[u32], u32)]) {
    for &(name, list, port) in cases {
        let _ = println!(rt; "{name}");
        slices(rt, book, list, running(0, port));
    }
}

// The last rule is the one that ends where the part ends.
pub fn other_parts(rt: &HostRuntime, book: &[u8]) {
    called(rt, "no words", book, &[], running(0, 0));
    called(rt, "cut in the first rule", book, &[1, 0, 1], running(0, 0));
    parts(
        rt,
        book,
        &[
            ("cut behind the first rule, port 0", &[1, 0, 1, 10], 0),
            ("cut behind the first rule, port 1", &[1, 0, 1, 10], 1),
            ("three words of 0 more, port 0", &[1, 0, 1, 10, 0, 0, 0], 0),
            ("three words of 0 more, port 1", &[1, 0, 1, 10, 0, 0, 0], 1),
            (
                "another rule number, port 1",
                &[1, 0, 1, 10, 0, 99, 1, 44, 1, 2, 0],
                1,
            ),
        ],
    );
}
