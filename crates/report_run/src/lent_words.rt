// Lent words one too few and just enough, and the words after the report.
use crate::put::doubling;
use crate::show::{reported, show_words, with_words};
use text::put_text;

// A book, a plan, and how many words are lent.
fn lent(rt: &HostRuntime, cases: &[(&str, &[u8], &[u8], usize)]) {
    for &(name, book, plan, n) in cases {
        let mut words = [7u32; 12];
        if let Some(words) = words.get_mut(..n) {
            with_words(rt, name, book, plan, words);
            show_words(rt, words);
        }
    }
}

// C1's list has 11 words.
pub fn few(rt: &HostRuntime, book: &[u8], plan: &[u8]) {
    lent(
        rt,
        &[
            ("no words", book, plan, 0),
            ("10 words", book, plan, 10),
            ("10 words, no plan", book, b"", 10),
            ("11 words", book, plan, 11),
            ("12 words", book, plan, 12),
        ],
    );
}

// The shortest list is the policy alone.
pub fn fewest(rt: &HostRuntime, plan: &[u8]) {
    lent(
        rt,
        &[
            ("2 words", b"\x01\x01\x00\x00", plan, 2),
            ("3 words", b"\x01\x01\x00\x00", plan, 3),
        ],
    );
}

// Of weight 16,384: 8,192 rules of 16 words under twelve calls each, 2 of 4 words in the entry, and the policy.
pub fn heaviest(rt: &HostRuntime, plan: &[u8]) {
    let mut book = [0u8; 99];
    doubling(
        &mut book,
        0,
        b"\x01\x0D\x01\x04\x06\x01\x00\x06\x01\x00\x00\x04\x1F\x00\x00",
        13,
        b"\x02\x00\x04\x1F\x00\x04\x1F",
    );
    let mut words = [0u32; 131083];
    with_words(rt, "131082 words", &book, plan, &mut words[..131082]);
    with_words(rt, "131083 words", &book, plan, &mut words);
}

// Bytes of 5 are returns for the destination 5. Behind 900 of them, 4,096 accepts under eleven calls each, of 915 words.
pub fn millions(rt: &HostRuntime, plan: &[u8]) {
    let mut calls = [0u8; 81];
    doubling(
        &mut calls,
        0,
        b"\x06\x01\x00\x06\x01\x00",
        12,
        b"\x02\x00\x00\x00\x00",
    );
    let mut b = [5u8; 3686];
    put_text(&mut b, 0, b"\x01\x0C\x01\x86\x07");
    put_text(&mut b, 3605, &calls);
    reported(rt, "a list of millions of words", &b, plan);
}
