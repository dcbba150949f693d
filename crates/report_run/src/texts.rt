// Lent text one byte too short and just long enough, and the text after the report: its bytes are dots before.
use crate::show::{show_words, with_text, written};
use std::io::Write;

fn lent(rt: &HostRuntime, name: &str, book: &[u8], plan: &[u8], text: &mut [u8]) {
    with_text(rt, name, book, plan, text);
    let _ = print!(rt; "text ");
    let _ = rt.stdout().write_all(text);
    let _ = println!(rt; "");
}

// A book, a plan, and how many bytes are lent.
fn lent_all(rt: &HostRuntime, cases: &[(&str, &[u8], &[u8], usize)]) {
    for &(name, book, plan, n) in cases {
        let mut text = [b'.'; 90];
        if let Some(text) = text.get_mut(..n) {
            lent(rt, name, book, plan, text);
        }
    }
}

// C2's report has 84 bytes.
pub fn fine(rt: &HostRuntime, book: &[u8], plan: &[u8]) {
    lent_all(
        rt,
        &[
            ("no text", book, plan, 0),
            ("text of 83 bytes", book, plan, 83),
            ("text of 84 bytes", book, plan, 84),
            ("text of 90 bytes", book, plan, 90),
        ],
    );
}

// The words hold the list all the same.
pub fn words(rt: &HostRuntime, book: &[u8], plan: &[u8]) {
    let mut words = [7u32; 12];
    let mut short = [b'.'; 83];
    let _ = println!(rt; "text of 83 bytes, 12 words");
    let _ = written(rt, book, plan, &mut words, &mut short);
    show_words(rt, &words);
}

// A report on a refusal has 33 bytes.
pub fn refused(rt: &HostRuntime) {
    lent_all(
        rt,
        &[
            ("C9, text of 32 bytes", b"", b"", 32),
            ("C9, text of 33 bytes", b"", b"", 33),
        ],
    );
}
