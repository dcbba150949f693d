// Writes a case's name, and the report on its book and plan as it stands in the text.
use report::{BUFFER, report};
use std::io;
use std::io::Write;

// As many words as the report program lends.
const WORDS: usize = 16384;

// The report's bytes and no others, or how many bytes it needs.
pub fn written(
    rt: &HostRuntime,
    book: &[u8],
    plan: &[u8],
    words: &mut [u32],
    text: &mut [u8],
) -> io::Result<()> {
    match report(book, plan, words, text) {
        Ok(n) => rt.stdout().write_all(&text[..n]),
        Err(short) => println!(rt; "short, needs {}", short.place),
    }
}

pub fn with_words(rt: &HostRuntime, name: &str, book: &[u8], plan: &[u8], words: &mut [u32]) {
    let mut text = [0u8; BUFFER];
    let _ = println!(rt; "{name}");
    let _ = written(rt, book, plan, words, &mut text);
}

pub fn with_text(rt: &HostRuntime, name: &str, book: &[u8], plan: &[u8], text: &mut [u8]) {
    let mut words = [0u32; WORDS];
    let _ = println!(rt; "{name}");
    let _ = written(rt, book, plan, &mut words, text);
}

pub fn reported(rt: &HostRuntime, name: &str, book: &[u8], plan: &[u8]) {
    let mut words = [0u32; WORDS];
    with_words(rt, name, book, plan, &mut words);
}

pub fn report_all(rt: &HostRuntime, cases: &[(&str, &[u8], &[u8])]) {
    for &(name, book, plan) in cases {
        reported(rt, name, book, plan);
    }
}

// Books over one plan.
pub fn report_books(rt: &HostRuntime, plan: &[u8], cases: &[(&str, &[u8])]) {
    for &(name, book) in cases {
        reported(rt, name, book, plan);
    }
}

// Plans over one book.
pub fn report_plans(rt: &HostRuntime, book: &[u8], cases: &[(&str, &[u8])]) {
    for &(name, plan) in cases {
        reported(rt, name, book, plan);
    }
}

// All of the lent words, those behind the list too.
pub fn show_words(rt: &HostRuntime, words: &[u32]) {
    let _ = print!(rt; "words");
    for word in words {
        let _ = print!(rt; " {word}");
    }
    let _ = println!(rt; "");
}
