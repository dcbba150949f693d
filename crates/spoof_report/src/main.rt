// Reviews every port of `plan.bin` against `book.bin`, both in the folder that it is run in, and writes the report.
#![tactic(auto)]

ghost use Rattle.std.specs.Prelude.{◌≤◌, length, IfOk};

use std::fs::File;
use std::io::{Error, Read, Result, Write};
use std::rt::Files;

// A byte more than a book or a plan may have, so that one that is too long is seen to be.
const BOOK: usize = book::BYTES + 1;

const PLAN: usize = plan::BYTES + 1;

const WORDS: usize = 16384;

// Room for any report.
const TEXT: usize = report::BUFFER;

// Fills bytes from the start, up to their end or the file's.
fn fill<F: Read>(file: &mut F, bytes: &mut [u8]) -> Result<usize>
    ensures { IfOk result (λ n. n ≤ length bytes.new) }
{
    let mut n = 0;
    while n < bytes.len() {
        match file.read(&mut bytes[n..])? {
            0 => break,
            more => n += more,
        }
    }
    Ok(n)
}

// A file that is missing or cannot be read to its end counts as empty.
fn load<R: Files>(rt: &R, path: &str, bytes: &mut [u8]) -> usize
    ensures { result ≤ length bytes.new }
{
    match File::open(rt, path) {
        Ok(mut file) => fill(&mut file, bytes).unwrap_or(0),
        Err(_) => 0,
    }
}

fn write_report(rt: &HostRuntime, book: &[u8], plan: &[u8]) -> Result<()> {
    let mut words = [0; WORDS];
    let mut text = [0; TEXT];
    match report::report(book, plan, &mut words, &mut text) {
        Ok(n) => rt.stdout().write_all(&text[..n]),
        Err(_) => Err(Error::other("report")),
    }
}

fn main(rt: HostRuntime) -> Result<()> {
    let mut book = [0; BOOK];
    let mut plan = [0; PLAN];
    let b = load(&rt, "book.bin", &mut book);
    let p = load(&rt, "plan.bin", &mut plan);
    write_report(&rt, &book[..b], &plan[..p])
}
