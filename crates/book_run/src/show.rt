// Checks a book and writes what was found: the counts, or the refusal.
ghost use Rattle.std.specs.Prelude.{◌≤◌};
ghost use Rattle.model.specs.Limits.{chains_most, rules_most};

use crate::put::bytes;
use book::{Contents, NotedRule};
use checking::check;
use std::io;

// A rule: its number, its action and the chain that it calls, and where it, its expression and what follows it start.
fn rule(rt: &HostRuntime, i: usize, noted: NotedRule) -> io::Result<()> {
    let (action, called) = (noted.action.number(), noted.action.target());
    print!(rt;
        " | rule {i} action {action} {called} at {} {} {}",
        noted.place, noted.expression, noted.end
    )
}

// The policy, the first rule of each chain, and the rules from a number on.
fn whole(rt: &HostRuntime, contents: &Contents, from: usize)
    requires chains { contents.now.chains ≤ chains_most }
    requires rules { contents.now.rules ≤ rules_most }
{
    let _ = print!(rt; " | policy {} | first", contents.policy.number());
    for first in &contents.first[..contents.chains] {
        let _ = print!(rt; " {first}");
    }
    for i in from..contents.rules {
        let _ = rule(rt, i, contents.noted[i]);
    }
}

// Of a book that is read the counts, and from which rule on the rest is shown, if it is.
pub fn show(rt: &HostRuntime, name: &str, book: &[u8], from: Option<usize>) {
    match check(book) {
        Ok(checked) => {
            let contents = checked.contents;
            let _ = print!(rt;
                "{name}: chains {} rules {}",
                contents.chains, contents.rules
            );
            if let Some(from) = from {
                whole(rt, &contents, from);
            }
            let _ = println!(rt; "");
        }
        Err(unfit) => {
            let _ = println!(rt; "{name}: {}", unfit.refusal);
        }
    }
}

// The book that is written in the first n bytes of a buffer.
pub fn show_part(rt: &HostRuntime, name: &str, b: &[u8], n: usize, from: Option<usize>) {
    if let Some(book) = b.get(..n) {
        show(rt, name, book, from);
    }
}

pub fn show_all(rt: &HostRuntime, cases: &[(&str, &[u8], Option<usize>)]) {
    for &(name, book, from) in cases {
        show(rt, name, book, from);
    }
}

// Books of n bytes: those given, and zeros.
pub fn show_filled(rt: &HostRuntime, cases: &[(&str, &[u8], usize, Option<usize>)]) {
    for &(name, head, n, from) in cases {
        let mut b = [0u8; 65536];
        bytes(&mut b, 0, head);
        show_part(rt, name, &b, n, from);
    }
}
