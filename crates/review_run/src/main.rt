// Reviews ports whole and in slices: document 01's cases, four books that tell a return and a negation, refusals, and states and lists that a
// caller damaged.
#![tactic(auto)]

use damaged::{finished_states, places, states};
use full::full_states;
use lists::{damaged_lists, other_parts};
use review::Reviewed;
use review::beginning::start;
use review::whole::review;
use show::{show_state, slices};
use std::io;

mod damaged;
mod full;
mod lists;
mod show;

fn whole(
    rt: &HostRuntime,
    book: &[u8],
    plan: &[u8],
    port: u32,
    words: &mut [u32],
) -> io::Result<()> {
    match review(book, plan, port, words) {
        Ok(Reviewed::Certified) => println!(rt; "whole: certified"),
        Ok(Reviewed::Refused(rule, source)) => println!(rt;
            "whole: refused rule {} source {source}",
            rule.0
        ),
        Err(refusal) => println!(rt;
            "whole: refusal {} place {}",
            refusal.fault.number(),
            refusal.place
        ),
    }
}

// The start, and the calls over the words that it wrote and no others.
fn sliced(rt: &HostRuntime, book: &[u8], plan: &[u8], port: u32, words: &mut [u32]) {
    match start(book, plan, port, words) {
        Ok(started) => {
            let counts = started.counts;
            let _ = print!(rt; "start: words {} rules {}", counts.words, counts.rules);
            show_state(rt, &started.state);
            if let Some(list) = words.get(..counts.words) {
                slices(rt, book, list, started.state);
            }
        }
        Err(refusal) => {
            let _ = println!(rt;
                "start: refusal {} place {}",
                refusal.fault.number(),
                refusal.place
            );
        }
    }
}

// A book, a plan and a port of it.
fn reviewed(rt: &HostRuntime, cases: &[(&str, &[u8], &[u8], u32)]) {
    for &(name, book, plan, port) in cases {
        let _ = println!(rt; "{name}");
        let mut words = [7u32; 16];
        let _ = whole(rt, book, plan, port, &mut words);
        let mut lent = [7u32; 16];
        sliced(rt, book, plan, port, &mut lent);
    }
}

// Document 01's cases C2 to C7 over C2's plan.
fn c2_to_c7(rt: &HostRuntime, c1: &[u8], plan: &[u8]) {
    reviewed(
        rt,
        &[
            ("C2, port 0", c1, plan, 0),
            ("C2, port 1", c1, plan, 1),
            (
                "C3",
                b"\x01\x01\x01\x02\x01\x02\x03\x04\x00\x01\x03\x80\x80\xA0\x85\x0C\xFF\x81\xA0\x85\x0C\x08\x00\x00\x00",
                plan,
                0,
            ),
            (
                "C4",
                b"\x01\x01\x01\x03\x00\x08\x00\x01\x02\x02\x04\x00\x01\x03\x80\x80\xA0\x85\x0C\xFF\x81\xA0\x85\x0C\x00\x00",
                plan,
                0,
            ),
            (
                "C5",
                b"\x01\x01\x01\x03\x01\x08\x00\x01\x02\x02\x04\x00\x01\x03\x80\x80\xA0\x85\x0C\xFF\x81\xA0\x85\x0C\x00\x08\x01",
                plan,
                0,
            ),
            (
                "C6",
                b"\x01\x01\x01\x03\x01\x02\x03\x04\x00\x01\x03\x80\x80\xA0\x85\x0C\xFF\x81\xA0\x85\x0C\x08\x00\x01\x02\x03\x04\x00\x01\x03\x80\x80\xA0\x85\x0C\xFF\x81\xA0\x85\x0C\x01\x08\x00\x00\x00",
                plan,
                0,
            ),
            (
                "C7",
                b"\x01\x04\x01\x00\x01\x06\x02\x00\x01\x06\x03\x00\x01\x06\x02\x00",
                plan,
                0,
            ),
        ],
    );
}

// C8, and the books that tell a negation of an unread match, a return before a call, in a called chain and in the entry.
fn c8_and_returns(rt: &HostRuntime, plan: &[u8]) {
    reviewed(
        rt,
        &[
            (
                "C8",
                b"\x01\x02\x01\x01\x06\x01\x08\x00\x02\x01\x00\x00\x00",
                plan,
                0,
            ),
            (
                "accept unless unread 0",
                b"\x01\x01\x01\x01\x00\x01\x08\x00",
                plan,
                0,
            ),
            (
                "a return before a call",
                b"\x01\x02\x01\x02\x05\x03\x00\x09\x06\x01\x00\x01\x00\x00",
                b"\x01\x01\x00\x01\x0A\xFF\xFF\xFF\xFF\x0F",
                0,
            ),
            (
                "a return in a called chain",
                b"\x01\x02\x01\x02\x06\x01\x00\x00\x00\x01\x05\x03\x00\x09",
                plan,
                0,
            ),
            (
                "a return of all in the entry, policy accept",
                b"\x01\x01\x00\x02\x05\x00\x01\x00",
                plan,
                0,
            ),
        ],
    );
}

// Refusals of the book, of the plan and of the port, in this order, and of words.
fn refused(rt: &HostRuntime, book: &[u8], plan: &[u8]) {
    reviewed(
        rt,
        &[
            ("C9", b"", b"", 32),
            ("no plan", book, b"", 32),
            ("a port that is not in the plan", book, plan, 2),
        ],
    );
    let _ = println!(rt; "ten words");
    let mut words = [7u32; 10];
    let _ = whole(rt, book, plan, 0, &mut words);
    sliced(rt, book, plan, 0, &mut words);
}

// C1's book under states and lists that a caller damaged.
fn damages(rt: &HostRuntime, book: &[u8]) {
    states(rt, book);
    places(rt, book);
    finished_states(rt, book);
    damaged_lists(rt, book);
    other_parts(rt, book);
}

// A print that fails is left off: each of the others is tried, and the status is 0.
fn main(rt: HostRuntime) {
    let c1 =
        b"\x01\x01\x01\x02\x01\x02\x02\x04\x00\x01\x03\x80\x80\xA0\x85\x0C\xFF\x81\xA0\x85\x0C\x00\x00";
    let plan = b"\x01\x02\x00\x01\x80\x80\xA0\x85\x0C\xFF\x81\xA0\x85\x0C\x01\x00";
    c2_to_c7(&rt, c1, plan);
    c8_and_returns(&rt, b"\x01\x01\x00\x00");
    refused(&rt, c1, plan);
    damages(&rt, c1);
    full_states(&rt);
}
