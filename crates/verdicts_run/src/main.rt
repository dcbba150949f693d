// Unfolds some books, judges some packets and reads some rules by number: document 01's C1, C7, C8 and C9, the boundaries of words,
// answers and rule numbers, and the books that tell a return's scope.
#![tactic(auto)]

ghost use Rattle.std.specs.Prelude.{◌≤◌};

use book::{RuleNumber, Verdict};
use listing::unfold_book;
use refusals::Refusal;
use room::Need;
use rules::{rule, rule_reading};
use std::io;
use verdicts::{chain_verdict, closure, list_verdict};
use walks::{Packet, Tactic};

fn show_need(rt: &HostRuntime, unfolded: Result<Need, Refusal>) -> io::Result<()> {
    match unfolded {
        Ok(need) => print!(rt; " needs {} rules {}", need.words, need.rules),
        Err(refusal) => print!(rt; " {refusal}"),
    }
}

// All of the lent words, those behind the list too.
fn show_words(rt: &HostRuntime, words: &[u32]) {
    for word in words {
        let _ = print!(rt; " {word}");
    }
    let _ = println!(rt; "");
}

// Into so many words, each 7 before.
fn unfolded(rt: &HostRuntime, book: &[u8], n: usize)
    requires { n ≤ 32 }
{
    let mut words = [7u32; 32];
    let lent = &mut words[..n];
    let _ = print!(rt; "into {n} words:");
    let _ = show_need(rt, unfold_book(book, lent));
    let _ = print!(rt; " words");
    show_words(rt, lent);
}

fn say(rt: &HostRuntime, who: &str, verdict: Result<Verdict, Refusal>) -> io::Result<()> {
    match verdict {
        Ok(Verdict::Accept) => print!(rt; "{who} accept"),
        Ok(Verdict::Drop) => print!(rt; "{who} drop"),
        Err(refusal) => print!(rt; "{who} {refusal}"),
    }
}

fn judged(rt: &HostRuntime, book: &[u8], answers: &[u8], p: Packet, words: &mut [u32]) {
    let _ = say(rt, ": chains", chain_verdict(book, answers, p));
    let _ = say(rt, ", list", list_verdict(book, answers, p, words));
    let _ = say(rt, ", upper", closure(book, Tactic::Upper, p, words));
    let _ = say(rt, ", lower", closure(book, Tactic::Lower, p, words));
    let _ = println!(rt; "");
}

// A packet where no answer is true, and there are words enough.
fn packet(rt: &HostRuntime, name: &str, book: &[u8], p: Packet) {
    let mut words = [7u32; 16];
    let _ = print!(rt; "{name}");
    judged(rt, book, &[0u8; 32], p, &mut words);
}

// Packets of these sources and input ports.
fn packets(rt: &HostRuntime, book: &[u8], cases: &[(&str, u32, u32)]) {
    for &(name, source, port) in cases {
        let p = Packet {
            source,
            destination: 0,
            protocol: 6,
            service: 80,
            port,
        };
        packet(rt, name, book, p);
    }
}

// Packets of these destinations, protocols, port numbers and input ports.
fn fields(rt: &HostRuntime, book: &[u8], cases: &[(&str, u32, u32, u32, u32)]) {
    for &(name, destination, protocol, service, port) in cases {
        let p = Packet {
            source: 15,
            destination,
            protocol,
            service,
            port,
        };
        packet(rt, name, book, p);
    }
}

fn zeros() -> Packet {
    Packet {
        source: 0,
        destination: 0,
        protocol: 0,
        service: 0,
        port: 0,
    }
}

// Answers of which two bytes are given: that of the unread matches 0 to 7, and that of 248 to 255.
fn answered(rt: &HostRuntime, book: &[u8], cases: &[(&str, u8, u8)]) {
    for &(name, first, last) in cases {
        let mut words = [7u32; 16];
        let mut answers = [0u8; 32];
        answers[0] = first;
        answers[31] = last;
        let _ = print!(rt; "{name}");
        judged(rt, book, &answers, zeros(), &mut words);
    }
}

fn numbered(rt: &HostRuntime, book: &[u8], number: u32) {
    let _ = match rule_reading(book, RuleNumber(number)) {
        Ok(bytes) => print!(rt; "rule {number}: at {} to {} bytes", bytes.start, bytes.end),
        Err(refusal) => print!(rt; "rule {number}: {refusal} bytes"),
    };
    for byte in rule(book, RuleNumber(number)) {
        let _ = print!(rt; " {byte:02x}");
    }
    let _ = println!(rt; "");
}

fn c1(rt: &HostRuntime, book: &[u8]) {
    let _ = println!(rt; "C1");
    unfolded(rt, book, 10);
    unfolded(rt, book, 11);
    unfolded(rt, book, 12);
    packets(
        rt,
        book,
        &[
            ("192.168.0.5 by port 0", 3232235525, 0),
            ("192.167.255.255 by port 0", 3232235519, 0),
            ("192.168.0.0 by port 0", 3232235520, 0),
            ("192.168.0.255 by port 0", 3232235775, 0),
            ("192.168.1.0 by port 0", 3232235776, 0),
            ("192.168.1.0 by port 1", 3232235776, 1),
            ("192.168.1.0 by port 4000", 3232235776, 4000),
        ],
    );
    for number in [0, 1, 2, 4294967295] {
        numbered(rt, book, number);
    }
}

// The answers one byte short, right, and one byte long.
fn lengths(rt: &HostRuntime, book: &[u8], words: &mut [u32]) {
    let answers = [0u8; 33];
    for n in 31..34 {
        let _ = print!(rt; "{n} bytes, {} words", words.len());
        judged(rt, book, &answers[..n], zeros(), words);
    }
    let _ = print!(rt; "{} words after it", words.len());
    show_words(rt, words);
}

// Too few words for the list, and just enough.
fn boundaries(rt: &HostRuntime, book: &[u8]) {
    let _ = println!(rt; "C1, answers and words");
    let mut few = [7u32; 10];
    lengths(rt, book, &mut few);
    let mut enough = [7u32; 11];
    lengths(rt, book, &mut enough);
}

// Accept to the destinations 10 to 20, of protocol 17, to port number 53, by port 31; and unless the source is in a range that is none.
fn each_field(rt: &HostRuntime) {
    let _ = println!(rt; "every field");
    fields(
        rt,
        b"\x01\x01\x01\x01\x00\x02\x04\x05\x0A\x14\x06\x11\x07\x35\x35\x04\x1F",
        &[
            ("all match", 10, 17, 53, 31),
            ("all match, last destination", 20, 17, 53, 31),
            ("destination before", 9, 17, 53, 31),
            ("destination behind", 21, 17, 53, 31),
            ("another protocol", 10, 273, 53, 31),
            ("another port number", 10, 17, 65589, 31),
            ("another port", 10, 17, 53, 30),
            ("a port above all", 10, 17, 53, 4294967295),
        ],
    );
    let _ = println!(rt; "unless in a reversed range");
    packets(
        rt,
        b"\x01\x01\x01\x01\x00\x01\x03\x09\x00",
        &[("source 9", 9, 0), ("source 5", 5, 0)],
    );
}

// A call under an unread match.
fn c8(rt: &HostRuntime, book: &[u8]) {
    let _ = println!(rt; "C8");
    unfolded(rt, book, 13);
    answered(
        rt,
        book,
        &[("unread 0 true", 1, 0), ("unread 0 false", 254, 255)],
    );
}

fn unread(rt: &HostRuntime) {
    let _ = println!(rt; "accept unless unread 0");
    answered(
        rt,
        b"\x01\x01\x01\x01\x00\x01\x08\x00",
        &[("unread 0 true", 1, 0), ("unread 0 false", 254, 255)],
    );
    let _ = println!(rt; "accept on unread 255");
    answered(
        rt,
        b"\x01\x01\x01\x01\x00\x08\xFF\x01",
        &[("unread 255 true", 0, 128), ("unread 255 false", 255, 127)],
    );
}

// A return's negation stands before what its chain calls later, and is not carried out to the caller.
fn returns(rt: &HostRuntime) {
    let before = b"\x01\x02\x01\x02\x05\x03\x00\x09\x06\x01\x00\x01\x00\x00";
    let _ = println!(rt; "a return before a call");
    unfolded(rt, before, 9);
    packets(rt, before, &[("source 9", 9, 0), ("source 10", 10, 0)]);
    let called = b"\x01\x02\x01\x02\x06\x01\x00\x00\x00\x01\x05\x03\x00\x09";
    let _ = println!(rt; "a return in a called chain");
    unfolded(rt, called, 7);
    packets(rt, called, &[("source 9", 9, 0)]);
}

// A return of all ends the entry: the policy judges.
fn entry_returns(rt: &HostRuntime) {
    let accept = b"\x01\x01\x00\x02\x05\x00\x01\x00";
    let _ = println!(rt; "a return of all in the entry, policy accept");
    unfolded(rt, accept, 8);
    packets(rt, accept, &[("source 9", 9, 0)]);
    numbered(rt, accept, 1);
    let drop = b"\x01\x01\x01\x02\x05\x00\x00\x00";
    let _ = println!(rt; "a return of all in the entry, policy drop");
    unfolded(rt, drop, 8);
    packets(rt, drop, &[("source 9", 9, 0)]);
}

// Any packet, and the first rule.
fn any(rt: &HostRuntime, book: &[u8]) {
    packets(rt, book, &[("any", 0, 0)]);
    numbered(rt, book, 0);
}

// The smallest book, an empty one, and chains 1 to 2 to 3 to 2.
fn ends(rt: &HostRuntime) {
    let smallest = b"\x01\x01\x00\x00";
    let _ = println!(rt; "the smallest book");
    unfolded(rt, smallest, 2);
    unfolded(rt, smallest, 3);
    any(rt, smallest);
    let _ = println!(rt; "C9");
    any(rt, b"");
    let _ = println!(rt; "C7");
    any(
        rt,
        b"\x01\x04\x01\x01\x06\x01\x00\x01\x06\x02\x00\x01\x06\x03\x00\x01\x06\x02\x00",
    );
}

// An entry that calls a chain of 511 accepts of all 32 times: each call weighs 1 and 511, so the entry weighs 16,384. The accepts are zeros.
fn heaviest() -> [u8; 1124] {
    let mut b = [0u8; 1124];
    b[0] = 1;
    b[1] = 2;
    b[3] = 32;
    for i in 0..32 {
        b[4 + 3 * i] = 6;
        b[5 + 3 * i] = 1;
    }
    b[100] = 255;
    b[101] = 3;
    b
}

// The word at a place, if there is one.
fn show_at(rt: &HostRuntime, words: &[u32], at: usize) -> io::Result<()> {
    match words.get(at) {
        Some(word) => print!(rt; " {word}"),
        None => Ok(()),
    }
}

// The counts, the first word, and the last rule where there is one.
fn counted(rt: &HostRuntime, book: &[u8], words: &mut [u32]) {
    let _ = print!(rt; "weight 16384 into {} words:", words.len());
    let _ = show_need(rt, unfold_book(book, words));
    let _ = print!(rt; " first word");
    let _ = show_at(rt, words, 0);
    let _ = print!(rt; " last");
    for at in 81760..81763 {
        let _ = show_at(rt, words, at);
    }
    let _ = println!(rt; "");
}

// 16,352 accepts under two conditions each, and the policy: one word too few, and just enough.
fn heavy(rt: &HostRuntime) {
    let book = heaviest();
    let mut few = [7u32; 81762];
    counted(rt, &book, &mut few);
    let mut enough = [7u32; 81763];
    counted(rt, &book, &mut enough);
}

// Three chains within each other, a return ahead of each call and of the innermost accept: each rule has the returns of its own chain
// before it and of those that lead to it, and none of a chain that was left.
fn nested(rt: &HostRuntime) {
    let book =
        b"\x01\x03\x01\x03\x05\x08\x00\x06\x01\x08\x01\x00\x00\x03\x05\x08\x02\x06\x02\x08\x03\x01\x08\x04\x02\x05\x08\x05\x00\x08\x06";
    unfolded(rt, book, 25);
}

// A print that fails is left off: each of the others is tried, and the status is 0.
fn main(rt: HostRuntime) {
    let c1_book =
        b"\x01\x01\x01\x02\x01\x02\x02\x04\x00\x01\x03\x80\x80\xA0\x85\x0C\xFF\x81\xA0\x85\x0C\x00\x00";
    c1(&rt, c1_book);
    boundaries(&rt, c1_book);
    each_field(&rt);
    c8(&rt, b"\x01\x02\x01\x01\x06\x01\x08\x00\x02\x01\x00\x00\x00");
    unread(&rt);
    returns(&rt);
    entry_returns(&rt);
    ends(&rt);
    heavy(&rt);
    nested(&rt);
}
