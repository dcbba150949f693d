// Reports on books and plans, byte by byte: document 01's cases, each refusal that a report can show, ports with the rules and sources that
// refuse them, and words and text that are one too few and just enough.
#![tactic(auto)]

mod books;
mod cases;
mod lent_words;
mod plans;
mod ports;
mod put;
mod show;
mod texts;

// C1 and C2's plan.
fn with_both(rt: &HostRuntime, book: &[u8], plan: &[u8]) {
    cases::missing(rt, book, plan);
    lent_words::few(rt, book, plan);
    texts::fine(rt, book, plan);
    texts::words(rt, book, plan);
    texts::refused(rt);
}

fn rooms(rt: &HostRuntime, plan: &[u8]) {
    lent_words::fewest(rt, plan);
    lent_words::heaviest(rt, plan);
    lent_words::millions(rt, plan);
}

// A print that fails is left off: each of the others is tried, and the status is 0.
fn main(rt: HostRuntime) {
    let c1 =
        b"\x01\x01\x01\x02\x01\x02\x02\x04\x00\x01\x03\x80\x80\xA0\x85\x0C\xFF\x81\xA0\x85\x0C\x00\x00";
    let plan = b"\x01\x02\x00\x01\x80\x80\xA0\x85\x0C\xFF\x81\xA0\x85\x0C\x01\x00";
    cases::c2_to_c7(&rt, plan);
    cases::c8_and_returns(&rt, b"\x01\x01\x00\x00");
    with_both(&rt, c1, plan);
    books::all(&rt, plan);
    plans::all(&rt, c1);
    ports::all(&rt, c1);
    rooms(&rt, plan);
}
