// Checks books, each boundary of document 01 among them, and writes what was found: the counts, or the refusal.
#![tactic(auto)]

mod deep;
mod header;
mod long;
mod loops;
mod put;
mod rules;
mod show;
mod webs;
mod weights;

// A print that fails is left off: each of the others is tried, and the status is 0.
fn main(rt: HostRuntime) {
    header::all(&rt);
    rules::all(&rt);
    deep::all(&rt);
    long::all(&rt);
    loops::all(&rt);
    weights::all(&rt);
    webs::all(&rt);
}
