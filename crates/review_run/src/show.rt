// Writes the answer and the state of each call.
use refusals::Refusal;
use review::slices::step;
use review::{Phase, State};
use std::io;

fn show_phase(rt: &HostRuntime, phase: Phase) -> io::Result<()> {
    match phase {
        Phase::Running => print!(rt; " running"),
        Phase::Certified => print!(rt; " certified"),
        Phase::Refused(rule, source) => print!(rt; " refused rule {} source {source}", rule.0),
    }
}

pub fn show_state(rt: &HostRuntime, state: &State) {
    let _ = print!(rt; " place {}", state.place);
    let _ = show_phase(rt, state.phase);
    let _ = println!(rt; " ranges {}", state.suspects.count);
}

fn show_answer(rt: &HostRuntime, answer: Result<(), Refusal>) -> io::Result<()> {
    match answer {
        Ok(()) => print!(rt; "call:"),
        Err(refusal) => print!(rt;
            "call: refusal {} place {}, state",
            refusal.fault.number(),
            refusal.place
        ),
    }
}

pub fn call(rt: &HostRuntime, book: &[u8], list: &[u32], state: &mut State) {
    let _ = show_answer(rt, step(book, list, state));
    show_state(rt, state);
}

// Calls until the state is finished; no case's list has more than eight rules.
pub fn slices(rt: &HostRuntime, book: &[u8], list: &[u32], first: State) {
    let mut state = first;
    for _ in 0..8 {
        call(rt, book, list, &mut state);
        if !matches!(state.phase, Phase::Running) {
            break;
        }
    }
}
