// A state with as many ranges as there is room for, and a rule that would split one.
use super::damaged::called;
use review::{Phase, State};
use suspects::Suspects;

// 0 to 2, 4 to 6, and so on.
fn full() -> Suspects {
    let mut low = [0u32; Suspects::MAX];
    let mut high = [0u32; Suspects::MAX];
    for i in 0..Suspects::MAX {
        low[i] = 4 * i as u32;
        high[i] = 4 * i as u32 + 2;
    }
    Suspects {
        count: Suspects::MAX,
        low,
        high,
    }
}

// The books drop the source 1, inside a range, and the source 0, at its end.
pub fn full_states(rt: &HostRuntime) {
    let _ = println!(rt; "640 ranges");
    let inside = b"\x01\x01\x01\x01\x01\x03\x01\x01";
    let at_the_end = b"\x01\x01\x01\x01\x01\x03\x00\x00";
    let state = State {
        phase: Phase::Running,
        place: 0,
        port: 0,
        suspects: full(),
    };
    let list = [1, 0, 1, 10, 1, 1, 0];
    called(rt, "one would be split", inside, &list, state);
    called(
        rt,
        "one would be split by the last rule",
        inside,
        &list[..4],
        state,
    );
    called(rt, "one is cut short", at_the_end, &list, state);
    called(rt, "a stray list", inside, &[1, 0, 1, 12], state);
}
