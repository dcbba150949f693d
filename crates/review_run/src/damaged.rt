// States as no call leaves them, over C1's book and list: each field damaged by itself.
use super::show::call;
use book::RuleNumber;
use review::{Phase, State};
use suspects::Suspects;

const C1_LIST: [u32; 11] = [1, 0, 1, 10, 0, 1, 1, 44, 1, 2, 0];

// Two ranges, and the other slots 0.
fn two(count: usize, low_0: u32, high_0: u32, low_1: u32, high_1: u32) -> Suspects {
    let mut low = [0u32; Suspects::MAX];
    let mut high = [0u32; Suspects::MAX];
    low[0] = low_0;
    high[0] = high_0;
    low[1] = low_1;
    high[1] = high_1;
    Suspects { count, low, high }
}

// The sources outside 192.168.0.0/24.
pub fn running(place: usize, port: u32) -> State {
    State {
        phase: Phase::Running,
        place,
        port,
        suspects: two(2, 0, 3232235519, 3232235776, 4294967295),
    }
}

pub fn called(rt: &HostRuntime, name: &str, book: &[u8], list: &[u32], before: State) {
    let mut state = before;
    let _ = print!(rt; "{name}, ");
    call(rt, book, list, &mut state);
}

fn with(rt: &HostRuntime, name: &str, book: &[u8], place: usize, suspects: Suspects) {
    let state = State {
        phase: Phase::Running,
        place,
        port: 0,
        suspects,
    };
    called(rt, name, book, &C1_LIST, state);
}

// The place, the count of ranges, and the low and the high of two.
fn with_two(rt: &HostRuntime, book: &[u8], cases: &[(&str, usize, usize, u32, u32, u32, u32)]) {
    for &(name, place, count, low_0, high_0, low_1, high_1) in cases {
        with(
            rt,
            name,
            book,
            place,
            two(count, low_0, high_0, low_1, high_1),
        );
    }
}

pub fn states(rt: &HostRuntime, book: &[u8]) {
    let _ = println!(rt; "states over C1's list");
    with_two(
        rt,
        book,
        &[
            ("count 0", 0, 0, 0, 0, 0, 0),
            ("count 1 over slots of 0", 0, 1, 0, 0, 0, 0),
            // The source 0.0.0.0 is in the set.
            ("count 1 over slots of 0, at the accept", 4, 1, 0, 0, 0, 0),
            ("count 2 over slots of 0", 0, 2, 0, 0, 0, 0),
            ("count 640 over slots of 0", 0, 640, 0, 0, 0, 0),
            ("count 641", 0, 641, 0, 0, 0, 0),
            ("the greatest count", 0, 18446744073709551615, 0, 0, 0, 0),
            ("one address", 0, 1, 9, 9, 0, 0),
            ("reversed", 0, 1, 9, 8, 0, 0),
            ("second reversed", 0, 2, 0, 3, 9, 8),
            ("one address between", 0, 2, 0, 9, 11, 20),
            ("touching", 0, 2, 0, 9, 10, 20),
            ("overlapping", 0, 2, 0, 9, 9, 20),
            ("falling", 0, 2, 10, 20, 0, 8),
            ("all addresses", 0, 1, 0, 4294967295, 0, 0),
            ("behind the greatest", 0, 2, 0, 4294967295, 5, 5),
            ("a low in an unused slot", 0, 1, 0, 9, 7, 0),
            ("a high in an unused slot", 0, 1, 0, 9, 0, 7),
        ],
    );
    let mut last = two(0, 0, 0, 0, 0);
    last.low[639] = 7;
    with(rt, "a low in the last slot", book, 0, last);
}

pub fn places(rt: &HostRuntime, book: &[u8]) {
    for &place in &[
        0,
        1,
        2,
        4,
        8,
        9,
        11,
        12,
        18446744073709551613,
        18446744073709551615,
    ] {
        let _ = print!(rt; "at {place}");
        called(rt, "", book, &C1_LIST, running(place, 0));
    }
    for &port in &[1, 4000] {
        let _ = print!(rt; "by port {port}");
        called(rt, "", book, &C1_LIST, running(0, port));
    }
}

// A finished state with numbers in it that no running state may have.
fn finished(phase: Phase) -> State {
    State {
        phase,
        place: 18446744073709551615,
        port: 4000,
        suspects: two(641, 9, 8, 7, 0),
    }
}

// With what the call could have tidied.
fn finished_called(rt: &HostRuntime, name: &str, book: &[u8], phase: Phase) {
    let mut state = finished(phase);
    let _ = print!(rt; "{name}, ");
    call(rt, book, &C1_LIST, &mut state);
    let suspects = &state.suspects;
    let _ = println!(rt;
        "port {} slots {} {} {}",
        state.port, suspects.low[0], suspects.high[0], suspects.low[1]
    );
}

pub fn finished_states(rt: &HostRuntime, book: &[u8]) {
    let refused = Phase::Refused(RuleNumber(77), 88);
    finished_called(rt, "certified", book, Phase::Certified);
    finished_called(rt, "refused", book, refused);
    called(
        rt,
        "certified, no book",
        b"",
        &C1_LIST,
        finished(Phase::Certified),
    );
    called(rt, "refused, no book", b"", &C1_LIST, finished(refused));
}
