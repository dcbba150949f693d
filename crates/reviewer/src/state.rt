// The state of a review in slices, as the words that its caller holds: six, then the lows, then the highs.
ghost use Rattle.std.specs.Prelude.{◌≡◌, ◌∷◌, []};
ghost use Rattle.review.specs.States.{phase_of, state_of};
ghost use Rattle.reviewer.specs.StateWords.{phase_word, rule_word, source_word, state_words, PhaseRead, StateRead};

use super::words::word;
use book::RuleNumber;
use review::{Phase, State};
use suspects::Suspects;

// Where a state's lows and highs stand, behind its port, place, phase, rule, source and count; and all its words.
const LOWS: usize = 6;

const HIGHS: usize = LOWS + Suspects::MAX;

pub const STATE: usize = HIGHS + Suspects::MAX;

// A phase by its number, with the rule and source that a refused one names.
pub fn phase_out(phase: Phase) -> [u32; 3]
    ensures { result ≡ phase_word (phase_of phase) ∷ rule_word (phase_of phase) ∷ source_word (phase_of phase) ∷ [] }
{
    match phase {
        Phase::Running => [0, 0, 0],
        Phase::Certified => [1, 0, 0],
        Phase::Refused(rule, source) => [2, rule.0, source],
    }
}

// The phase of a number that is one.
fn phase_in(number: u32, rule: u32, source: u32) -> Option<Phase>
    ensures { PhaseRead number rule source result }
{
    match number {
        0 => Some(Phase::Running),
        1 => Some(Phase::Certified),
        2 => Some(Phase::Refused(RuleNumber(rule), source)),
        _ => None,
    }
}

// The state that words hold, if their phase is one.
pub fn state_in(words: &[u32; STATE]) -> Option<State>
    ensures { StateRead words.now result }
{
    let phase = phase_in(words[2], words[3], words[4])?;
    let mut suspects = Suspects::empty();
    suspects.count = words[5] as usize;
    suspects.low.copy_from_slice(&words[LOWS..HIGHS]);
    suspects.high.copy_from_slice(&words[HIGHS..]);
    Some(State {
        phase,
        place: words[1] as usize,
        port: words[0],
        suspects,
    })
}

// Writes all words of a state.
pub fn state_out(state: &State, words: &mut [u32; STATE])
    ensures { words.new ≡ state_words (state_of state.now) }
{
    let [number, rule, source] = phase_out(state.phase);
    let count = word(state.suspects.count);
    words[..LOWS].copy_from_slice(&[state.port, word(state.place), number, rule, source, count]);
    words[LOWS..HIGHS].copy_from_slice(&state.suspects.low);
    words[HIGHS..].copy_from_slice(&state.suspects.high);
}
