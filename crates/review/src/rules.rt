// Whether a rule of the list stands at a place of words that a caller handed in: any numbers may stand in them.
ghost use Rattle.std.specs.Prelude.{◌≡◌};
ghost use Rattle.model.specs.Slices.{match_at, conditions_in, rule_at};
ghost use Rattle.review.specs.Known.{HasBook, OfBook, found};

use book::{Contents, Verdict};

// Whether a rule's own expression starts at a place of the book. These places rise with the rules' numbers, so they are searched by halves.
fn is_rule_expression(contents: &Contents, at: u32) -> bool
    requires { HasBook contents.now }
    ensures { OfBook contents.now (λ b. result ≡ found (match_at at b)) }
{
    contents.noted[..contents.rules]
        .binary_search_by_key(&at, |noted| noted.expression)
        .is_ok()
}

// Whether each word is a condition: twice the place of a rule's expression, and one more where negated.
fn are_conditions(contents: &Contents, words: &[u32]) -> bool
    requires { HasBook contents.now }
    ensures { OfBook contents.now (λ b. result ≡ found (conditions_in b words.now)) }
{
    words
        .iter()
        .all(|&word| is_rule_expression(contents, word / 2))
}

pub fn is_rule(contents: &Contents, list: &[u32], place: usize) -> bool
    requires { HasBook contents.now }
    ensures { OfBook contents.now (λ b. result ≡ found (rule_at b list.now place)) }
{
    let Some(rule) = list.get(place..) else {
        return false;
    };
    let [action, _, count, rest @ ..] = rule else {
        return false;
    };
    let Some(conditions) = rest.get(..*count as usize) else {
        return false;
    };
    *action <= Verdict::Drop.number() && are_conditions(contents, conditions)
}
