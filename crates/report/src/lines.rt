// The report's lines, each appended to the text that is written.
#![tactic(auto, using(text::proofs::Appends::length_both, text::proofs::Appends::decimal_short, crate::proofs::Lengths::verdict_short))]

ghost use Rattle.std.specs.Prelude.{◌≡◌, ◌+◌, ◌≤◌, ◌++◌};
ghost use Rattle.arrayvec.specs.ArrayVec.{array_vec_len};
ghost use Rattle.model.specs.Text.{bytes};
ghost use Rattle.model.specs.Report.{verdict_text};
ghost use Rattle.refusals.specs.Refusals.{number_of};
ghost use Rattle.review.specs.Reviews.{phase_told};
ghost use Rattle.report.specs.Lines.{verdict_most, line_most, counts_most, refusal_most, buffer_bytes, port_text, counts_text, refusal_text};

use crate::Text;
use book::RuleNumber;
use refusals::Refusal;
use review::Reviewed;
use text::{push_decimal, push_dotted, push_text};

pub fn put_verdict(text: &mut Text, reviewed: Reviewed)
    requires { array_vec_len text.old + verdict_most ≤ buffer_bytes }
    ensures { text.new.items ≡ text.old.items ++ verdict_text (phase_told reviewed) }
{
    match reviewed {
        Reviewed::Certified => push_text(text, b" certified"),
        Reviewed::Refused(RuleNumber(rule), source) => {
            push_text(text, b" refused rule ");
            push_decimal(text, rule as usize);
            push_text(text, b" source ");
            push_dotted(text, source);
        }
    }
}

pub fn put_port(text: &mut Text, number: u32, reviewed: Reviewed)
    requires { array_vec_len text.old + line_most ≤ buffer_bytes }
    ensures { text.new.items ≡ text.old.items ++ port_text number (phase_told reviewed) }
{
    push_text(text, b"port ");
    push_decimal(text, number as usize);
    put_verdict(text, reviewed);
    end_line(text);
}

pub fn put_counts(text: &mut Text, rules: usize, list: usize)
    requires { array_vec_len text.old + counts_most ≤ buffer_bytes }
    ensures { text.new.items ≡ text.old.items ++ counts_text rules list }
{
    push_text(text, b"rules ");
    push_decimal(text, rules);
    push_text(text, b" list ");
    push_decimal(text, list);
    end_line(text);
}

pub fn put_refusal(text: &mut Text, refusal: Refusal)
    requires { array_vec_len text.old + refusal_most ≤ buffer_bytes }
    ensures { text.new.items ≡ text.old.items ++ refusal_text (number_of refusal.fault) refusal.place }
{
    push_text(text, b"refused ");
    push_decimal(text, refusal.fault.number() as usize);
    push_text(text, b" place ");
    push_decimal(text, refusal.place);
    end_line(text);
}

fn end_line(text: &mut Text)
    requires { array_vec_len text.old + 1 ≤ buffer_bytes }
    ensures { text.new.items ≡ text.old.items ++ bytes "\n" }
{
    text.push(b'\n');
}
