// The report on a book and a plan, byte by byte.
#![tactic(auto)]

ghost use Rattle.std.specs.Prelude.{◌≡◌, ◌+◌, ◌*◌, ◌≤◌, ◌<◌, [], length};
ghost use Rattle.arrayvec.specs.ArrayVec.{array_vec_len};
ghost use Rattle.model.specs.Limits.{ports_most};
ghost use Rattle.model.specs.Report.{report as reportText};
ghost use Rattle.model.specs.Entries.{words_after};
ghost use Rattle.refusals.specs.Refusals.{told};
ghost use Rattle.report.specs.Lines.{line_most, body_most, buffer_bytes};
ghost use Rattle.report.specs.Reports.{ListIn, PlanIn, PortReviewed, PortsPut, BodyPut, report_entry, answer_of, text_after};

use arrayvec::ArrayVec;
use checking::check;
use listing::list_book;
use plan::{PORTS, PlanContents, read_plan};
use refusals::{Fault, Refusal};
use review::Reviewed;
use review::beginning::port_suspects;
use review::whole::review_list;
use text::push_text;

mod lines;

use lines::{put_counts, put_port, put_refusal};

// The bytes of the header, and at most those of the counts and of a port's line.
const HEADER: usize = 15;

const COUNTS: usize = 33;

const LINE: usize = 91;

// Room for the longest report: the header, the counts, and a line for each port that a plan may have.
pub const BUFFER: usize = HEADER + COUNTS + PORTS * LINE;

// The report while it is written.
type Text = ArrayVec<u8, BUFFER>;

// Port `i` of the plan, over the book's list.
fn review_port(book: &[u8], list: &[u32], plan: &PlanContents, i: usize) -> Reviewed
    requires { ListIn book.now list.now × PlanIn plan.now × (i < plan.now.ports) }
    ensures { PortReviewed book.now plan.now i result }
{
    let suspects = port_suspects(plan, i);
    review_list(book, list, plan.number[i], suspects)
}

// A line for each port, in the order of the plan.
fn put_ports(book: &[u8], list: &[u32], plan: &PlanContents, text: &mut Text)
    requires { ListIn book.now list.now × PlanIn plan.now × (array_vec_len text.old + ports_most * line_most ≤ buffer_bytes) }
    ensures { PortsPut book.now plan.now text.old text.new }
{
    for i in 0..plan.ports {
        let reviewed = review_port(book, list, plan, i);
        put_port(text, plan.number[i], reviewed);
    }
}

// The lines below the header. What is refused is so before the first of them: the book, then the plan, then the room for the list.
fn put_body(book: &[u8], plan: &[u8], words: &mut [u32], text: &mut Text) -> Result<(), Refusal>
    requires { array_vec_len text.old + body_most ≤ buffer_bytes }
    ensures body { BodyPut (report_entry book.now plan.now (length words.old)) text.old result text.new }
    ensures lent { words.new ≡ words_after (report_entry book.now plan.now (length words.old)) book.now words.old }
{
    let checked = check(book)?;
    let plan = read_plan(plan)?;
    let need = list_book(&checked, words)?;
    put_counts(text, checked.contents.rules, need.rules);
    put_ports(book, &words[..need.words], &plan, text);
    Ok(())
}

fn write_report(book: &[u8], plan: &[u8], words: &mut [u32], text: &mut Text)
    requires { text.old.items ≡ [] }
    ensures text { text.new.items ≡ reportText book.now plan.now (length words.old) }
    ensures lent { words.new ≡ words_after (report_entry book.now plan.now (length words.old)) book.now words.old }
{
    push_text(text, b"spoof report 1\n");
    if let Err(refusal) = put_body(book, plan, words, text) {
        put_refusal(text, refusal);
    }
}

// THE REPORT: how many bytes it has. A text that is too short for it is left as it was.
pub fn report(
    book: &[u8],
    plan: &[u8],
    words: &mut [u32],
    text: &mut [u8],
) -> Result<usize, Refusal>
    ensures answer { told result ≡ answer_of (reportText book.now plan.now (length words.old)) (length text.old) }
    ensures text { text.new ≡ text_after (reportText book.now plan.now (length words.old)) text.old }
    ensures lent { words.new ≡ words_after (report_entry book.now plan.now (length words.old)) book.now words.old }
{
    let mut written = Text::new();
    write_report(book, plan, words, &mut written);
    let n = written.len();
    if text.len() < n {
        return Err(Fault::TextTooShort.at(n));
    }
    text[..n].copy_from_slice(written.as_slice());
    Ok(n)
}
