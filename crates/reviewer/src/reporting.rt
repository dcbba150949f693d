// The report on a book and a plan.
ghost use Rattle.std.specs.Prelude.{◌≡◌, length};
ghost use Rattle.model.specs.Entries.{words_after};
ghost use Rattle.model.specs.Report.{report as reportText};
ghost use Rattle.report.specs.Reports.{report_entry, answer_of, text_after};
ghost use Rattle.reviewer.specs.Words.{report_words};

use super::words::{given, refused, word};
use report::report;

// Writes the report into the text: its bytes. Document 01 has no number for a text that is too short; it is 19.
#[unsafe(no_mangle)]
pub extern "C" fn tannenlaut_report(
    book: &[u8],
    plan: &[u8],
    words: &mut [u32],
    text: &mut [u8],
    answer: &mut [u32; 6],
)
    ensures answer { answer.new ≡ report_words (answer_of (reportText book.now plan.now (length words.old)) (length text.old)) }
    ensures text { text.new ≡ text_after (reportText book.now plan.now (length words.old)) text.old }
    ensures lent { words.new ≡ words_after (report_entry book.now plan.now (length words.old)) book.now words.old }
{
    *answer = match report(book, plan, words, text) {
        Ok(bytes) => given(word(bytes), 0, 0),
        Err(refusal) => refused(refusal),
    };
}
