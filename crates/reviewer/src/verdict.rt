// The verdicts' answers in words.
ghost use Rattle.std.specs.Prelude.{◌≡◌, length};
ghost use Rattle.model.specs.Entries.{chain_entry, list_entry, closure_entry, words_after};
ghost use Rattle.walks.specs.Packets.{packet_of, tactic_of};
ghost use Rattle.verdicts.specs.Verdicts.{verdict_told};
ghost use Rattle.reviewer.specs.Words.{packet_in, verdict_words, closure_of};

use super::words::{given, refused};
use book::Verdict;
use refusals::Refusal;
use walks::{Packet, Tactic};

fn verdict_words(verdict: Result<Verdict, Refusal>) -> [u32; 6]
    ensures { result ≡ verdict_words (verdict_told verdict) }
{
    match verdict {
        Ok(verdict) => given(verdict.number(), 0, 0),
        Err(refusal) => refused(refusal),
    }
}

fn packet_in(words: &[u32; 5]) -> Packet
    ensures { packet_of result ≡ packet_in words.now }
{
    let [source, destination, protocol, service, port] = *words;
    Packet {
        source,
        destination,
        protocol,
        service,
        port,
    }
}

fn tactic_in(number: u32) -> Tactic
    ensures { tactic_of result ≡ closure_of number }
{
    match number {
        0 => Tactic::Lower,
        _ => Tactic::Upper,
    }
}

// The verdict of the chains.
#[unsafe(no_mangle)]
pub extern "C" fn tannenlaut_chain_verdict(
    book: &[u8],
    answers: &[u8],
    packet: &[u32; 5],
    answer: &mut [u32; 6],
)
    ensures { answer.new ≡ verdict_words (chain_entry book.now answers.now (packet_in packet.now)) }
{
    let p = packet_in(packet);
    *answer = verdict_words(verdicts::chain_verdict(book, answers, p));
}

// The verdict of the list, which is unfolded into the words first.
#[unsafe(no_mangle)]
pub extern "C" fn tannenlaut_list_verdict(
    book: &[u8],
    answers: &[u8],
    packet: &[u32; 5],
    words: &mut [u32],
    answer: &mut [u32; 6],
)
    ensures answer { answer.new ≡ verdict_words (list_entry book.now answers.now (packet_in packet.now) (length words.old)) }
    ensures lent { words.new ≡ words_after (list_entry book.now answers.now (packet_in packet.now) (length words.old)) book.now words.old }
{
    let p = packet_in(packet);
    *answer = verdict_words(verdicts::list_verdict(book, answers, p, words));
}

// A closure: the lower where the number is 0, else the upper.
#[unsafe(no_mangle)]
pub extern "C" fn tannenlaut_closure(
    book: &[u8],
    upper: u32,
    packet: &[u32; 5],
    words: &mut [u32],
    answer: &mut [u32; 6],
)
    ensures answer { answer.new ≡ verdict_words (closure_entry (closure_of upper) book.now (packet_in packet.now) (length words.old)) }
    ensures lent { words.new ≡ words_after (closure_entry (closure_of upper) book.now (packet_in packet.now) (length words.old)) book.now words.old }
{
    let p = packet_in(packet);
    *answer = verdict_words(verdicts::closure(book, tactic_in(upper), p, words));
}
