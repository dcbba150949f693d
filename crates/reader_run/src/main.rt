// Reads the book of case C1 through `reader::read_pair`: its numbers one after the other up to its end, then the expressions of its two rules.
#![tactic(auto)]

use expressions::LEVELS;
use reader::read_pair;

// A print that fails is left off: each of the others is tried, and the status is 0.
fn main(rt: HostRuntime) {
    let book =
        b"\x01\x01\x01\x02\x01\x02\x02\x04\x00\x01\x03\x80\x80\xA0\x85\x0C\xFF\x81\xA0\x85\x0C\x00\x00";
    let mut at = 0;
    for _ in 0..16 {
        match read_pair(book, at, LEVELS, 0).number {
            Ok(number) => {
                let _ = println!(rt; "number {at} {}", number.value);
                at = number.next;
            }
            Err(refusal) => {
                let _ = println!(rt; "refused {} {}", refusal.fault.number(), refusal.place);
            }
        }
    }
    for at in [4, 21] {
        let _ = match read_pair(book, at, LEVELS, 0).expression {
            Ok(read) => println!(rt; "expression {} {}", read.next, read.sources),
            Err(refusal) => println!(rt; "refused {} {}", refusal.fault.number(), refusal.place),
        };
    }
}
