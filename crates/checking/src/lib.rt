// Reads a book whole, as every entry does first: refusals 1 to 8, then 9, then 10.
#![tactic(auto)]

ghost use Rattle.std.specs.Prelude.{◌≡◌};
ghost use Rattle.model.specs.Tree.{Book};
ghost use Rattle.model.specs.Reader.{Stand};
ghost use Rattle.book.specs.Contents.{Shape, Charted};
ghost use Rattle.checking.specs.Checks.{unread, RanksCalls, Checks};

use book::{CHAINS, Contents, read_book};
use calls::{check_calls, ranks, reached};
use refusals::Refusal;

// A book that was read without refusal: its contents, and for each chain how many chains it reaches, which falls at each call.
#[derive(Drop)]
pub struct Checked {
    pub contents: Contents,
    pub ranks: [u32; CHAINS],
}

// A book that is refused. Where it was read to its end, as for 9 and 10, its contents stand beside the refusal. They come first, as in
// `Checked`: a `Result` holds both in the same bytes, and is then written with no further copy of them on the stack.
#[derive(Clone, Copy)]
pub struct Unfit {
    pub contents: Option<Contents>,
    pub refusal: Refusal,
}

// A refusal of the reading: no contents.
impl From<Refusal> for Unfit {
    ghost from_gives = { λ refusal unfit. unfit ≡ unread refusal };

    fn from(refusal: Refusal) -> Unfit {
        Unfit {
            contents: None,
            refusal,
        }
    }
}

// What an entry above hands on of it.
impl From<Unfit> for Refusal {
    ghost from_gives = { λ unfit refusal. refusal ≡ unfit.refusal };

    fn from(unfit: Unfit) -> Refusal {
        unfit.refusal
    }
}

// 9, then 10; else the ranks.
#[inline(never)]
fn rank_calls(contents: &Contents) -> Result<[u32; CHAINS], Refusal>
    requires { Shape contents.now }
    ensures { (b : Book) (st : Stand) → Charted b contents.now → RanksCalls contents.now b st result }
{
    let sets = reached(contents);
    check_calls(contents, &sets)?;
    Ok(ranks(&sets, contents.chains))
}

// Not inlined, nor is `rank_calls`: the contents are 20 KB, and a caller's frame would hold them once more.
#[inline(never)]
pub fn check(book: &[u8]) -> Result<Checked, Unfit>
    ensures { Checks book.now result }
{
    let contents = read_book(book)?;
    let ranks = match rank_calls(&contents) {
        Ok(ranks) => ranks,
        Err(refusal) => {
            return Err(Unfit {
                contents: Some(contents),
                refusal,
            });
        }
    };
    Ok(Checked { contents, ranks })
}
