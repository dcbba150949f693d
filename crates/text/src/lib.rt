// Writes text: into a lent buffer, where each `put_` function answers the place behind what it wrote, and by the `push_` functions onto the
// end of a text of a fixed capacity. Both have room for what comes.
#![tactic(auto, using(crate::proofs::Appends::length_both, crate::proofs::Appends::digits_short))]

ghost use Rattle.std.specs.Prelude.{◌≡◌, ◌+◌, ◌≤◌, ◌∷◌, ◌++◌, length};
ghost use Rattle.model.specs.Report.{digits, decimal, dotted};
ghost use Rattle.arrayvec.specs.ArrayVec.{array_vec_len};
ghost use Rattle.text.specs.Puts.{Puts, dotted_most, decimal_most};

use arrayvec::ArrayVec;

pub fn put_text(buf: &mut [u8], at: usize, text: &[u8]) -> usize
    requires { at + length text.now ≤ length buf.old }
    ensures { Puts buf.old at text.now result buf.new }
{
    let next = at + text.len();
    buf[at..next].copy_from_slice(text);
    next
}

// At most n digits: the last one stands behind those of what is left without it.
fn put_digits(buf: &mut [u8], at: usize, n: usize, x: usize) -> usize
    requires { at + n ≤ length buf.old }
    ensures { Puts buf.old at (digits n x) result buf.new }
{
    if n == 0 {
        return at;
    }
    if x < 10 {
        buf[at] = 48 + x as u8;
        return at + 1;
    }
    let last = x % 10;
    let next = put_digits(buf, at, n - 1, x / 10);
    buf[next] = 48 + last as u8;
    next + 1
}

pub fn put_decimal(buf: &mut [u8], at: usize, x: usize) -> usize
    requires { at + decimal_most ≤ length buf.old }
    ensures { Puts buf.old at (decimal x) result buf.new }
{
    put_digits(buf, at, 10, x)
}

// A dot and a number.
fn put_part(buf: &mut [u8], at: usize, x: usize) -> usize
    requires { at + (1 + decimal_most) ≤ length buf.old }
    ensures { Puts buf.old at (46 ∷ decimal x) result buf.new }
{
    buf[at] = 46;
    put_decimal(buf, at + 1, x)
}

// An address by its four bytes, the highest first.
pub fn put_dotted(buf: &mut [u8], at: usize, x: u32) -> usize
    requires { at + dotted_most ≤ length buf.old }
    ensures { Puts buf.old at (dotted x) result buf.new }
{
    let a = x / 16777216;
    let b = x / 65536 % 256;
    let c = x / 256 % 256;
    let d = x % 256;
    let first = put_decimal(buf, at, a as usize);
    let second = put_part(buf, first, b as usize);
    let third = put_part(buf, second, c as usize);
    put_part(buf, third, d as usize)
}

pub fn push_text<const N: usize>(text: &mut ArrayVec<u8, N>, xs: &[u8])
    requires { array_vec_len text.old + length xs.now ≤ N }
    ensures { text.new.items ≡ text.old.items ++ xs.now }
{
    text.try_extend_from_slice(xs).unwrap();
}

// At most n digits: the last one stands behind those of what is left without it.
fn push_digits<const N: usize>(text: &mut ArrayVec<u8, N>, n: usize, x: usize)
    requires { array_vec_len text.old + n ≤ N }
    ensures { text.new.items ≡ text.old.items ++ digits n x }
{
    if n == 0 {
        return;
    }
    if x >= 10 {
        push_digits(text, n - 1, x / 10);
    }
    text.push(b'0' + (x % 10) as u8);
}

pub fn push_decimal<const N: usize>(text: &mut ArrayVec<u8, N>, x: usize)
    requires { array_vec_len text.old + decimal_most ≤ N }
    ensures { text.new.items ≡ text.old.items ++ decimal x }
{
    push_digits(text, 10, x);
}

// An address by its four bytes, the highest first.
pub fn push_dotted<const N: usize>(text: &mut ArrayVec<u8, N>, x: u32)
    requires { array_vec_len text.old + dotted_most ≤ N }
    ensures { text.new.items ≡ text.old.items ++ dotted x }
{
    let [a, b, c, d] = x.to_be_bytes();
    push_decimal(text, usize::from(a));
    push_part(text, usize::from(b));
    push_part(text, usize::from(c));
    push_part(text, usize::from(d));
}

// A dot and a number.
fn push_part<const N: usize>(text: &mut ArrayVec<u8, N>, x: usize)
    requires { array_vec_len text.old + (1 + decimal_most) ≤ N }
    ensures { text.new.items ≡ text.old.items ++ 46 ∷ decimal x }
{
    text.push(b'.');
    push_decimal(text, x);
}
