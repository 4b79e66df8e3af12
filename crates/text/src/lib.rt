// Text written into a slice: bytes, numbers, and the five numbers of an answer as a line.
#![tactic(auto)]

ghost use Rattle.std.specs.Prelude.{◌≡◌, [], ◌∷◌, ◌++◌, ◌+◌, ◌≤◌, ◌<◌, length};
ghost use Rattle.model.specs.Answers.{five_of};
ghost use Rattle.model.specs.Calls.{numbers};
ghost use Rattle.model.specs.Report.{decimal, line};
ghost use Rattle.text.specs.Lined.{lined};
ghost use Rattle.text.specs.Paste.{pasted, Wrote};

use model::Answer;
use wire::numbers_of;

// A line as a value: its bytes, zeros after them, and how many bytes it has.
// Kept: a method that lends the bytes of a line would lend them from a copy, and the contract of `line_of` names both fields (`lined`).
#[derive(Clone, Copy)]
pub struct Line {
    pub text: [u8; 64],
    pub size: usize,
}

// Writes a byte at a place: the place after it.
#[tactic(auto, using(crate::proofs::Paste::wrote_byte))]
fn put_byte(text: &mut [u8], at: usize, byte: u8) -> usize
    requires { at < length text.old }
    ensures { Wrote text.old at (byte ∷ []) text.new result }
{
    text[at] = byte;
    at + 1
}

// Writes bytes from a place on: the place after them.
#[tactic(auto, using(crate::proofs::Paste::wrote_bytes))]
pub fn put_bytes(text: &mut [u8], at: usize, bytes: &[u8]) -> usize
    requires { at + length bytes.now ≤ length text.old }
    ensures { Wrote text.old at bytes.now text.new result }
{
    let end = at + bytes.len();
    text[at..end].copy_from_slice(bytes);
    end
}

// Writes a number's decimal digits from a place on: the place after them.
#[tactic(auto, using(decimal::proofs::Decimal::length_small, decimal::proofs::Decimal::length_more))]
fn put_decimal(text: &mut [u8], at: usize, v: u32) -> usize
    requires { at + length (decimal v) ≤ length text.old }
    ensures { Wrote text.old at (decimal v) text.new result }
{
    if v < 10 {
        return put_byte(text, at, b'0' + v as u8);
    }
    let next = put_decimal(text, at, v / 10);
    put_byte(text, next, b'0' + (v % 10) as u8)
}

// Writes a number and a byte after it: the place after both.
pub fn put_number(text: &mut [u8], at: usize, v: u32, byte: u8) -> usize
    requires { at + length (decimal v) + 1 ≤ length text.old }
    ensures { Wrote text.old at (decimal v ++ (byte ∷ [])) text.new result }
{
    let next = put_decimal(text, at, v);
    put_byte(text, next, byte)
}

// Writes the line of an answer's five numbers at the front of a text: how long it is.
#[tactic(auto, using(crate::proofs::Paste::wrote_few, crate::proofs::Paste::room_few))]
fn put_line(text: &mut [u8], a: Answer) -> usize
    requires { 64 ≤ length text.old }
    ensures { (result ≡ length (line (numbers (five_of a))))
        × (result ≤ 64)
        × (text.new ≡ pasted text.old 0 (line (numbers (five_of a)))) }
{
    let n = numbers_of(a);
    let code = put_number(text, 0, n[0], b' ');
    let x = put_number(text, code, n[1], b' ');
    let y = put_number(text, x, n[2], b' ');
    let z = put_number(text, y, n[3], b' ');
    put_number(text, z, n[4], b'\n')
}

// The line of an answer's five numbers.
pub fn line_of(a: Answer) -> Line
    ensures { (result ≡ lined (line (numbers (five_of a)))) × (result.size ≤ length result.text) }
{
    let mut text = [0u8; 64];
    let size = put_line(&mut text, a);
    Line { text, size }
}
