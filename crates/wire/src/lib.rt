// Numbers and answers as bytes.
#![tactic(auto)]

ghost use Rattle.std.specs.Prelude.{◌≡◌, [], ◌∷◌, ◌+◌, ◌≤◌, length};
ghost use Rattle.model.specs.Answers.{five_of};
ghost use Rattle.model.specs.Calls.{answer_size, numbers, written};
ghost use Rattle.wire.specs.Put.{put};

use model::Answer;

// Writes a number at a place: four bytes, low byte first, with the shifts and masks of octalmure_put_number in include/octalmure.h.
// Every other byte keeps its value.
// Kept: these lines stand beside the header's, shift by shift, as was promised to who reviews a host (docs/FORMAT.md).
pub fn put_u32(s: &mut [u8], at: usize, v: u32)
    requires { at + 4 ≤ length s.old }
    ensures { s.new ≡ put s.old at v }
{
    s[at] = (v & 255) as u8;
    s[at + 1] = (v >> 8 & 255) as u8;
    s[at + 2] = (v >> 16 & 255) as u8;
    s[at + 3] = (v >> 24) as u8;
}

// The five numbers of an answer.
#[tactic(auto, unfolding(model::specs::Calls::numbers))]
pub fn numbers_of(a: Answer) -> [u32; 5]
    ensures { result ≡ numbers (five_of a) }
{
    match a {
        Answer::InTime => [0, 0, 0, 0, 0],
        Answer::LateBeforeH(late, record) => [1, late, record, 0, 0],
        Answer::LateFromH(late, record) => [2, late, record, 0, 0],
        Answer::RuleBroken(rule, x, y, z) => [3, rule, x, y, z],
        Answer::Refused(number, named) => [4, number, named, 0, 0],
        Answer::Written(bytes) => [5, bytes, 0, 0, 0],
        Answer::Chain(count) => [6, count, 0, 0, 0],
    }
}

// How many bytes the five numbers of an answer have.
pub const ANSWER_SIZE: usize = 20;

// Writes an answer's five numbers into the first 20 bytes of a slice, and returns the first of them.
pub fn write_answer(a: Answer, answer: &mut [u8]) -> u32
    requires { answer_size ≤ length answer.old }
    ensures { (result ≡ (five_of a).answer) × (answer.new ≡ written (five_of a) answer.old) }
{
    let [kind, code, x, y, z] = numbers_of(a);
    put_u32(answer, 0, kind);
    put_u32(answer, 4, code);
    put_u32(answer, 8, x);
    put_u32(answer, 12, y);
    put_u32(answer, 16, z);
    kind
}
