// Why a record began, and whose end it waited for: each question asks the other, and the start falls at each round.
ghost use Rattle.std.specs.Prelude.{◌≡◌, List, ℕ, ◌+◌, ◌<◌, length};
ghost use Rattle.model.specs.Answers.{five_of};
ghost use Rattle.model.specs.Calls.{Leaves};
ghost use Rattle.model.specs.Model.{Run};
ghost use Rattle.causes.specs.Cause.{AtRelease, Cause, Chain};
ghost use Rattle.causes.specs.FoundCause.{chain_of};
ghost use Rattle.causes.specs.Why.{chain_room};
ghost use Rattle.chain.specs.ChainTold.{Traced, start_in, put_if, Told, most_rounds};

use crate::cause::{at_release, cause};
use model::{Answer, Refusal};
use wire::put_u32;

// A number at place i of the output, counted in numbers of four bytes, where there is room.
fn put_if(out: &mut [u8], i: usize, v: u32)
    requires { i < most_rounds }
    ensures { out.new ≡ put_if out.old i v }
{
    if 4 * i + 4 <= out.len() {
        put_u32(out, 4 * i, v);
    }
}

// Why record k began when it did: at its release, or when another ended. Writes its chain from place i on: the place after it.
#[cycle(whose_end_why_began)]
fn why_began(t: &[u32], n: usize, k: u32, out: &mut [u8], i: usize) -> usize
    requires { (k < n) × (i + start_in t.now n k < most_rounds) × ((ρ : Run) × Traced ρ t.now n) }
    ensures { (ρ : Run) (l : List ℕ) → Traced ρ t.now n → Chain ρ k l → Told l out.old i out.new result }
{
    put_if(out, i, k);
    if at_release(t, n, k) {
        return i + 1;
    }
    whose_end(t, n, k, out, i + 1)
}

// Whose end record k waited for, and why that one began.
#[cycle(whose_end_why_began)]
fn whose_end(t: &[u32], n: usize, k: u32, out: &mut [u8], i: usize) -> usize
    requires { (k < n) × (i + start_in t.now n k < most_rounds + 1) × ((ρ : Run) × Traced ρ t.now n × ¬ AtRelease ρ k) }
    ensures { (ρ : Run) (j : ℕ) (l : List ℕ) → Traced ρ t.now n → Cause ρ k j → Chain ρ j l
        → Told l out.old i out.new result }
{
    let Some(j) = cause(t, n, k) else {
        return i;
    };
    why_began(t, n, j, out, i)
}

// The chain of record k at the front of an output, or 11. It is counted first, on an output without any room.
pub fn write_chain(t: &[u32], n: usize, k: u32, output: &mut [u8]) -> Answer
    requires { (k < n) × ((ρ : Run) × Traced ρ t.now n) }
    ensures { (ρ : Run) → Traced ρ t.now n
        → Leaves (chain_room (chain_of ρ k) (length output.old)) output.old (five_of result) output.new }
{
    let count = why_began(t, n, k, &mut [], 0);
    if output.len() < 4 * count {
        return Answer::from(Refusal::NoRoom);
    }
    why_began(t, n, k, output, 0);
    Answer::Chain(count as u32)
}
