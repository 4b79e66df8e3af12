// Runs the cases of standard input through the library and prints what is said of each. A case is five numbers of four bytes, its
// kind, two numbers and the lengths of two files, and then the files.
#![tactic(auto)]

ghost use Rattle.std.specs.Prelude.{◌≤◌, length, IfOk};

use std::io;
use std::io::{Read, Write};

mod carries;
mod case;
mod checking;
mod forms;

use case::{Case, Kind};

// How many cases are run at most, and how many bytes the two files of one have.
const MOST_CASES: u32 = 2000;

const MOST_BYTES: usize = 32_768;

// Reads until a space is full or the input ends: how many of its bytes are filled.
// Kept: three programs have this function. A public function of a library has a theorem that its contract permits one result (tests/once), and what comes in is no argument.
fn fill_from(input: &mut impl Read, space: &mut [u8]) -> io::Result<usize>
    ensures { IfOk result (λ n. n ≤ length space.new) }
{
    let mut filled = 0;
    // Kept: it goes on by as many bytes as a read gives, and counts no index.
    while filled < space.len() {
        let n = input.read(&mut space[filled..])?;
        if n == 0 {
            break;
        }
        filled += n;
    }
    Ok(filled)
}

fn run_case(output: &mut impl Write, case: Case, one: &[u8], other: &[u8]) -> io::Result<()> {
    match case.kind {
        Kind::Refusal => checking::refusal_case(output, one),
        Kind::Check => checking::check_case(output, one),
        Kind::Carry => carries::carry_case(output, one, case.x, case.y),
        Kind::Record => forms::record_case(output, one, case.x),
        Kind::Tasks => forms::tasks_case(output, one, case.x),
        Kind::Shown => forms::shown_case(output, one, other, case.x, case.y),
    }
}

// A case whose two files stand one after the other.
fn split_case(output: &mut impl Write, case: Case, both: &[u8]) -> io::Result<()> {
    if case.one <= both.len() {
        return run_case(output, case, &both[..case.one], &both[case.one..]);
    }
    Ok(())
}

// Reads the two files of a case into a space that has room for both, and runs it.
fn read_case(
    input: &mut impl Read,
    output: &mut impl Write,
    case: Case,
    space: &mut [u8],
) -> io::Result<()> {
    let n = fill_from(input, space)?;
    split_case(output, case, &space[..n])
}

// One case; false where there is none.
fn next_case(input: &mut impl Read, output: &mut impl Write) -> io::Result<bool> {
    let mut head = [0u8; Case::SIZE];
    if fill_from(input, &mut head)? < Case::SIZE {
        return Ok(false);
    }
    let case = Case::of(&head);
    if MOST_BYTES < case.one + case.other {
        return Ok(false);
    }
    let mut space = [0u8; MOST_BYTES];
    read_case(input, output, case, &mut space[..case.one + case.other])?;
    Ok(true)
}

fn main(rt: HostRuntime) -> io::Result<()> {
    let mut input = rt.stdin();
    let mut output = rt.stdout();
    for _ in 0..MOST_CASES {
        if !next_case(&mut input, &mut output)? {
            break;
        }
    }
    Ok(())
}
