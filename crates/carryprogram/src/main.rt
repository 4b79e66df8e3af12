// Carries a run to a longer horizon: reads the horizon in four bytes and then the file, at most its first 16,384 bytes, from
// standard input, and writes the carried file; where it refuses, the report's line and nothing else.
#![tactic(auto)]

ghost use Rattle.std.specs.Prelude.{◌≤◌, length, IfOk};

use answerline::{MOST_READ, most_read};
use carryfile::carry_file;
use model::Answer;
use runfile::{LONGEST_FILE, longest_file, num_at};
use std::io;
use std::io::{Read, Write};
use text::line_of;

// Reads until a space is full or the input ends: how many of its bytes are filled.
// Kept: three programs have this function. A public function of a library has a theorem that its contract permits one result (tests/once), and what comes in is no argument.
fn fill_from(input: &mut impl Read, space: &mut [u8]) -> io::Result<usize>
    ensures { IfOk result (λ n. n ≤ length space.new) }
{
    let mut filled = 0;
    // Kept: it goes on by as many bytes as a read gives, and counts no index.
    while filled < space.len() {
        let n = input.read(&mut space[filled..])?;
        if n == 0 {
            break;
        }
        filled += n;
    }
    Ok(filled)
}

// The file that was written, or the line.
fn print_carried(output: &mut impl Write, told: Answer, carried: &[u8]) -> io::Result<()> {
    if let Answer::Written(bytes) = told {
        let n = bytes as usize;
        if n <= carried.len() {
            output.write_all(&carried[0..n])?;
        }
        return Ok(());
    }
    let line = line_of(told);
    let text = line.text;
    let size = line.size;
    output.write_all(&text[0..size])
}

// Reads a file into a space as much as it holds, and carries it into another.
fn carry_into(
    input: &mut impl Read,
    output: &mut impl Write,
    horizon: u32,
    space: &mut [u8],
    carried: &mut [u8],
) -> io::Result<()> {
    let n = fill_from(input, space)?;
    let told = carry_file(&space[0..n], horizon, carried);
    print_carried(output, told, carried)
}

fn main(rt: HostRuntime) -> io::Result<()> {
    let mut input = rt.stdin();
    let mut four = [0u8; 4];
    fill_from(&mut input, &mut four)?;
    let most = most_read();
    let longest = longest_file();
    let mut space = [0u8; MOST_READ];
    let mut carried = [0u8; LONGEST_FILE];
    carry_into(
        &mut input,
        &mut rt.stdout(),
        num_at(&four, 0),
        &mut space[0..most],
        &mut carried[0..longest],
    )
}
