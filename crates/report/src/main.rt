// Reads at most the first 16,384 bytes of standard input, checks them, and prints the five numbers as one line.
#![tactic(auto)]

ghost use Rattle.std.specs.Prelude.{◌≤◌, length, IfOk};

use answerline::{MOST_READ, most_read, report_line};
use std::io;
use std::io::{Read, Write};

// Reads until a space is full or the input ends: how many of its bytes are filled.
// Kept: three programs have this function. A public function of a library has a theorem that its contract permits one result (tests/once), and what comes in is no argument.
fn fill_from(input: &mut impl Read, space: &mut [u8]) -> io::Result<usize>
    ensures { IfOk result (λ n. n ≤ length space.new) }
{
    let mut filled = 0;
    // Kept: it goes on by as many bytes as a read gives, and counts no index.
    while filled < space.len() {
        let n = input.read(&mut space[filled..])?;
        if n == 0 {
            break;
        }
        filled += n;
    }
    Ok(filled)
}

// Reads into a space as much as it holds, and prints the line.
fn report_into(input: &mut impl Read, output: &mut impl Write, space: &mut [u8]) -> io::Result<()> {
    let n = fill_from(input, space)?;
    let line = report_line(&space[0..n]);
    let text = line.text;
    let size = line.size;
    output.write_all(&text[0..size])
}

fn main(rt: HostRuntime) -> io::Result<()> {
    let most = most_read();
    let mut space = [0u8; MOST_READ];
    report_into(&mut rt.stdin(), &mut rt.stdout(), &mut space[0..most])
}
