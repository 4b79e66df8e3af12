// What a carry says, and what is said of the file that it writes.
use crate::checking::{check_case, print_answer};
use carryfile::carry_file;
use model::Answer;
use std::io;
use std::io::Write;

// Carries with so much room and, where a file is written, checks it.
fn carry_into(
    output: &mut impl Write,
    file: &[u8],
    horizon: u32,
    carried: &mut [u8],
) -> io::Result<()> {
    let told = carry_file(file, horizon, carried);
    print_answer(output, told)?;
    if let Answer::Written(bytes) = told {
        let n = bytes as usize;
        if n <= carried.len() {
            check_case(output, &carried[0..n])?;
        }
    }
    Ok(())
}

pub(crate) fn carry_case(
    output: &mut impl Write,
    file: &[u8],
    horizon: u32,
    room: u32,
) -> io::Result<()> {
    let n = room as usize;
    if 16384 < n {
        return Ok(());
    }
    let mut carried = [0u8; 16384];
    carry_into(output, file, horizon, &mut carried[0..n])
}
