// What is said of a file.
use checkfile::check_file;
use model::Answer;
use openfile::open_file;
use std::io;
use std::io::Write;
use text::line_of;

pub(crate) fn print_answer(output: &mut impl Write, told: Answer) -> io::Result<()> {
    let line = line_of(told);
    let text = line.text;
    let size = line.size;
    output.write_all(&text[0..size])
}

// The refusal, or 'fine'.
pub(crate) fn refusal_case(output: &mut impl Write, file: &[u8]) -> io::Result<()> {
    match open_file(file) {
        Ok(_) => output.write_all(b"fine\n"),
        Err(refusal) => print_answer(output, Answer::from(refusal)),
    }
}

pub(crate) fn check_case(output: &mut impl Write, file: &[u8]) -> io::Result<()> {
    print_answer(output, check_file(file))
}
