// The forms over lent memory: a record and a shown job as the bytes of a file, and the tasks of a file in a lent list.
use model::{TASKS, Task};
use reader::record_of;
use shown::shown;
use std::io;
use std::io::Write;
use tasklist::{planned, tasks_over};

// A part's bytes as they are, and a line feed.
fn print_part(output: &mut impl Write, part: &[u8]) -> io::Result<()> {
    output.write_all(part)?;
    output.write_all(b"\n")
}

// Record k.
pub(crate) fn record_case(output: &mut impl Write, file: &[u8], k: u32) -> io::Result<()> {
    print_part(output, record_of(file, k))
}

// A job from its source.
pub(crate) fn shown_case(
    output: &mut impl Write,
    recorded: &[u8],
    carried: &[u8],
    task: u32,
    job: u32,
) -> io::Result<()> {
    print_part(output, shown(recorded, carried, task, job))
}

fn print_tasks(output: &mut impl Write, tasks: [Task; TASKS]) -> io::Result<()> {
    for t in tasks {
        writeln!(
            output,
            "{} {} {} {} {}",
            t.period, t.least, t.greatest, t.offset, t.jitter
        )?;
    }
    Ok(())
}

// A task of five different numbers, which no case has.
const MARK: Task = Task {
    period: 71,
    least: 72,
    greatest: 73,
    offset: 74,
    jitter: 75,
};

// What is decided of a list with room for so many tasks: the refusal's number and task, and how many are stored. Then all of a list
// with room for every task, in which each entry was that one before the file was decoded into it.
pub(crate) fn tasks_case(output: &mut impl Write, file: &[u8], room: u32) -> io::Result<()> {
    match planned(file, room as usize) {
        Ok(count) => writeln!(output, "0 0 {count}")?,
        Err(refusal) => {
            let (number, named) = refusal.numbers();
            writeln!(output, "{number} {named} 0")?
        }
    }
    print_tasks(output, tasks_over(file, MARK))
}
