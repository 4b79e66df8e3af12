// The header and the lines after it, one by one: each is judged before the next is read, and the records are laid down from the front on.
ghost use Rattle.std.specs.Prelude.{◌≡◌, true, false, ◌≤◌, ◌<◌, length};
ghost use Rattle.model.specs.Model.{most_records};
ghost use Rattle.exchange.specs.LineIn.{after};
ghost use Rattle.exchange.specs.RecordLine.{header};
ghost use Rattle.exchange.specs.TextTable.{given};
ghost use Rattle.readlines.specs.Scan.{rest_if, slots, slot_of, Scans};

use crate::line::line_at;
use exchange::{HEADER_SIZE, header_line};
use model::{Record, Refusal};

// How many places there are for the marks of jobs.
const SLOTS: usize = 4096;

// Where a job leaves its mark.
fn slot_of(task: u32, job: u32) -> usize
    ensures { (result ≡ slot_of (task, job)) × (result < slots) }
{
    ((task as u64 * 509 + job as u64) % SLOTS as u64) as usize
}

// Whether a job is that of one of the records. Each of their jobs has left its mark, so that without one nothing has to be searched.
fn given_before(mark: bool, rows: &[Record], task: u32, job: u32) -> bool
    requires { mark ≡ false → given (task, job) rows.now ≡ false }
    ensures { result ≡ given (task, job) rows.now }
{
    mark && rows.iter().any(|x| x.task == task && x.job == job)
}

// The lines after the header, with marks of the jobs that are given.
fn scan_lines(table: &[u8], rows: &mut [Record], marks: &mut [bool]) -> Result<u32, Refusal>
    requires { (most_records ≤ length rows.old) × (slots ≤ length marks.old)
        × (after header table.now ≡ rest_if true table.now) }
    ensures { Scans table.now rows.old result rows.new }
{
    let mut at = HEADER_SIZE;
    let mut n: u32 = 0;
    // Kept: the next line begins where this one ends, which only its reading tells; a `for` over a count would be no plainer.
    while at < table.len() {
        let line = n + 2;
        let (x, next) = line_at(table, at).ok_or(Refusal::BadLine(line))?;
        let slot = slot_of(x.task, x.job);
        let given = given_before(marks[slot], &rows[..n as usize], x.task, x.job);
        if n == Record::MOST {
            return Err(Refusal::RecordCount);
        }
        if given {
            return Err(Refusal::GivenAgain(line));
        }
        rows[n as usize] = x;
        marks[slot] = true;
        n += 1;
        at = next;
    }
    Ok(n)
}

// The whole table: its records are laid down from the front on, and stay there where a later line is refused.
pub fn read_lines(table: &[u8], rows: &mut [Record]) -> Result<u32, Refusal>
    requires { most_records ≤ length rows.old }
    ensures { Scans table.now rows.old result rows.new }
{
    if !table.starts_with(&header_line()) {
        return Err(Refusal::BadLine(1));
    }
    scan_lines(table, rows, &mut [false; SLOTS])
}
