// A line of a table: six numbers, separated by commas, then a line feed.
ghost use Rattle.readlines.specs.Scan.{SaysLine};

use decimal::number_at;
use model::Record;

// The record of the line at a place, and the place after its line feed.
pub(crate) fn line_at(s: &[u8], at: usize) -> Option<(Record, usize)>
    ensures { SaysLine s.now at result }
{
    let (task, i) = number_at(s, at, b',')?;
    let (job, j) = number_at(s, i, b',')?;
    let (release, k) = number_at(s, j, b',')?;
    let (start, l) = number_at(s, k, b',')?;
    let (end, m) = number_at(s, l, b',')?;
    let (core, next) = number_at(s, m, b'\n')?;
    let x = Record {
        task,
        job,
        release,
        start,
        end,
        core,
    };
    Some((x, next))
}
