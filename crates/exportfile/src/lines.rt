// The lines of the records of a file: how long they are, and written in an order.
ghost use Rattle.std.specs.Prelude.{◌≡◌, ◌+◌, ◌≤◌, length};
ghost use Rattle.model.specs.Calls.{front};
ghost use Rattle.exchange.specs.RecordLine.{record_line, table_of};
ghost use Rattle.text.specs.Paste.{Wrote};
ghost use Rattle.exportfile.specs.LinesOf.{records_at, table_by};

use decimal::digit_count;
use exchange::{HEADER_SIZE, header_line};
use model::Record;
use openfile::OpenFile;
use runfile::record_at;
use text::{put_bytes, put_number};

// How long the line of a record is: six numbers, a byte after each.
fn line_size(x: Record) -> usize
    ensures { result ≡ length (record_line x) }
{
    [x.task, x.job, x.release, x.start, x.end, x.core]
        .iter()
        .map(|v| digit_count(*v))
        .sum::<usize>()
        + 6
}

// How long the table of the records of a file is.
pub(crate) fn table_size(o: OpenFile) -> usize
    ensures { result ≡ length (table_of (records_at o.entry.file.now o.entry.head.records_at o.entry.head.records)) }
{
    HEADER_SIZE
        + (0..o.head.records)
            .map(|k| line_size(record_at(o.file, o.head.records_at, k)))
            .sum::<usize>()
}

// Writes the line of a record from a place on: the place after it.
fn put_record(output: &mut [u8], at: usize, x: Record) -> usize
    requires { at + length (record_line x) ≤ length output.old }
    ensures { Wrote output.old at (record_line x) output.new result }
{
    let job = put_number(output, at, x.task, b',');
    let release = put_number(output, job, x.job, b',');
    let start = put_number(output, release, x.release, b',');
    let end = put_number(output, start, x.start, b',');
    let core = put_number(output, end, x.end, b',');
    put_number(output, core, x.core, b'\n')
}

// Writes the header and the lines of some records of a file, in this order.
pub(crate) fn write_lines(o: OpenFile, order: &[u32], output: &mut [u8])
    requires { length (table_by o.file.now o.head.records_at order.now) ≤ length output.old }
    ensures { output.new ≡ front (table_by o.entry.file.now o.entry.head.records_at order.now) output.old }
{
    let header = header_line();
    let mut next = put_bytes(output, 0, &header);
    for k in order {
        next = put_record(output, next, record_at(o.file, o.head.records_at, *k));
    }
}
