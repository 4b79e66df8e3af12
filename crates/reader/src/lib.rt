// A reader over a lent file: it holds the file and where its sections stand, and gives a record as the bytes of the file that it is.
#![tactic(auto)]

mod search;

ghost use Rattle.std.specs.Prelude.{◌≡◌, length};
ghost use Rattle.model.specs.File.{read, record_part};
ghost use Rattle.reader.specs.LentFile.{starts_of, part_in, IsPart, Opens, Gives};

use openfile::open_file;
use runfile::RECORD_SIZE;
pub use search::{is_of, least_record};

// Where the tasks and the records of a file begin, and how many records there are: none in a file that is refused.
#[derive(Clone, Copy)]
pub struct Starts {
    pub tasks: u32,
    pub records: u32,
    pub count: u32,
}

// A lent file, and where its sections begin.
#[derive(Clone, Copy)]
pub struct Reader<'a> {
    pub file: &'a [u8],
    pub starts: Starts,
}

pub fn starts_of(file: &[u8]) -> Starts
    ensures { result ≡ starts_of (read file.now) }
{
    let Ok(head) = open_file(file) else {
        return Starts {
            tasks: 0,
            records: 0,
            count: 0,
        };
    };
    Starts {
        tasks: head.tasks_at,
        records: head.records_at,
        count: head.records,
    }
}

// Record k of n that begin at a place, or the empty front part.
pub fn part_in<'a>(file: &'a [u8], at: u32, n: u32, k: u32) -> &'a [u8]
    ensures { IsPart result file.entry (part_in (length file.now) at n k) }
{
    let from = at as usize + RECORD_SIZE * k as usize;
    let to = from + RECORD_SIZE;
    if k < n && to <= file.len() {
        return &file[from..to];
    }
    &file[..0]
}

// The reader of a file: the file is judged once.
pub fn open<'a>(file: &'a [u8]) -> Reader<'a>
    ensures { Opens file.entry result }
{
    Reader {
        file,
        starts: starts_of(file),
    }
}

// Record k, or the empty front part.
pub fn record<'a>(r: Reader<'a>, k: u32) -> &'a [u8]
    ensures { Gives r.entry k result }
{
    part_in(r.file, r.starts.records, r.starts.count, k)
}

// The same with plain parameters: record k of a file as the 24 bytes of the file that it is, and the empty front part if k is not
// below the record count or the file is refused.
pub fn record_of<'a>(file: &'a [u8], k: u32) -> &'a [u8]
    ensures { IsPart result file.entry (record_part file.now k) }
{
    record(open(file), k)
}
