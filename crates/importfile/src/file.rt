// What the import of a table into a file says, and what it writes.
ghost use Rattle.std.specs.Prelude.{◌≡◌, length};
ghost use Rattle.exchange.specs.TextTable.{Taken};
ghost use Rattle.model.specs.Answers.{five_of, five_written};
ghost use Rattle.openfile.specs.Head.{run_in};
ghost use Rattle.importfile.specs.LeftByImport.{Imports, ImportsOf};

use crate::write::write_import;
use model::{Answer, Record, Refusal};
use openfile::{OpenFile, opened};
use readlines::read_lines;
use runfile::size_of;

// The record of zeros.
const NO_RECORD: Record = Record {
    task: 0,
    job: 0,
    release: 0,
    start: 0,
    end: 0,
    core: 0,
};

// The records of a table that is taken: 11, or the file is written.
fn import_rows(o: OpenFile, rows: &[Record], output: &mut [u8]) -> Result<u32, Refusal>
    requires { Taken rows.now }
    ensures { ImportsOf (run_in o.entry.file.now) rows.now output.old (five_written result) output.new }
{
    let size = size_of(o.head.tasks, rows.len() as u32);
    if output.len() < size {
        return Err(Refusal::NoRoom);
    }
    write_import(o, rows, output);
    Ok(size as u32)
}

// The import of any table into any file: the file's own refusals, those of the lines, and then the rest.
fn import(file: &[u8], table: &[u8], output: &mut [u8]) -> Result<u32, Refusal>
    ensures { Imports file.now table.now output.old (five_written result) output.new }
{
    let o = opened(file)?;
    let mut rows = [NO_RECORD; Record::MOST as usize];
    let n = read_lines(table, &mut rows)?;
    import_rows(o, &rows[..n as usize], output)
}

// What is said of the import of any table into any file.
pub fn import_file(file: &[u8], table: &[u8], output: &mut [u8]) -> Answer
    ensures { Imports file.now table.now output.old (five_of result) output.new }
{
    Answer::from(import(file, table, output))
}
