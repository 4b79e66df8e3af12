// What an export of a file says, and what it writes.
ghost use Rattle.model.specs.Answers.{five_of, five_written};
ghost use Rattle.exportfile.specs.LinesOf.{Exports};

use crate::by_start::write_table;
use crate::lines::table_size;
use crate::rising::records_rise;
use model::{Answer, Refusal};
use openfile::{OpenFile, opened};

// The table of a file that tells a run: 14, 11, or it is written.
fn export_run(o: OpenFile, output: &mut [u8]) -> Result<u32, Refusal>
    ensures { Exports o.entry.file.now output.old (five_written result) output.new }
{
    let rising = records_rise(o);
    if !rising {
        return Err(Refusal::NotRising);
    }
    let size = table_size(o);
    let fits = size <= output.len();
    if !fits {
        return Err(Refusal::NoRoom);
    }
    write_table(o, output);
    Ok(size as u32)
}

// The table of any file: its own refusals, 14, 11, or it is written.
fn export(file: &[u8], output: &mut [u8]) -> Result<u32, Refusal>
    ensures { Exports file.now output.old (five_written result) output.new }
{
    export_run(opened(file)?, output)
}

// What is said of the table of any file.
pub fn export_file(file: &[u8], output: &mut [u8]) -> Answer
    ensures { Exports file.now output.old (five_of result) output.new }
{
    Answer::from(export(file, output))
}
