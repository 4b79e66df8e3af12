// What is answered of a file and a record, and what is written.
ghost use Rattle.std.specs.Prelude.{◌*◌, ◌≤◌, ◌<◌, length};
ghost use Rattle.model.specs.Answers.{five_of};
ghost use Rattle.model.specs.Calls.{Leaves};
ghost use Rattle.model.specs.Model.{most_records};
ghost use Rattle.model.specs.Rules.{Obeys};
ghost use Rattle.openfile.specs.Head.{run_in};
ghost use Rattle.table.specs.Table.{Sized, columns};
ghost use Rattle.causes.specs.FoundCause.{chain_of};
ghost use Rattle.causes.specs.Why.{chain_room};
ghost use Rattle.whyfile.specs.ReasonLeft.{Reasons};

use chain::write_chain;
use loadrun::read_table;
use model::{Answer, Refusal};
use openfile::{OpenFile, opened};
use table::{COLUMNS, FEW, FEW_NUMBERS, MOST_NUMBERS};
use tasklist::tasks_of;
use verdict::accepts_run;

// The chain of a record of an accepted run, with a table for the records of the file.
fn trace(o: OpenFile, k: u32, t: &mut [u32], output: &mut [u8]) -> Answer
    requires { Sized t.old o.head.records × (k < o.head.records) × Obeys (run_in o.file.now) }
    ensures { Leaves (chain_room (chain_of (run_in o.entry.file.now) k) (length output.old)) output.old (five_of result) output.new }
{
    read_table(o, t);
    write_chain(t, o.head.records as usize, k, output)
}

// The same, with a table of N numbers.
fn trace_within<const N: usize>(o: OpenFile, k: u32, output: &mut [u8]) -> Answer
    requires { (columns * o.head.records ≤ N) × (N ≤ columns * most_records) × (k < o.head.records) × Obeys (run_in o.file.now) }
    ensures { Leaves (chain_room (chain_of (run_in o.entry.file.now) k) (length output.old)) output.old (five_of result) output.new }
{
    let mut table = [0u32; N];
    trace(
        o,
        k,
        &mut table[..COLUMNS * o.head.records as usize],
        output,
    )
}

// The same. A small file has a small table.
fn trace_run(o: OpenFile, k: u32, output: &mut [u8]) -> Answer
    requires { (k < o.head.records) × Obeys (run_in o.file.now) }
    ensures { Leaves (chain_room (chain_of (run_in o.entry.file.now) k) (length output.old)) output.old (five_of result) output.new }
{
    if o.head.records as usize <= FEW {
        trace_within::<FEW_NUMBERS>(o, k, output)
    } else {
        trace_within::<MOST_NUMBERS>(o, k, output)
    }
}

// Of a file that tells a run: 10, 20, 11, or the chain is written.
fn why_run(o: OpenFile, k: u32, output: &mut [u8]) -> Answer
    ensures { Reasons o.entry.file.now k output.old (five_of result) output.new }
{
    let accepted = accepts_run(o, tasks_of(o));
    let known = k < o.head.records;
    if !accepted {
        return Answer::from(Refusal::NotAccepted);
    }
    if !known {
        return Answer::from(Refusal::NoRecord);
    }
    trace_run(o, k, output)
}

// Of any file: its own refusals, 10, 20, 11, or the chain is written.
pub fn why_file(file: &[u8], k: u32, output: &mut [u8]) -> Answer
    ensures { Reasons file.now k output.old (five_of result) output.new }
{
    match opened(file) {
        Ok(o) => why_run(o, k, output),
        Err(refusal) => Answer::from(refusal),
    }
}
