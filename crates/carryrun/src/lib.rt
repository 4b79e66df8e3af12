// The carry of the run of a file, written as a file.
#![tactic(auto)]

ghost use Rattle.std.specs.Prelude.{◌*◌, ◌≤◌, length};
ghost use Rattle.model.specs.Model.{most_records};
ghost use Rattle.openfile.specs.Head.{run_in};
ghost use Rattle.table.specs.Table.{Sized, columns};
ghost use Rattle.carryrun.specs.Writable.{Writable, WritesCarry};

use model::{TASKS, Task};
use openfile::OpenFile;
use standing::open_table;
use starts::start_all;
use table::{COLUMNS, FEW, FEW_NUMBERS, MOST_NUMBERS};
use writing::write_run;

// With a table for the m jobs that exist at the horizon.
fn write_table(
    o: OpenFile,
    tasks: [Task; TASKS],
    horizon: u32,
    t: &mut [u32],
    m: usize,
    output: &mut [u8],
)
    requires { Sized t.old m × Writable o.file.now o.head tasks horizon m (length output.old) (run_in o.file.now) }
    ensures { WritesCarry o.entry.file.now horizon output.old output.new }
{
    let setting = o.head.setting;
    open_table(o, tasks, horizon, t, m);
    start_all(setting.cores, setting.horizon, t, m);
    write_run(o.head, horizon, tasks, t, m, output);
}

// The same, with a table of N numbers.
fn write_within<const N: usize>(
    o: OpenFile,
    tasks: [Task; TASKS],
    horizon: u32,
    m: usize,
    output: &mut [u8],
)
    requires { (columns * m ≤ N) × (N ≤ columns * most_records) × Writable o.file.now o.head tasks horizon m (length output.old) (run_in o.file.now) }
    ensures { WritesCarry o.entry.file.now horizon output.old output.new }
{
    let mut table = [0u32; N];
    write_table(o, tasks, horizon, &mut table[..COLUMNS * m], m, output);
}

// The carry of an accepted run to a horizon at which m jobs exist. A small one has a small table.
pub fn write_carry(o: OpenFile, tasks: [Task; TASKS], horizon: u32, m: usize, output: &mut [u8])
    requires { Writable o.file.now o.head tasks horizon m (length output.old) (run_in o.file.now) }
    ensures { WritesCarry o.entry.file.now horizon output.old output.new }
{
    if m <= FEW {
        write_within::<FEW_NUMBERS>(o, tasks, horizon, m, output);
    } else {
        write_within::<MOST_NUMBERS>(o, tasks, horizon, m, output);
    }
}
