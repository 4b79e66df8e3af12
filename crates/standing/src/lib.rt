// What stands at H of a run that is to be carried: its table with the jobs that exist at H'.
#![tactic(auto)]

mod jobs;
mod records;

ghost use Rattle.openfile.specs.Head.{run_in};
ghost use Rattle.standing.specs.Carriable.{Carriable, OpensTable};
ghost use Rattle.table.specs.Table.{Sized};

use jobs::list_jobs;
use model::{TASKS, Task};
use openfile::OpenFile;
use records::open_records;
use times::{Stage, fill_times};

// The whole table of what stands at H, for the m jobs that exist at H'.
pub fn open_table(o: OpenFile, tasks: [Task; TASKS], horizon: u32, t: &mut [u32], m: usize)
    requires { Sized t.old m × Carriable o.file.now o.head tasks horizon m (run_in o.file.now) }
    ensures { OpensTable o.entry.file.now horizon m t.new }
{
    list_jobs(tasks, o.head.tasks, horizon, t, m);
    open_records(o, tasks, t, m);
    fill_times(Stage::Release, tasks, t, m);
    fill_times(Stage::Length, tasks, t, m);
    fill_times(Stage::Order, tasks, t, m);
}
