// The jobs that exist at a horizon, in order of task, then job, into the first two columns of a table.
ghost use Rattle.std.specs.Prelude.{◌+◌, ◌≤◌};
ghost use Rattle.model.specs.Model.{Run};
ghost use Rattle.standing.specs.WhoseRows.{OfTask, OfTasks};
ghost use Rattle.table.specs.Table.{Sized, Lent, Rows};

use model::{TASKS, Task};
use table::{TASK, put_row};

// The first jobs of task i, in the rows from a place on.
fn list_task(i: u32, count: usize, t: &mut [u32], m: usize, at: usize)
    requires { Sized t.old m × (at + count ≤ m) }
    ensures { (σ : Run) → OfTask σ i at count → Rows 0 2 at σ t.old m → Rows 0 2 (at + count) σ t.new m }
{
    for j in 0..count {
        put_row(t, m, at + j, TASK, &[i, j as u32]);
    }
}

// The jobs of the first n tasks of a list before a horizon.
pub(crate) fn list_jobs(tasks: [Task; TASKS], n: u32, horizon: u32, t: &mut [u32], m: usize)
    requires { Sized t.old m × ((σ : Run) × OfTasks tasks n horizon m σ) }
    ensures { (σ : Run) → OfTasks tasks n horizon m σ → Lent 2 σ t.new m }
{
    let mut at = 0;
    for (i, task) in tasks[..n as usize].iter().enumerate() {
        let count = task.jobs(horizon) as usize;
        list_task(i as u32, count, t, m, at);
        at += count;
    }
}
