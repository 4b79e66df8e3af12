// The times of each record, from the tasks of the file: they stand in a list that is lent, and the rules then run over columns alone.
#![tactic(auto)]

ghost use Rattle.std.specs.Prelude.{◌≡◌, ◌+◌, ◌*◌, ◌<◌};
ghost use Rattle.model.specs.Model.{Run, task_of, ready};
ghost use Rattle.model.specs.Rules.{Jobs};
ghost use Rattle.table.specs.Table.{Sized, Lent, Rows, Loads, recorded};
ghost use Rattle.times.specs.Times.{begins, up_to, KeptFrom, Listed};

use base::later;
use model::{TASKS, Task};
use table::{DUE, EARLIEST, END, JOB, LEAST, RELEASE, put_row};

// What is filled in at once: until when a record may be released, how long it may last, what its order goes by.
// Kept: the contracts above name a stage as a value, `up_to Stage.Release`; three types of a trait would be `⟦<Release as Stage>⟧.up_to` there, and an `impl` each for an arm.
#[derive(Clone, Copy)]
pub enum Stage {
    Release,
    Length,
    Order,
}

// When the job of record k is ready, where rule 1 holds: the job before it is that of the record before.
fn ready_at(t: &[u32], n: usize, k: usize) -> u32
    requires { Sized t.now n × (k < n) }
    ensures { (σ : Run) → Jobs σ → Lent recorded σ t.now n → result ≡ ready σ k }
{
    let release = t[RELEASE * n + k];
    if t[JOB * n + k] == 0 {
        release
    } else {
        later(release, t[END * n + k - 1])
    }
}

// The times of record k, whose task this is, that a stage fills in.
fn put_times(stage: Stage, task: Task, t: &mut [u32], n: usize, k: usize)
    requires { (k < n) × ((σ : Run) × Jobs σ × Rows (begins stage) (up_to stage) k σ t.old n × (task_of σ k ≡ task)) }
    ensures { (σ : Run) → Jobs σ → Rows (begins stage) (up_to stage) k σ t.old n → task_of σ k ≡ task
        → Rows (begins stage) (up_to stage) (k + 1) σ t.new n × KeptFrom (up_to stage * n) t.old t.new }
{
    let job = t[JOB * n + k];
    match stage {
        Stage::Release => {
            let earliest = task.arrival(job) as u32;
            let latest = earliest + task.jitter;
            put_row(t, n, k, EARLIEST, &[earliest, latest]);
        }
        Stage::Length => put_row(t, n, k, LEAST, &[task.least, task.greatest]),
        Stage::Order => {
            let due = task.deadline(job) as u32;
            let ready = ready_at(t, n, k);
            put_row(t, n, k, DUE, &[due, due, ready]);
        }
    }
}

// The times of all records that a stage fills in, from a lent list of tasks.
fn times_from(stage: Stage, tasks: &[Task], t: &mut [u32], n: usize)
    requires { (σ : Run) × Listed σ tasks.now (begins stage) t.old n }
    ensures { (σ : Run) → Listed σ tasks.now (begins stage) t.old n → Loads (up_to stage) σ n t.old t.new }
{
    for k in 0..n {
        put_times(stage, tasks[t[k] as usize], t, n, k);
    }
}

// The times of all records that a stage fills in, from a list of tasks that is given by value, and lent for it.
pub fn fill_times(stage: Stage, tasks: [Task; TASKS], t: &mut [u32], n: usize)
    requires { (σ : Run) × Listed σ tasks (begins stage) t.old n }
    ensures { (σ : Run) → Listed σ tasks (begins stage) t.old n → Loads (up_to stage) σ n t.old t.new }
{
    times_from(stage, &tasks, t, n);
}
