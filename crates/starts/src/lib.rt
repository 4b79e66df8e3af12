// A carry from one start to the next: each start is one pass over the jobs and two over the cores, whatever the times.
#![tactic(auto)]

mod choose;
mod cores;

ghost use Rattle.std.specs.Prelude.{◌≡◌, ℕ, ◌+◌, ◌<◌, length};
ghost use Rattle.model.specs.Carry.{starts, carried};
ghost use Rattle.model.specs.Model.{Run, task_of};
ghost use Rattle.model.specs.Rules.{Jobs};
ghost use Rattle.starts.specs.Choice.{Choice};
ghost use Rattle.starts.specs.Opened.{Opened};
ghost use Rattle.table.specs.Table.{Lent, Sized, columns, column_of};

use base::later;
use choose::choose;
use cores::Cores;
use table::{CORE, END, GREATEST, JOB, RANK, READY, RELEASE, START, column, put_row};

// The job of a table that starts first from v on, and when.
fn next_job(v: u32, t: &[u32], n: usize) -> Option<(u32, usize)>
    requires { (σ : Run) × Jobs σ × Lent columns σ t.now n }
    ensures { Choice n v (column_of n t.now 5) (column_of n t.now 1) (column_of n t.now 12) (column_of n t.now 11) result }
{
    choose(
        v,
        column(t, n, CORE),
        column(t, n, JOB),
        column(t, n, READY),
        column(t, n, RANK),
    )
}

// Job k starts: its start, end and core, and the instant at which the next job of its task is ready.
fn put_start(t: &mut [u32], n: usize, k: usize, start: u32, end: u32, core: u32)
    requires { Sized t.old n × (k < n) }
    ensures { (σ : Run) → Jobs σ → Lent columns σ t.old n → end ≡ start + (task_of σ k).greatest → Lent columns (starts σ start k core) t.new n }
{
    put_row(t, n, k, START, &[start, end, core]);
    let next = k + 1;
    if next < n && t[JOB * n + next] != 0 {
        let ready = later(t[RELEASE * n + next], end);
        put_row(t, n, next, READY, &[ready]);
    }
}

// All jobs that have not begun start, one after the other, from the horizon on: the table of the carry.
pub fn start_all(cores: u32, horizon: u32, t: &mut [u32], n: usize)
    requires { (ρ : Run) × (H' : ℕ) × Opened ρ H' cores horizon t.old n }
    ensures { (ρ : Run) (H' : ℕ) → Opened ρ H' cores horizon t.old n → Lent columns (carried ρ H') t.new n }
{
    let mut free = Cores::new(cores, column(t, n, END), column(t, n, CORE));
    let mut at = horizon;
    while let Some((start, k)) = next_job(later(at, free.least), t, n) {
        let end = start + t[GREATEST * n + k];
        let core = free.take(start, end);
        put_start(t, n, k, start, end, core);
        at = start;
    }
}
