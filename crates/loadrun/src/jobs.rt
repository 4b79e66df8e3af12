// Rule 1. The records are exactly the existing jobs, in order.
ghost use Rattle.std.specs.Prelude.{◌≡◌, [], ◌∷◌, ◌+◌, ◌≤◌};
ghost use Rattle.std.specs.Option.{option_map};
ghost use Rattle.base.specs.Columns.{Columns};
ghost use Rattle.base.specs.Find.{first};
ghost use Rattle.model.specs.Compute.Places.{find, one};
ghost use Rattle.model.specs.Model.{Run, most_records, most_jobs};
ghost use Rattle.model.specs.Rules.{rule1};
ghost use Rattle.openfile.specs.Head.{Known};
ghost use Rattle.table.specs.Table.{Lent, recorded};
ghost use Rattle.loadrun.specs.OtherJob.{other_job};

use model::{TASKS, Task};
use openfile::Head;
use table::{JOB, TASK, column};

// The first place from another on at which records do not go on with the jobs 0 to count of task i.
fn task_place(task: &[u32], job: &[u32], i: u32, at: usize, count: usize) -> Option<u32>
    requires { Columns most_records task.now (job.now ∷ []) × (at + count ≤ most_jobs) }
    ensures { result ≡ first (other_job task.now job.now i at) at count }
{
    (at..at + count)
        .find(|&k| task.len() <= k || task[k] != i || job[k] != (k - at) as u32)
        .map(|k| k as u32)
}

// The first place at which the recorded jobs and those that exist differ, one of them ending included.
pub fn jobs_place(head: Head, tasks: [Task; TASKS], t: &[u32]) -> Option<u32>
    requires { (ρ : Run) × Known head tasks ρ × Lent recorded ρ t.now head.records }
    ensures { (ρ : Run) → Known head tasks ρ → Lent recorded ρ t.now head.records
        → option_map one result ≡ find rule1 ρ }
{
    let setting = head.setting;
    let n = head.records as usize;
    let mut at = 0;
    for (i, task) in tasks[..head.tasks as usize].iter().enumerate() {
        let count = task.jobs(setting.horizon) as usize;
        if let Some(k) = task_place(column(t, n, TASK), column(t, n, JOB), i as u32, at, count) {
            return Some(k);
        }
        at += count;
    }
    (at < n).then_some(at as u32)
}
