// What stands of each job at H: records that start before H are kept, other old records keep their release, new jobs are released at
// jP + O. A job that has not begun has start, end and core 0.
ghost use Rattle.std.specs.Prelude.{◌≡◌, ℕ};
ghost use Rattle.model.specs.Carry.{opening, at_H, unbegun};
ghost use Rattle.model.specs.File.{FourBytes};
ghost use Rattle.model.specs.Model.{Run, arrival, task as taskIn, place_of};
ghost use Rattle.model.specs.Rules.{Jobs};
ghost use Rattle.openfile.specs.Head.{Tells};
ghost use Rattle.standing.specs.Carriable.{Carriable};
ghost use Rattle.table.specs.Table.{Lent, recorded};

use model::{Record, TASKS, Task};
use openfile::OpenFile;
use reader::{is_of, least_record};
use runfile::record_at;
use table::{JOB, RELEASE, put_row};

// The record of a job of a run that obeys rule 1: it is tried at a place first, and a job that does not exist at H has none.
fn record_near(o: OpenFile, task: Task, near: u32, i: u32, j: u32) -> Option<u32>
    ensures { (ρ : Run) → Tells o.entry.file.now o.entry.head ρ → Jobs ρ → taskIn ρ.tasks i ≡ task → result ≡ place_of ρ (i, j) }
{
    if near < o.head.records && is_of(record_at(o.file, o.head.records_at, near), i, j) {
        Some(near)
    } else if task.jobs(o.head.setting.horizon) <= j {
        None
    } else {
        least_record(o.file, o.head.records_at, o.head.records, i, j)
    }
}

// A job that has not begun.
fn waiting(i: u32, j: u32, release: u32) -> Record
    ensures { result ≡ unbegun (i, j) release }
{
    Record {
        task: i,
        job: j,
        release,
        start: 0,
        end: 0,
        core: 0,
    }
}

// What stands of a job at H, given its record.
fn standing(o: OpenFile, task: Task, found: Option<u32>, i: u32, j: u32) -> Record
    requires { FourBytes (arrival task j) }
    ensures { (ρ : Run) → Tells o.entry.file.now o.entry.head ρ → taskIn ρ.tasks i ≡ task → found ≡ place_of ρ (i, j) → result ≡ at_H ρ (i, j) }
{
    match found.map(|k| record_at(o.file, o.head.records_at, k)) {
        None => waiting(i, j, task.arrival(j) as u32),
        Some(x) if x.start < o.head.setting.horizon => x,
        Some(x) => waiting(i, j, x.release),
    }
}

// What stands at H of each of the m jobs whose tasks and numbers are there.
pub(crate) fn open_records(o: OpenFile, tasks: [Task; TASKS], t: &mut [u32], m: usize)
    requires { (ρ : Run) × (H' : ℕ) × Carriable o.file.now o.head tasks H' m ρ × Lent 2 (opening ρ H') t.old m }
    ensures { (ρ : Run) (H' : ℕ) → Carriable o.entry.file.now o.entry.head tasks H' m ρ → Lent 2 (opening ρ H') t.old m
        → Lent recorded (opening ρ H') t.new m }
{
    let mut near = 0;
    for k in 0..m {
        let i = t[k];
        let j = t[JOB * m + k];
        let task = tasks[i as usize];
        let found = record_near(o, task, near, i, j);
        let x = standing(o, task, found, i, j);
        near = found.map_or(near, |place| place + 1);
        put_row(t, m, k, RELEASE, &[x.release, x.start, x.end, x.core]);
    }
}
