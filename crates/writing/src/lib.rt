// A run as a run file: the tasks of a list, and the records of a table, written to the front of an output.
#![tactic(auto)]

ghost use Rattle.std.specs.Prelude.{◌≡◌, [], ◌∷◌, ◌+◌, ◌*◌, ◌≤◌, ◌<◌, length};
ghost use Rattle.model.specs.Calls.{front};
ghost use Rattle.model.specs.File.{bytes, task_numbers, record_numbers, tasks_place, records_place, task_size, record_size, size_of};
ghost use Rattle.model.specs.Model.{Run};
ghost use Rattle.table.specs.Table.{Sized};
ghost use Rattle.writing.specs.WrittenRows.{Wrote, rows, record_in, task_row, record_row};
ghost use Rattle.writing.specs.RunOfTable.{Tabled};

use model::{Record, TASKS, Task};
use openfile::Head;
use runfile::{RECORD_SIZE, TASK_SIZE, TASKS_PLACE, records_place};
use table::{CORE, END, JOB, RELEASE, START, TASK};
use wire::put_u32;

// Writes numbers, one after the other, from a place on.
fn write_numbers(numbers: &[u32], at: usize, output: &mut [u8])
    requires { at + 4 * length numbers.now ≤ length output.old }
    ensures { Wrote output.old at numbers.now output.new (at + 4 * length numbers.now) }
{
    for (i, v) in numbers.iter().enumerate() {
        put_u32(output, at + 4 * i, *v);
    }
}

// Writes the setting's section and the task count.
fn write_head(cores: u32, horizon: u32, n: u32, output: &mut [u8])
    requires { tasks_place + 4 ≤ length output.old }
    ensures { Wrote output.old 0 (2 ∷ cores ∷ horizon ∷ n ∷ []) output.new (tasks_place + 4) }
{
    write_numbers(&[2, cores, horizon, n], 0, output);
}

// Writes a task at a place.
fn write_task(t: Task, at: usize, output: &mut [u8])
    requires { at + task_size ≤ length output.old }
    ensures { Wrote output.old at (task_numbers t) output.new (at + task_size) }
{
    write_numbers(
        &[t.period, t.least, t.greatest, t.offset, t.jitter],
        at,
        output,
    );
}

// Writes tasks after the head.
fn write_tasks(tasks: &[Task], output: &mut [u8])
    requires { records_place (length tasks.now) ≤ length output.old }
    ensures { Wrote output.old (tasks_place + 4) (rows (task_row tasks.now) (length tasks.now)) output.new
        (records_place (length tasks.now)) }
{
    for (i, t) in tasks.iter().enumerate() {
        write_task(*t, TASKS_PLACE + 4 + TASK_SIZE * i, output);
    }
}

// Writes a record at a place.
fn write_record(x: Record, at: usize, output: &mut [u8])
    requires { at + record_size ≤ length output.old }
    ensures { Wrote output.old at (record_numbers x) output.new (at + record_size) }
{
    write_numbers(
        &[x.task, x.job, x.release, x.start, x.end, x.core],
        at,
        output,
    );
}

// Record k of a table.
fn record_in(t: &[u32], n: usize, k: usize) -> Record
    requires { Sized t.now n × (k < n) }
    ensures { result ≡ record_in t.now n k }
{
    Record {
        task: t[TASK * n + k],
        job: t[JOB * n + k],
        release: t[RELEASE * n + k],
        start: t[START * n + k],
        end: t[END * n + k],
        core: t[CORE * n + k],
    }
}

// Writes the records of a table from a place on.
fn write_records(t: &[u32], n: usize, at: usize, output: &mut [u8])
    requires { Sized t.now n × (at + record_size * n ≤ length output.old) }
    ensures { Wrote output.old at (rows (record_row t.now n) n) output.new (at + record_size * n) }
{
    for k in 0..n {
        write_record(record_in(t, n, k), at + RECORD_SIZE * k, output);
    }
}

// Writes the whole file of a run that has its tasks in a list, and its records in a table.
pub fn write_run(
    head: Head,
    horizon: u32,
    tasks: [Task; TASKS],
    t: &[u32],
    n: usize,
    output: &mut [u8],
)
    requires { (size_of head.tasks n ≤ length output.old) × ((σ : Run) × Tabled head horizon tasks t.now n σ) }
    ensures { (σ : Run) → Tabled head horizon tasks t.now n σ
        → output.new ≡ front (bytes σ) output.old }
{
    let setting = head.setting;
    let count = head.tasks;
    let at = records_place(count);
    write_head(setting.cores, horizon, count, output);
    write_tasks(&tasks[..count as usize], output);
    put_u32(output, at, n as u32);
    write_records(t, n, at + 4, output);
}
