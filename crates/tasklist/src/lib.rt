// Decoded tasks in a list that the caller lends, one entry a task.
#![tactic(auto)]

ghost use Rattle.std.specs.Prelude.{◌≡◌, List, length, replicate};
ghost use Rattle.model.specs.declared.task.Task.{Task as TaskValue};
ghost use Rattle.model.specs.Model.{most_tasks};
ghost use Rattle.model.specs.File.{decoded};
ghost use Rattle.tasklist.specs.Stored.{Rooms, HasTasks, Filled, Plans, Stores, Decodes};

use model::{Refusal, TASKS, Task};
use openfile::{OpenFile, open_file};
use runfile::task_at;

// The task of zeros.
const NO_TASK: Task = Task {
    period: 0,
    least: 0,
    greatest: 0,
    offset: 0,
    jitter: 0,
};

// How many tasks of a file that is whole and has n are stored: all of them, or 11.
fn room_for(n: usize, room: usize) -> Result<usize, Refusal>
    ensures { Rooms n room result }
{
    if room < n {
        return Err(Refusal::NoRoom);
    }
    Ok(n)
}

// How many tasks are to be stored in a list with room for so many: none where the file is refused or the list is too short.
pub fn planned(file: &[u8], room: usize) -> Result<usize, Refusal>
    ensures { (list : List TaskValue) → length list ≡ room → Plans file.now list result }
{
    let head = open_file(file)?;
    room_for(head.tasks as usize, room)
}

// The first n tasks of the file into the list; the entries past them keep their values.
fn fill_tasks(file: &[u8], list: &mut [Task], n: usize)
    requires { HasTasks file.now n (length list.old) }
    ensures { Filled file.now n list.old list.new }
{
    for i in 0..n {
        list[i] = task_at(file, i);
    }
}

// The tasks of a file into the list: the file's own refusals first, then 11 for a list with fewer entries than the file has tasks.
// A refusal changes no entry, and entries past the last task keep their values.
pub fn decode_tasks(file: &[u8], list: &mut [Task]) -> Result<usize, Refusal>
    ensures { Stores file.now list.old list.new result }
{
    let n = planned(file, list.len())?;
    fill_tasks(file, list, n);
    Ok(n)
}

// The first n tasks of a file over the front of a list that is given by value, and lent for it.
fn filled(file: &[u8], n: usize, list: [Task; TASKS]) -> [Task; TASKS]
    requires { HasTasks file.now n most_tasks }
    ensures { Filled file.now n list result }
{
    let mut own = list;
    fill_tasks(file, &mut own, n);
    own
}

// The tasks of a file that tells a run, in a list with tasks of zeros after them.
pub fn tasks_of(o: OpenFile) -> [Task; TASKS]
    ensures { Decodes o.entry.file.now result }
{
    filled(o.file, o.head.tasks as usize, [NO_TASK; TASKS])
}

// The tasks of a file as a value, decoded into a list that is filled with one task: that task after the file's, and nothing else if the
// file is refused.
pub fn tasks_over(file: &[u8], fill: Task) -> [Task; TASKS]
    ensures { result ≡ (decoded file.now (replicate most_tasks fill)).list }
{
    let n = planned(file, TASKS).unwrap_or(0);
    filled(file, n, [fill; TASKS])
}
