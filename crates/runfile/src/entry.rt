// The entries of a file's sections, where they stand, and how long a file can be.
ghost use Rattle.std.specs.Prelude.{◌≡◌, ◌+◌, ◌*◌};
ghost use Rattle.model.specs.File.{num, setting_at, task_at, record_at, tasks_place, records_place, size_of, longest_file, task_size, record_size};
ghost use Rattle.runfile.specs.TasksThere.{TasksThere};

use crate::number::{num_at, word_at};
use model::{Record, Setting, Task};

// How many bytes a task and a record have, and where the tasks' count stands.
pub const TASK_SIZE: usize = 20;

pub const RECORD_SIZE: usize = 24;

pub const TASKS_PLACE: usize = 12;

pub fn setting_of(file: &[u8]) -> Setting
    ensures { result ≡ setting_at file.now 4 }
{
    Setting {
        cores: num_at(file, 4),
        horizon: num_at(file, 8),
    }
}

// Task i of a file that has its bytes: no byte is asked whether it stands before the end.
pub fn task_at(file: &[u8], i: usize) -> Task
    requires { TasksThere file.now (i + 1) }
    ensures { result ≡ task_at file.now (tasks_place + 4 + task_size * i) }
{
    let at = TASKS_PLACE + 4 + TASK_SIZE * i;
    Task {
        period: word_at(file, at),
        least: word_at(file, at + 4),
        greatest: word_at(file, at + 8),
        offset: word_at(file, at + 12),
        jitter: word_at(file, at + 16),
    }
}

// Where the records' count stands after n tasks.
pub fn records_place(n: u32) -> usize
    ensures { result ≡ records_place n }
{
    TASKS_PLACE + 4 + TASK_SIZE * n as usize
}

// How many bytes a file of n tasks and m records has.
pub fn size_of(n: u32, m: u32) -> usize
    ensures { result ≡ size_of n m }
{
    records_place(n) + 4 + RECORD_SIZE * m as usize
}

// Record k of those that begin at a place.
pub fn record_at(file: &[u8], at: u32, k: u32) -> Record
    ensures { result ≡ record_at file.now (at + record_size * k) }
{
    let from = at as usize + RECORD_SIZE * k as usize;
    Record {
        task: num_at(file, from),
        job: num_at(file, from + 4),
        release: num_at(file, from + 8),
        start: num_at(file, from + 12),
        end: num_at(file, from + 16),
        core: num_at(file, from + 20),
    }
}

pub const LONGEST_FILE: usize = 12_948;

// How many bytes the longest file has that is read through.
pub fn longest_file() -> usize
    ensures { result ≡ longest_file }
{
    LONGEST_FILE
}
