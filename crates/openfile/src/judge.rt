// The judgement of a file, from its front: the first fault met, or its head.
ghost use Rattle.std.specs.Prelude.{◌≡◌, List, ◌≤◌, length};
ghost use Rattle.model.specs.declared.task.Task.{Task as TaskValue};
ghost use Rattle.model.specs.Answers.{numbered};
ghost use Rattle.model.specs.Model.{most_tasks};
ghost use Rattle.model.specs.File.{records_place, read_records, read_tasks, read};
ghost use Rattle.openfile.specs.Head.{opened_of};

use crate::head::Head;
use crate::tally::tally_tasks;
use model::{Record, Refusal, Setting, Task};
use runfile::{TASKS_PLACE, num_at, records_place, setting_of, size_of};

// The records, whose count stands after n tasks: 1, 7, 8.
fn judge_records(file: &[u8], setting: Setting, n: u32) -> Result<Head, Refusal>
    requires { n ≤ most_tasks }
    ensures { (τs : List TaskValue) → length τs ≡ n → numbered result ≡ opened_of (read_records file.now setting τs (records_place n)) }
{
    let at = records_place(n);
    let count = num_at(file, at);
    let size = size_of(n, count);
    if file.len() < at + 4 {
        return Err(Refusal::CutShort);
    }
    if Record::MOST < count {
        return Err(Refusal::RecordCount);
    }
    if file.len() < size {
        return Err(Refusal::CutShort);
    }
    if size < file.len() {
        return Err(Refusal::Followed);
    }
    Ok(Head {
        setting,
        tasks: n,
        tasks_at: TASKS_PLACE as u32 + 4,
        records: count,
        records_at: at as u32 + 4,
    })
}

// The tasks' count and entries: 1, 4, 5, 6; then the records.
fn judge_tasks(file: &[u8], setting: Setting) -> Result<Head, Refusal>
    ensures { numbered result ≡ opened_of (read_tasks file.now setting) }
{
    if file.len() < TASKS_PLACE + 4 {
        return Err(Refusal::CutShort);
    }
    let n = num_at(file, TASKS_PLACE);
    if n < 1 || Task::MOST < n {
        return Err(Refusal::TaskCount);
    }
    if file.len() < records_place(n) {
        return Err(Refusal::CutShort);
    }
    let jobs = tally_tasks(file, n, setting.horizon)?;
    if (Task::MOST_JOBS as u64) < jobs {
        return Err(Refusal::TooManyJobs);
    }
    judge_records(file, setting, n)
}

// The whole file: the setting's count and numbers, 1, 2, 3, and then the rest.
pub fn open_file(file: &[u8]) -> Result<Head, Refusal>
    ensures { numbered result ≡ opened_of (read file.now) }
{
    if file.len() < 4 {
        return Err(Refusal::CutShort);
    }
    if num_at(file, 0) != 2 {
        return Err(Refusal::SettingCount);
    }
    if file.len() < TASKS_PLACE {
        return Err(Refusal::CutShort);
    }
    let setting = setting_of(file);
    if !setting.in_range() {
        return Err(Refusal::SettingRange);
    }
    judge_tasks(file, setting)
}
