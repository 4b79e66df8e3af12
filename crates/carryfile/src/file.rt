// What a carry of a file says, and what it writes.
ghost use Rattle.std.specs.Prelude.{◌&&◌, ◌≡◌, leb, length};
ghost use Rattle.model.specs.Answers.{five_of, five_written};
ghost use Rattle.model.specs.Model.{most_horizon, total_jobs, existing};
ghost use Rattle.openfile.specs.Head.{run_in};
ghost use Rattle.carrytheory.specs.Allowed.{Allowed};
ghost use Rattle.carryfile.specs.ToldAndWritten.{Carries};

use carryrun::write_carry;
use model::{Answer, Refusal, Setting, Task};
use openfile::{OpenFile, opened, tally_tasks};
use runfile::size_of;
use tasklist::tasks_of;
use verdict::accepts_run;

// The carry of a file to a horizon within the limits at which it has m jobs: 10, 11, or it is written.
fn carry_to(o: OpenFile, horizon: u32, m: u32, output: &mut [u8]) -> Result<u32, Refusal>
    requires { Allowed (run_in o.file.now) horizon × (m ≡ length (existing (run_in o.file.now) horizon)) }
    ensures { Carries o.entry.file.now horizon output.old (five_written result) output.new }
{
    let size = size_of(o.head.tasks, m);
    let tasks = tasks_of(o);
    let accepted = accepts_run(o, tasks);
    let fits = size <= output.len();
    if !accepted {
        return Err(Refusal::NotAccepted);
    }
    if !fits {
        return Err(Refusal::NoRoom);
    }
    write_carry(o, tasks, horizon, m as usize, output);
    Ok(size as u32)
}

// Whether a run to one horizon may be carried to another: it is not below it, and not above the limit.
fn may_carry(from: u32, to: u32) -> bool
    ensures { result ≡ (leb from to && leb to most_horizon) }
{
    from <= to && to <= Setting::MOST_HORIZON
}

// How many jobs the tasks of a file have before a horizon. Each task is within its ranges.
fn jobs_by(o: OpenFile, horizon: u32) -> u64
    ensures { result ≡ total_jobs (run_in o.entry.file.now).tasks horizon }
{
    tally_tasks(o.file, o.head.tasks, horizon).unwrap_or(0)
}

// The carry of a file that tells a run: 9, 6, and then the rest.
fn carry_run(o: OpenFile, horizon: u32, output: &mut [u8]) -> Result<u32, Refusal>
    ensures { Carries o.entry.file.now horizon output.old (five_written result) output.new }
{
    let m = jobs_by(o, horizon);
    let longer = may_carry(o.head.setting.horizon, horizon);
    let few = m <= Task::MOST_JOBS as u64;
    if !longer {
        return Err(Refusal::Horizon);
    }
    if !few {
        return Err(Refusal::TooManyJobs);
    }
    carry_to(o, horizon, m as u32, output)
}

// The carry of any file: its own refusals, and then the rest.
fn carry(file: &[u8], horizon: u32, output: &mut [u8]) -> Result<u32, Refusal>
    ensures { Carries file.now horizon output.old (five_written result) output.new }
{
    carry_run(opened(file)?, horizon, output)
}

// What is said of the carry of any file.
pub fn carry_file(file: &[u8], horizon: u32, output: &mut [u8]) -> Answer
    ensures { Carries file.now horizon output.old (five_of result) output.new }
{
    Answer::from(carry(file, horizon, output))
}
