// The tasks of a file gone through once: the least that is out of its ranges, or how many jobs all of them have.
ghost use Rattle.model.specs.File.{tasks_in};
ghost use Rattle.runfile.specs.TasksThere.{TasksThere};
ghost use Rattle.openfile.specs.Head.{Tallies};

use model::Refusal;
use runfile::task_at;

// The first n tasks of a file that has their bytes, and their jobs before a horizon; a task has at most 2^32 - 1 of them, so that the sum of any n fits.
pub fn tally_tasks(file: &[u8], n: u32, horizon: u32) -> Result<u64, Refusal>
    requires { TasksThere file.now n }
    ensures { Tallies (tasks_in file.now n) horizon result }
{
    let mut sum: u64 = 0;
    for i in 0..n {
        let task = task_at(file, i as usize);
        if !task.in_range() {
            return Err(Refusal::TaskRange(i));
        }
        sum += task.jobs(horizon) as u64;
    }
    Ok(sum)
}
