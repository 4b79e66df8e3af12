// The least record of a job.
ghost use Rattle.std.specs.Prelude.{◌≡◌, ◌+◌, ◌*◌};
ghost use Rattle.base.specs.Find.{first};
ghost use Rattle.model.specs.Model.{job_of, same_job};
ghost use Rattle.model.specs.File.{record_at, record_size};

use model::Record;
use runfile::record_at;

// Whether a record is of a job.
pub fn is_of(x: Record, task: u32, job: u32) -> bool
    ensures { result ≡ same_job (job_of x) (task, job) }
{
    x.task == task && x.job == job
}

// The least of the n records that begin at a place of a file that is of a job.
pub fn least_record(file: &[u8], at: u32, n: u32, task: u32, job: u32) -> Option<u32>
    ensures { result ≡ first (λ k. same_job (job_of (record_at file.now (at + record_size * k))) (task, job)) 0 n }
{
    (0..n).find(|k| is_of(record_at(file, at, *k), task, job))
}
