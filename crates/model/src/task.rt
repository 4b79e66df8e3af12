// A task: period P, least and greatest time B and W, offset O and jitter J, with its limits, its deadlines and its job count.
ghost use Rattle.std.specs.Prelude.{◌≡◌};
ghost use Rattle.model.specs.Model.{arrival, deadline, job_count};
ghost use Rattle.model.specs.Compute.Limits.{task_in_range};

#[derive(Clone, Copy)]
pub struct Task {
    pub period: u32,
    pub least: u32,
    pub greatest: u32,
    pub offset: u32,
    pub jitter: u32,
}

impl Task {
    pub const MOST_PERIOD: u32 = 1_000_000;

    pub const MOST_TIME: u32 = 1_000_000;

    pub const MOST_OFFSET: u32 = 1_000_000;

    // how many a file can have, and how many jobs all of them
    pub const MOST: u32 = 32;

    pub const MOST_JOBS: u32 = 512;

    // Whether each number is within its range.
    #[tactic(auto, unfolding(crate::specs::Compute::Limits::task_in_range))]
    pub fn in_range(self) -> bool
        ensures { result ≡ task_in_range self }
    {
        (1..=Task::MOST_PERIOD).contains(&self.period)
            && (1..=self.greatest).contains(&self.least)
            && self.greatest <= Task::MOST_TIME
            && self.offset <= Task::MOST_OFFSET
            && self.jitter < self.period
    }

    // jP + O, which fits for any four-byte numbers.
    pub fn arrival(self, job: u32) -> u64
        ensures { result ≡ arrival self job }
    {
        job as u64 * self.period as u64 + self.offset as u64
    }

    // (j+1)P + O, which fits for any four-byte numbers.
    pub fn deadline(self, job: u32) -> u64
        ensures { result ≡ deadline self job }
    {
        (job as u64 + 1) * self.period as u64 + self.offset as u64
    }

    // How many jobs exist before a horizon. A period of 0 is out of range; its task has none.
    pub fn jobs(self, horizon: u32) -> u32
        ensures { result ≡ job_count self horizon }
    {
        if self.period == 0 || horizon <= self.offset {
            return 0;
        }
        (horizon - self.offset - 1) / self.period + 1
    }
}
