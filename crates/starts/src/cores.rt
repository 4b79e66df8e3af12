// The cores: when each is free, and which is taken.
ghost use Rattle.std.specs.Prelude.{◌≡◌, ℕ, ◌+◌, ◌≤◌, length, get_or};
ghost use Rattle.model.specs.Model.{most_cores};
ghost use Rattle.starts.specs.Cores.{Ran, Lasts, LeastOf};

use base::later;
use model::Setting;

// As many entries as there are cores, and one for none.
const CORES: usize = Setting::MOST_CORES as usize + 1;

// The number n of the cores, the last end on each of the cores from 1 on, and the least of those on the cores 1 to n.
#[derive(Clone, Copy)]
pub struct Cores {
    pub n: u32,
    pub ends: [u32; CORES],
    pub least: u32,
    ghost range: { (1 ≤ n) × (n ≤ most_cores) },
}

// For each core the latest end of a job on it, or 0.
fn last_ends(end: &[u32], core: &[u32]) -> [u32; CORES]
    requires { Ran end.now core.now }
    ensures { Lasts (length core.now) core.now end.now result }
{
    let mut ends = [0u32; CORES];
    for (&c, &e) in core.iter().zip(end) {
        ends[c as usize] = later(ends[c as usize], e);
    }
    ends
}

impl Cores {
    ghost use Rattle.starts.specs.CoreGiven.{Takes};

    // The cores before the first start.
    pub(crate) fn new(n: u32, end: &[u32], core: &[u32]) -> Self
        requires { (1 ≤ n) × (n ≤ most_cores) × Ran end.now core.now }
        ensures { (result.n ≡ n) × Lasts (length core.now) core.now end.now result.ends × LeastOf result.ends (result.n + 1) result.least }
    {
        let mut cores = Cores {
            n,
            ends: last_ends(end, core),
            least: 0,
        };
        cores.least = cores.least_end();
        cores
    }

    // The least of the last ends on the cores 1 to n.
    fn least_end(&self) -> u32
        ensures { LeastOf self.now.ends (self.now.n + 1) result }
    {
        self.ends[1..=self.n as usize]
            .iter()
            .copied()
            .min()
            .unwrap()
    }

    // The lowest of the cores 1 to n whose last end is no later than t is taken until an end.
    pub(crate) fn take(&mut self, t: u32, end: u32) -> u32
        requires { (d : ℕ) × (1 ≤ d) × (d ≤ self.old.n) × (get_or self.old.ends d 0 ≤ t) }
        ensures { Takes self.old.ends self.old.n t end result self.new }
    {
        let core = (1..self.n + 1)
            .find(|&c| self.ends[c as usize] <= t)
            .unwrap();
        self.ends[core as usize] = end;
        self.least = self.least_end();
        core
    }
}
