// When a core is busy.
ghost use Rattle.std.specs.Prelude.{◌≡◌, [], ◌∷◌, ◌≤◌};
ghost use Rattle.base.specs.Columns.{Beside};
ghost use Rattle.model.specs.Model.{most_cores};
ghost use Rattle.idle.specs.FirstFrom.{FirstFrom};
ghost use Rattle.idle.specs.Idle.{Runs, busy_in, idle_core_in, BusyFrom};

use crate::instant::{NEVER, first_within};
use base::sooner;

// Where and when the records run: the number of cores, and their starts, ends and cores, side by side.
#[derive(Clone, Copy)]
pub(crate) struct Records<'a> {
    pub(crate) cores: u32,
    pub(crate) start: &'a [u32],
    pub(crate) end: &'a [u32],
    pub(crate) core: &'a [u32],
    ghost few: { cores ≤ most_cores },
    ghost beside: { Beside start.now (end.now ∷ core.now ∷ []) },
}

// The first instant from t on at which a record runs, if it is on core c.
fn runs_from(c: u32, t: u32, start: u32, end: u32, core: u32) -> u32
    ensures { FirstFrom (Runs start end core c) t result }
{
    let first = first_within(t, start, end);
    if core == c { first } else { NEVER }
}

impl<'a> Records<'a> {
    // Whether some record runs on core c at t.
    fn busy(self, c: u32, t: u32) -> bool
        ensures { result ≡ busy_in self.entry.start.now self.entry.end.now self.entry.core.now c t }
    {
        (0..self.start.len()).any(|k| self.core[k] == c
            && (self.start[k]..self.end[k]).contains(&t))
    }

    // The least core that idles at t.
    pub(crate) fn idle_core(self, t: u32) -> Option<u32>
        ensures { result ≡ idle_core_in self.entry.start.now self.entry.end.now self.entry.core.now self.entry.cores t }
    {
        (1..=self.cores).find(|&c| !self.busy(c, t))
    }

    // The first instant from t on at which core c is busy. What is read is handed on as it is: the pass then takes several records at once.
    pub(crate) fn busy_from(self, c: u32, t: u32) -> u32
        ensures { BusyFrom self.entry.start.now self.entry.end.now self.entry.core.now c t result }
    {
        let mut first = NEVER;
        for k in 0..self.start.len() {
            first = sooner(
                first,
                runs_from(c, t, self.start[k], self.end[k], self.core[k]),
            );
        }
        first
    }
}
