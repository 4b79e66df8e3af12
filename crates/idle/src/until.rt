// Until when the core of each record idles after its end, and from when on each core has begun: found once for all waits.
ghost use Rattle.std.specs.Prelude.{◌+◌, ◌≤◌, length};
ghost use Rattle.idle.specs.Idle.{IdleUntil, Untils, Begun};

use crate::running::Records;
use base::later;

impl<'a> Records<'a> {
    // Until when core c idles from t on; 0 if it is none of the cores.
    fn idle_after(self, c: u32, t: u32) -> u32
        ensures { IdleUntil self.entry.start.now self.entry.end.now self.entry.core.now self.entry.cores c t result }
    {
        if (1..=self.cores).contains(&c) {
            self.busy_from(c, t)
        } else {
            0
        }
    }

    // The same for each record's core from its end on.
    pub(crate) fn idle_until(self, until: &mut [u32])
        requires { length self.start.now ≤ length until.old }
        ensures { Untils self.entry.start.now self.entry.end.now self.entry.core.now self.entry.cores (length self.entry.end.now) until.new }
    {
        for k in 0..self.end.len() {
            until[k] = self.idle_after(self.core[k], self.end[k]);
        }
    }

    // The instant from which on each core has begun a record.
    pub(crate) fn all_begun(self) -> u32
        ensures { Begun self.entry.start.now self.entry.end.now self.entry.core.now (self.entry.cores + 1) result }
    {
        let mut begun = 0;
        for c in 1..=self.cores {
            begun = later(begun, self.busy_from(c, 0));
        }
        begun
    }
}
