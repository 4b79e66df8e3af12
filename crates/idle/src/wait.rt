// The least instant of a wait at which a core idles.
ghost use Rattle.std.specs.Prelude.{◌≡◌, ◌-◌, ◌≤◌, length};
ghost use Rattle.base.specs.Find.{first_of};
ghost use Rattle.idle.specs.FirstFrom.{FirstFrom};
ghost use Rattle.idle.specs.Idle.{idle_core_in, Stretches, Prepared};

use crate::instant::{NEVER, first_within};
use crate::running::Records;
use base::sooner;

// The first instant from `from` on that lies between the end of a record and the instant until which its core then idles.
fn least_idle(from: u32, end: &[u32], until: &[u32]) -> u32
    requires { length end.now ≤ length until.now }
    ensures { FirstFrom (Stretches end.now until.now (length end.now)) from result }
{
    let mut least = NEVER;
    for k in 0..end.len() {
        least = sooner(least, first_within(from, end[k], until[k]));
    }
    least
}

impl<'a> Records<'a> {
    // The least instant of a wait at which a core idles, and that core. Where some core has not begun yet, it idles at the wait's first
    // instant; else each core that idles does so after the end of a record.
    pub(crate) fn first_idle(
        self,
        from: u32,
        to: u32,
        begun: u32,
        until: &[u32],
    ) -> Option<(u32, u32)>
        requires { Prepared self.start.now self.end.now self.core.now self.cores begun until.now }
        ensures { result
            ≡ first_of (idle_core_in self.entry.start.now self.entry.end.now self.entry.core.now self.entry.cores) from (to - from) }
    {
        if to <= from {
            return None;
        }
        let least = if begun <= from {
            least_idle(from, self.end, until)
        } else {
            from
        };
        if to <= least {
            return None;
        }
        self.idle_core(least).map(|c| (least, c))
    }
}
