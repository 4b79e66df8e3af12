// Rule 8 over columns. For each record it is found once until when its core idles after its end, and each wait is then one pass over
// these: quadratic in the records, whatever the times.
#![tactic(auto)]

mod instant;
mod running;
mod until;
mod wait;

ghost use Rattle.std.specs.Prelude.{◌≡◌, [], ◌∷◌, ◌≤◌, length};
ghost use Rattle.base.specs.Columns.{Columns};
ghost use Rattle.model.specs.Model.{most_cores, most_records};
ghost use Rattle.base.specs.Find.{first_of};
ghost use Rattle.idle.specs.Idle.{idle_in};

use running::Records;
use table::{FEW, MOST};

// Rule 8, with room for the instants of so many records.
fn idle_over<const ROOM: usize>(ready: &[u32], records: Records<'_>) -> Option<(u32, (u32, u32))>
    requires { Columns most_records records.start.now (ready.now ∷ []) × (length records.start.now ≤ ROOM) × (ROOM ≤ most_records) }
    ensures { result
        ≡ first_of (idle_in records.entry.start.now records.entry.end.now records.entry.core.now records.entry.cores ready.now)
        0 (length records.entry.start.now) }
{
    let mut until = [0u32; ROOM];
    records.idle_until(&mut until);
    let begun = records.all_begun();
    for a in 0..ready.len() {
        if let Some((t, c)) = records.first_idle(ready[a], records.start[a], begun, &until) {
            return Some((a as u32, (t, c)));
        }
    }
    None
}

// Rule 8. No idling.
pub fn idle_place(
    cores: u32,
    ready: &[u32],
    start: &[u32],
    end: &[u32],
    core: &[u32],
) -> Option<(u32, (u32, u32))>
    requires { (cores ≤ most_cores) × Columns most_records start.now (end.now ∷ core.now ∷ ready.now ∷ []) }
    ensures { result
        ≡ first_of (idle_in start.now end.now core.now cores ready.now) 0 (length start.now) }
{
    let records = Records {
        cores,
        start,
        end,
        core,
    };
    if start.len() <= FEW {
        idle_over::<FEW>(ready, records)
    } else {
        idle_over::<MOST>(ready, records)
    }
}
