// The first instant of a stretch.
ghost use Rattle.idle.specs.FirstFrom.{FirstFrom, Within};

use base::later;

// For no instant: a stretch of instants of 32 bits ends by then.
// Kept: with `Option<u32>` in its place a pass over the records takes four times as long, since it then goes record by record.
pub(crate) const NEVER: u32 = u32::MAX;

// The first instant from t on that lies in the stretch from a start up to an end; NEVER if none does.
pub(crate) fn first_within(t: u32, start: u32, end: u32) -> u32
    ensures { FirstFrom (Within start end) t result }
{
    let first = later(t, start);
    if first < end { first } else { NEVER }
}
