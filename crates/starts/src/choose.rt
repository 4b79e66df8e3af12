// The job that starts next, by one pass over the jobs.
ghost use Rattle.std.specs.Prelude.{◌≡◌, [], ◌∷◌, ◌+◌, ◌<◌, length, get_or};
ghost use Rattle.base.specs.Columns.{Beside};
ghost use Rattle.starts.specs.Choice.{has_turn, Choosable, Choice};

use base::later;

// Whether job i has not begun, and is the first of its task or comes after one that has.
#[tactic(auto, unfolding(crate::specs::Choice::has_turn))]
fn has_turn(core: &[u32], job: &[u32], i: usize) -> bool
    requires { Beside core.now (job.now ∷ []) × (i < length core.now) × (get_or job.now 0 0 ≡ 0) }
    ensures { result ≡ has_turn core.now job.now i }
{
    core[i] == 0 && (job[i] == 0 || core[i - 1] != 0)
}

// The job that starts first of the first k from v on, and when; and now of one more.
fn better(
    v: u32,
    core: &[u32],
    job: &[u32],
    ready: &[u32],
    rank: &[u32],
    best: Option<(u32, usize)>,
    k: usize,
) -> Option<(u32, usize)>
    requires { Choosable core.now job.now ready.now rank.now × (k < length core.now)
        × Choice k v core.now job.now ready.now rank.now best }
    ensures { Choice (k + 1) v core.now job.now ready.now rank.now result }
{
    if !has_turn(core, job, k) {
        return best;
    }
    let at = later(v, ready[k]);
    let Some((found, j)) = best else {
        return Some((at, k));
    };
    if at < found || at == found && rank[k] < rank[j] {
        Some((at, k))
    } else {
        best
    }
}

// The job that starts first from v on, and when.
pub(crate) fn choose(
    v: u32,
    core: &[u32],
    job: &[u32],
    ready: &[u32],
    rank: &[u32],
) -> Option<(u32, usize)>
    requires { Choosable core.now job.now ready.now rank.now }
    ensures { Choice (length core.now) v core.now job.now ready.now rank.now result }
{
    let mut best = None;
    // Kept: a `filter` over the jobs with the `min` of its items takes a third longer.
    for k in 0..core.len() {
        best = better(v, core, job, ready, rank, best, k);
    }
    best
}
