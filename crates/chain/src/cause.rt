// Whose end a record waited for.
ghost use Rattle.std.specs.Prelude.{◌≡◌, [], ◌∷◌, ◌<◌, length};
ghost use Rattle.base.specs.Columns.{Columns};
ghost use Rattle.base.specs.Find.{first};
ghost use Rattle.model.specs.Model.{Run, most_records};
ghost use Rattle.model.specs.Rules.{Jobs};
ghost use Rattle.table.specs.Table.{Sized, Lent, recorded};
ghost use Rattle.causes.specs.Cause.{AtRelease};
ghost use Rattle.causes.specs.FoundCause.{at_release, own_ended, cause_of};
ghost use Rattle.chain.specs.ChainTold.{ended_in};

use table::{CORE, END, JOB, RELEASE, START, column};

// Whether record k started at its release.
pub(crate) fn at_release(t: &[u32], n: usize, k: u32) -> bool
    requires { Sized t.now n × (k < n) }
    ensures { (ρ : Run) → Lent recorded ρ t.now n → result ≡ at_release ρ k }
{
    t[START * n + k as usize] == t[RELEASE * n + k as usize]
}

// Whether the preceding job of record k's task ended at its start, where rule 1 holds: that job is of the record before.
fn own_ended(t: &[u32], n: usize, k: usize) -> bool
    requires { Sized t.now n × (k < n) }
    ensures { (ρ : Run) → Jobs ρ → Lent recorded ρ t.now n → result ≡ own_ended ρ k }
{
    t[JOB * n + k] != 0 && t[END * n + k - 1] == t[START * n + k]
}

// The first record on a core that ended at an instant.
fn core_ended(end: &[u32], core: &[u32], c: u32, at: u32) -> Option<u32>
    requires { Columns most_records end.now (core.now ∷ []) }
    ensures { result ≡ first (ended_in end.now core.now c at) 0 (length end.now) }
{
    end.iter()
        .zip(core)
        .position(|(e, on)| *e == at && *on == c)
        .map(|j| j as u32)
}

// The cause of a record that did not start at its release.
pub(crate) fn cause(t: &[u32], n: usize, k: u32) -> Option<u32>
    requires { (k < n) × ((ρ : Run) × Jobs ρ × Lent recorded ρ t.now n) }
    ensures { (ρ : Run) → Jobs ρ → Lent recorded ρ t.now n → ¬ AtRelease ρ k → result ≡ cause_of ρ k }
{
    if own_ended(t, n, k as usize) {
        return Some(k - 1);
    }
    core_ended(
        column(t, n, END),
        column(t, n, CORE),
        t[CORE * n + k as usize],
        t[START * n + k as usize],
    )
}
