// The late records of an accepted run, by one pass.
ghost use Rattle.std.specs.Prelude.{◌≡◌, List, [], ◌∷◌, ℕ, ◌+◌, ◌≤◌, ◌<◌, length, get_or};
ghost use Rattle.base.specs.Columns.{Columns};
ghost use Rattle.model.specs.Answers.{five_of};
ghost use Rattle.model.specs.Model.{most_records};
ghost use Rattle.verdict.specs.Late.{LateOf, timely_in};

use model::Answer;

// How many are late, the first of them, and the first of them that begins before the horizon.
#[derive(Clone, Copy)]
pub struct Late {
    pub count: u32,
    pub first: Option<u32>,
    pub early: Option<u32>,
}

// The late ones of the first k records, and now of one more: late means that it ends after its deadline.
fn late_with(late: Late, horizon: u32, k: u32, due: u32, start: u32, end: u32) -> Late
    requires { (late.count ≤ k) × (k < most_records) }
    ensures { (ds ss es : List ℕ) → get_or ds k 0 ≡ due → get_or ss k 0 ≡ start → get_or es k 0 ≡ end
        → LateOf horizon ds ss es k late → LateOf horizon ds ss es (k + 1) result }
{
    if end <= due {
        return late;
    }
    let mut early = late.early;
    if start < horizon {
        early = early.or(Some(k));
    }
    Late {
        count: late.count + 1,
        first: late.first.or(Some(k)),
        early,
    }
}

fn late_records(horizon: u32, due: &[u32], start: &[u32], end: &[u32]) -> Late
    requires { Columns most_records end.now (due.now ∷ start.now ∷ []) }
    ensures { LateOf horizon due.now start.now end.now (length end.now) result }
{
    let mut late = Late {
        count: 0,
        first: None,
        early: None,
    };
    for k in 0..end.len() {
        late = late_with(late, horizon, k as u32, due[k], start[k], end[k]);
    }
    late
}

// Answer 0, 1 or 2.
pub(crate) fn timely(horizon: u32, due: &[u32], start: &[u32], end: &[u32]) -> Answer
    requires { Columns most_records end.now (due.now ∷ start.now ∷ []) }
    ensures { five_of result ≡ timely_in horizon due.now start.now end.now }
{
    let late = late_records(horizon, due, start, end);
    match (late.early, late.first) {
        (Some(k), _) => Answer::LateBeforeH(late.count, k),
        (None, Some(k)) => Answer::LateFromH(late.count, k),
        (None, None) => Answer::InTime,
    }
}
