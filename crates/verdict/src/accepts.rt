// Whether a run is accepted.
ghost use Rattle.std.specs.Prelude.{◌≡◌, leb};
ghost use Rattle.model.specs.Answers.{five_of};
ghost use Rattle.openfile.specs.Head.{Leads, run_in};
ghost use Rattle.verdict.specs.Judging.{Accepts};

use crate::run::judge_run;
use model::{Answer, TASKS, Task};
use openfile::OpenFile;

// Whether an answer accepts the run.
fn accepts(a: Answer) -> bool
    ensures { result ≡ leb (five_of a).answer 2 }
{
    matches!(
        a,
        Answer::InTime | Answer::LateBeforeH(..) | Answer::LateFromH(..)
    )
}

// Whether the run of a file is accepted: no rule is broken.
pub fn accepts_run(o: OpenFile, tasks: [Task; TASKS]) -> bool
    requires { Leads (run_in o.file.now) tasks }
    ensures { Accepts o.entry.file.now result }
{
    accepts(judge_run(o, tasks))
}
