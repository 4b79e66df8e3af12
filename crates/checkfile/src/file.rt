// The five numbers of a file.
ghost use Rattle.std.specs.Prelude.{◌≡◌};
ghost use Rattle.model.specs.Answers.{five_of};
ghost use Rattle.model.specs.Compute.Verdict.{check};

use model::Answer;
use openfile::opened;
use tasklist::tasks_of;
use verdict::judge_run;

// The answer of any file.
pub fn check_file(file: &[u8]) -> Answer
    ensures { five_of result ≡ check file.now }
{
    match opened(file) {
        Ok(o) => judge_run(o, tasks_of(o)),
        Err(refusal) => Answer::from(refusal),
    }
}
