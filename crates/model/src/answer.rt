// What is said of a file. The paper's numbers for each case are `five_of` of specs/Answers.antt.
ghost use Rattle.std.specs.Prelude.{◌≡◌};
ghost use Rattle.model.specs.Answers.{five_of, five_broken, five_refused, five_written};

use crate::broken::Broken;
use crate::refusal::Refusal;

#[derive(Clone, Copy)]
pub enum Answer {
    InTime,
    // the number of late records, and the least that begins before H
    LateBeforeH(u32, u32),
    // the number of late records, and the least
    LateFromH(u32, u32),
    // the rule, and the place
    RuleBroken(u32, u32, u32, u32),
    // the refusal's number, and the task for 5 or the line for 12 and 13
    Refused(u32, u32),
    // the bytes written
    Written(u32),
    // the numbers of a chain
    Chain(u32),
}

// Of a rule that is broken.
impl From<Broken> for Answer {
    ghost from_gives = { λ broken a. five_of a ≡ five_broken broken };

    fn from(broken: Broken) -> Answer {
        let [rule, x, y, z] = broken.numbers();
        Answer::RuleBroken(rule, x, y, z)
    }
}

// Of a refusal.
impl From<Refusal> for Answer {
    ghost from_gives = { λ refusal a. five_of a ≡ five_refused refusal };

    fn from(refusal: Refusal) -> Answer {
        let (number, named) = refusal.numbers();
        Answer::Refused(number, named)
    }
}

// Of a tool that writes: how many bytes it wrote, or why none.
impl From<Result<u32, Refusal>> for Answer {
    ghost from_gives = { λ outcome a. five_of a ≡ five_written outcome };

    fn from(outcome: Result<u32, Refusal>) -> Answer {
        match outcome {
            Ok(bytes) => Answer::Written(bytes),
            Err(refusal) => Answer::from(refusal),
        }
    }
}
