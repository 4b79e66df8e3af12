// What is said of the run of a file: the rules in order, and then its late records.
#![tactic(auto)]

mod accepts;
mod asked;
mod late;
mod run;

pub use accepts::accepts_run;
pub use run::judge_run;
