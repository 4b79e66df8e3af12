// The records of a file as a table, each number read once; and rule 1, the recorded jobs against those that exist.
#![tactic(auto)]

mod jobs;
mod read;

pub use jobs::jobs_place;
pub use read::read_table;
