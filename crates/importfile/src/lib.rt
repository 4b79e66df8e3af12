// A text table into a run file: the refusals of file and table, and the file with the records in rising order of task and job.
#![tactic(auto)]

mod file;
mod rows;
mod write;

pub use file::import_file;
