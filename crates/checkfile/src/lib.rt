// The five numbers of a file.
#![tactic(auto)]

mod file;

pub use file::check_file;
