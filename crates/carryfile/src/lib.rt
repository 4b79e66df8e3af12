// Carrying a file to a longer horizon.
#![tactic(auto)]

mod file;

pub use file::carry_file;
