// A run file as a text table: its refusals, and the lines by start and then by record place.
#![tactic(auto)]

mod by_start;
mod file;
mod lines;
mod rising;

pub use file::export_file;
