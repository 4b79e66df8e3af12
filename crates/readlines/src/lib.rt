// The lines of a text table, read once from its front: the records that they give, or the first line that is refused.
#![tactic(auto)]

mod line;
mod scan;

pub use scan::read_lines;
