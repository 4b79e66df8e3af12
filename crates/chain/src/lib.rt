// The chain of causes, over the table of a run: why a record began, and whose end it waited for.
#![tactic(auto)]

mod cause;
mod write;

pub use write::write_chain;
