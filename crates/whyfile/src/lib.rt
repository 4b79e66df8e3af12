// Why a record of a run file began when it did.
#![tactic(auto)]

mod file;

pub use file::why_file;
