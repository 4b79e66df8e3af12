// A file opened: it is judged once, from its front, and what it tells besides its records comes back by value.
#![tactic(auto)]

mod head;
mod judge;
mod opening;
mod tally;
mod told;

pub use head::Head;
pub use judge::open_file;
pub use opening::opened;
pub use tally::tally_tasks;
pub use told::OpenFile;
