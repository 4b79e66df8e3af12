// Reading a run file: numbers, entries, a number of each record.
#![tactic(auto)]

mod column;
mod entry;
mod number;

pub use column::read_column;
pub use entry::{
    LONGEST_FILE, RECORD_SIZE, TASK_SIZE, TASKS_PLACE, longest_file, record_at, records_place,
    setting_of, size_of, task_at,
};
pub use number::num_at;
