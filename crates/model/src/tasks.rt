// A list with room for the tasks of any file.
use crate::task::Task;

pub const TASKS: usize = Task::MOST as usize;
