// The types of a run. What they mean stands in specs/, a file for each section of the paper.
#![tactic(auto)]

mod answer;
mod broken;
mod record;
mod refusal;
mod setting;
mod task;
mod tasks;

pub use answer::Answer;
pub use broken::Broken;
pub use record::Record;
pub use refusal::Refusal;
pub use setting::Setting;
pub use task::Task;
pub use tasks::TASKS;
