// What a file tells besides its records, and where its sections stand.
use model::Setting;

#[derive(Clone, Copy)]
pub struct Head {
    pub setting: Setting,
    // how many tasks there are, and where the first begins
    pub tasks: u32,
    pub tasks_at: u32,
    // how many records there are, and where the first begins
    pub records: u32,
    pub records_at: u32,
}
