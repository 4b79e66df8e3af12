// One job's task, job, release r, start s, end e and core.
#[derive(Clone, Copy)]
pub struct Record {
    pub task: u32,
    pub job: u32,
    pub release: u32,
    pub start: u32,
    pub end: u32,
    pub core: u32,
}

impl Record {
    // how many a file can have
    pub const MOST: u32 = 512;
}
