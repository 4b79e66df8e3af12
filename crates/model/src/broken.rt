// A rule that is broken, and its first place. The paper's numbers for each case are `broken_numbers` of specs/Answers.antt.
ghost use Rattle.std.specs.Prelude.{◌≡◌, [], ◌∷◌};
ghost use Rattle.model.specs.Answers.{numbers_at, broken_numbers};

#[derive(Clone, Copy)]
pub enum Broken {
    // the record at which the recorded jobs and those that exist differ
    Jobs(u32),
    // the record
    Release(u32),
    Start(u32),
    Length(u32),
    Core(u32),
    // the two records
    Overlap(u32, u32),
    Order(u32, u32),
    // the record that waits, the instant, and the core that idles
    Idling(u32, u32, u32),
    Turn(u32),
}

impl Broken {
    // The rule's number, and the three of the place.
    pub fn numbers(self) -> [u32; 4]
        ensures { result ≡ numbers_at (broken_numbers self) }
    {
        match self {
            Broken::Jobs(record) => [1, record, 0, 0],
            Broken::Release(record) => [2, record, 0, 0],
            Broken::Start(record) => [3, record, 0, 0],
            Broken::Length(record) => [4, record, 0, 0],
            Broken::Core(record) => [5, record, 0, 0],
            Broken::Overlap(a, b) => [6, a, b, 0],
            Broken::Order(a, b) => [7, a, b, 0],
            Broken::Idling(record, at, core) => [8, record, at, core],
            Broken::Turn(record) => [9, record, 0, 0],
        }
    }
}
