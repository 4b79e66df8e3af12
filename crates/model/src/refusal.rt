// Why a file, a table or what is asked of them is refused. The paper's number for each case is `refusal_numbers` of specs/Answers.antt.
ghost use Rattle.std.specs.Prelude.{◌≡◌};
ghost use Rattle.model.specs.Answers.{refusal_numbers};

#[derive(Clone, Copy)]
pub enum Refusal {
    // the file ends inside a section
    CutShort,
    // the setting's count
    SettingCount,
    // a number of the setting is out of its range
    SettingRange,
    // the tasks' count
    TaskCount,
    // the least task with a number out of its range
    TaskRange(u32),
    TooManyJobs,
    // the records' count
    RecordCount,
    // bytes follow the last record
    Followed,
    // the horizon that is asked for
    Horizon,
    // the run breaks a rule
    NotAccepted,
    // the output is too short
    NoRoom,
    // the line that is none of a record
    BadLine(u32),
    // the line whose job was given before
    GivenAgain(u32),
    // the records do not rise
    NotRising,
    // there is no such record
    NoRecord,
}

impl Refusal {
    // Its number, and the task or the line that it names, else 0.
    pub fn numbers(self) -> (u32, u32)
        ensures { result ≡ refusal_numbers self }
    {
        match self {
            Refusal::CutShort => (1, 0),
            Refusal::SettingCount => (2, 0),
            Refusal::SettingRange => (3, 0),
            Refusal::TaskCount => (4, 0),
            Refusal::TaskRange(task) => (5, task),
            Refusal::TooManyJobs => (6, 0),
            Refusal::RecordCount => (7, 0),
            Refusal::Followed => (8, 0),
            Refusal::Horizon => (9, 0),
            Refusal::NotAccepted => (10, 0),
            Refusal::NoRoom => (11, 0),
            Refusal::BadLine(line) => (12, line),
            Refusal::GivenAgain(line) => (13, line),
            Refusal::NotRising => (14, 0),
            Refusal::NoRecord => (20, 0),
        }
    }
}
