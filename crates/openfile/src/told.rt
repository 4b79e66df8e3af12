// A file that tells a run.
ghost use Rattle.openfile.specs.Head.{Tells, run_in};

use crate::head::Head;

// Its bytes, and what they tell besides the records.
#[derive(Clone, Copy)]
pub struct OpenFile<'a> {
    pub file: &'a [u8],
    pub head: Head,
    pub ghost tells: { Tells file.now head (run_in file.now) },
}
