// Document 02, request 1: a run as a text table, in and out. Definitions and theorems, and the header line; the rest of the code stands in
// the crates above.
#![tactic(auto)]

ghost use Rattle.std.specs.Prelude.{◌≡◌};
ghost use Rattle.exchange.specs.RecordLine.{header};

pub const HEADER_SIZE: usize = 32;

pub const HEADER: [u8; HEADER_SIZE] = *b"task,job,release,start,end,core\n";

// The header line.
#[tactic(auto, unfolding(crate::specs::RecordLine::header))]
pub fn header_line() -> [u8; HEADER_SIZE]
    ensures { result ≡ header }
{
    HEADER
}
