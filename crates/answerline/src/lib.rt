// The report's line for the bytes that were read, and how many are.
#![tactic(auto)]

ghost use Rattle.std.specs.Prelude.{◌≡◌, ◌≤◌, length};
ghost use Rattle.model.specs.Report.{most_read, report};
ghost use Rattle.text.specs.Lined.{lined};

use checkfile::check_file;
use text::{Line, line_of};

pub const MOST_READ: usize = 16_384;

// How many bytes of standard input are read at most.
pub fn most_read() -> usize
    ensures { result ≡ most_read }
{
    MOST_READ
}

// The line.
pub fn report_line(input: &[u8]) -> Line
    ensures { (result ≡ lined (report input.now)) × (result.size ≤ length result.text) }
{
    let told = check_file(input);
    line_of(told)
}
