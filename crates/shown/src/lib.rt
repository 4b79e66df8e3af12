// A job, shown from its source: a part of the recorded file or of the carried file. Each file is judged once.
#![tactic(auto)]

ghost use Rattle.std.specs.Prelude.{◌≡◌, ◌<◌};
ghost use Rattle.model.specs.File.{read};
ghost use Rattle.model.specs.Carry.{least_of, began_before, shown as shownFrom};
ghost use Rattle.reader.specs.LentFile.{starts_of};
ghost use Rattle.shown.specs.Shown.{IsShown};

use reader::{Reader, least_record, open, record};
use runfile::{record_at, setting_of};

// The least record of a job in the file of a reader; a refused file has none.
fn least_in(r: Reader, task: u32, job: u32) -> Option<u32>
    requires { r.starts ≡ starts_of (read r.file.now) }
    ensures { result ≡ least_of (read r.entry.file.now) (task, job) }
{
    least_record(r.file, r.starts.records, r.starts.count, task, job)
}

// Whether record k of the file of a reader begins before the file's H.
fn began_before(r: Reader, k: u32) -> bool
    requires { (r.starts ≡ starts_of (read r.file.now)) × (k < r.starts.count) }
    ensures { result ≡ began_before (read r.entry.file.now) k }
{
    record_at(r.file, r.starts.records, k).start < setting_of(r.file).horizon
}

// The 24 bytes of a job's record as the part of the recorded or of the carried file that they are: of the recorded file when it began
// before H, of the carried file otherwise; the empty front part of the carried file if neither gives a record.
pub fn shown<'a>(recorded: &'a [u8], carried: &'a [u8], task: u32, job: u32) -> &'a [u8]
    ensures { IsShown result recorded.entry carried.entry (shownFrom recorded.now carried.now (task, job)) }
{
    let from = open(recorded);
    let to = open(carried);
    if let Some(k) = least_in(from, task, job)
        && began_before(from, k)
    {
        return record(from, k);
    }
    match least_in(to, task, job) {
        Some(k) => record(to, k),
        None => &carried[..0],
    }
}
