// Whether the records of a file rise strictly by task and job.
ghost use Rattle.std.specs.Prelude.{◌≡◌};
ghost use Rattle.exchange.specs.Import.{job_before};
ghost use Rattle.exportfile.specs.LinesOf.{rises_at};

use model::Record;
use openfile::OpenFile;
use runfile::record_at;

// Whether a record goes before another: by task, then by job.
fn goes_before(x: Record, y: Record) -> bool
    ensures { result ≡ job_before x y }
{
    (x.task, x.job) < (y.task, y.job)
}

// Whether each of the records of a file goes before the next.
pub(crate) fn records_rise(o: OpenFile) -> bool
    ensures { result ≡ rises_at o.entry.file.now o.entry.head.records_at o.entry.head.records }
{
    (0..o.head.records)
        .map(|k| record_at(o.file, o.head.records_at, k))
        .is_sorted_by(|x, y| goes_before(*x, *y))
}
