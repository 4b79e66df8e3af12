// The table of the records of a file, by start and then by place.
ghost use Rattle.std.specs.Prelude.{◌≡◌, [], ◌∷◌, ◌≤◌, length};
ghost use Rattle.base.specs.Columns.{Columns};
ghost use Rattle.base.specs.Fill.{Fills};
ghost use Rattle.model.specs.Calls.{front};
ghost use Rattle.model.specs.Model.{most_records};
ghost use Rattle.exchange.specs.RecordLine.{table_of};
ghost use Rattle.exportfile.specs.LinesOf.{records_at, start_of, start_order, table_by};

use crate::lines::write_lines;
use model::Record;
use openfile::OpenFile;
use runfile::record_at;
use sorting::sort_by;

// How many records a file can have.
const MOST: usize = Record::MOST as usize;

// When each of the records of a file starts, as many as there is room for.
fn fill_starts(o: OpenFile, keys: &mut [u64])
    requires { length keys.old ≤ most_records }
    ensures { Fills keys.old 0 (length keys.old) (start_of o.entry.file.now o.entry.head.records_at) keys.new }
{
    for (k, key) in keys.iter_mut().enumerate() {
        *key = u64::from(record_at(o.file, o.head.records_at, k as u32).start);
    }
}

// With columns for the records: when they start, and two for their order.
fn write_sorted(
    o: OpenFile,
    keys: &mut [u64],
    order: &mut [u32],
    spare: &mut [u32],
    output: &mut [u8],
)
    requires { Columns most_records keys.old (order.old ∷ spare.old ∷ [])
        × (length (table_of (records_at o.file.now o.head.records_at (length keys.old))) ≤ length output.old) }
    ensures { output.new
        ≡ front (table_by o.entry.file.now o.entry.head.records_at (start_order o.entry.file.now o.entry.head.records_at (length keys.old))) output.old }
{
    fill_starts(o, keys);
    sort_by(keys, order, spare);
    write_lines(o, order, output);
}

// Writes the table of the records of a file.
pub(crate) fn write_table(o: OpenFile, output: &mut [u8])
    requires { (o.head.records ≤ most_records) × (length (table_of (records_at o.file.now o.head.records_at o.head.records)) ≤ length output.old) }
    ensures { output.new
        ≡ front (table_by o.entry.file.now o.entry.head.records_at (start_order o.entry.file.now o.entry.head.records_at o.entry.head.records)) output.old }
{
    let m = o.head.records as usize;
    let mut keys = [0u64; MOST];
    let mut order = [0u32; MOST];
    let mut spare = [0u32; MOST];
    write_sorted(o, &mut keys[..m], &mut order[..m], &mut spare[..m], output);
}
