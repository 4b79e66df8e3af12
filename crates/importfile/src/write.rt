// The file of an import, written: the setting and the tasks of a file, and the records of the lines in rising order.
ghost use Rattle.std.specs.Prelude.{◌≡◌, ◌*◌, ◌≤◌, length};
ghost use Rattle.exchange.specs.Import.{imported};
ghost use Rattle.model.specs.Calls.{front};
ghost use Rattle.model.specs.File.{bytes};
ghost use Rattle.model.specs.Model.{most_records};
ghost use Rattle.openfile.specs.Head.{run_in};
ghost use Rattle.table.specs.Table.{columns};
ghost use Rattle.importfile.specs.Importable.{Importable};

use crate::rows::{lay_out, order_rows};
use model::Record;
use openfile::OpenFile;
use table::{COLUMNS, FEW, FEW_NUMBERS, MOST, MOST_NUMBERS};
use tasklist::tasks_of;
use writing::write_run;

// With columns for M records, and a table of N numbers.
fn write_with<const M: usize, const N: usize>(o: OpenFile, rows: &[Record], output: &mut [u8])
    requires { (length rows.now ≤ M) × (M ≤ most_records) × (columns * length rows.now ≤ N) × (N ≤ columns * most_records)
        × Importable o.file.now o.head rows.now (length output.old) (run_in o.file.now) }
    ensures { output.new ≡ front (bytes (imported (run_in o.entry.file.now) rows.now)) output.old }
{
    let n = rows.len();
    let mut keys = [0u64; M];
    let mut places = [0u32; M];
    let mut spare = [0u32; M];
    let mut numbers = [0u32; N];
    let order = &mut places[..n];
    let t = &mut numbers[..COLUMNS * n];
    order_rows(rows, &mut keys[..n], order, &mut spare[..n]);
    lay_out(rows, order, t);
    write_run(o.head, o.head.setting.horizon, tasks_of(o), t, n, output);
}

// A small import has small columns and a small table.
pub(crate) fn write_import(o: OpenFile, rows: &[Record], output: &mut [u8])
    requires { Importable o.file.now o.head rows.now (length output.old) (run_in o.file.now) }
    ensures { output.new ≡ front (bytes (imported (run_in o.entry.file.now) rows.now)) output.old }
{
    if rows.len() <= FEW {
        write_with::<FEW, FEW_NUMBERS>(o, rows, output);
    } else {
        write_with::<MOST, MOST_NUMBERS>(o, rows, output);
    }
}
