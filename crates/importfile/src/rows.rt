// The records of lines: their order by task and job, and laid into a table in that order.
ghost use Rattle.std.specs.Prelude.{◌≡◌, [], ◌∷◌, ◌+◌, ◌*◌, ◌≤◌, length};
ghost use Rattle.base.specs.Fill.{Fills};
ghost use Rattle.exchange.specs.Import.{imported};
ghost use Rattle.exchange.specs.TextTable.{Taken};
ghost use Rattle.model.specs.Model.{Run};
ghost use Rattle.table.specs.Table.{Sized, Lent, recorded};
ghost use Rattle.importfile.specs.Importable.{key_in, ColumnsOf, NumbersOf, in_order};

use model::Record;
use sorting::sort_by;
use table::put_row;

// A task and a job as one number, by which jobs go in their order.
fn key_of(task: u32, job: u32) -> u64
    ensures { result ≡ task * 4294967296 + job }
{
    u64::from(task) * 4294967296 + u64::from(job)
}

// The key of each record.
fn fill_keys(rows: &[Record], keys: &mut [u64])
    requires { length rows.now ≤ length keys.old }
    ensures { Fills keys.old 0 (length rows.now) (key_in rows.now) keys.new }
{
    for (k, x) in rows.iter().enumerate() {
        keys[k] = key_of(x.task, x.job);
    }
}

// The order of records by task and job.
pub(crate) fn order_rows(rows: &[Record], keys: &mut [u64], order: &mut [u32], spare: &mut [u32])
    requires { Taken rows.now × ColumnsOf rows.now order.old (spare.old ∷ keys.old ∷ []) }
    ensures { NumbersOf rows.now order.new × ((ρ : Run) → (imported ρ rows.now).records ≡ in_order rows.now order.new) }
{
    fill_keys(rows, keys);
    sort_by(keys, order, spare);
}

// Record order[k] into row k of a table, for each k.
pub(crate) fn lay_out(rows: &[Record], order: &[u32], t: &mut [u32])
    requires { Sized t.old (length order.now) × NumbersOf rows.now order.now }
    ensures { (σ : Run) → σ.records ≡ in_order rows.now order.now → Lent 0 σ t.old (length order.now) → Lent recorded σ t.new (length order.now) }
{
    let n = order.len();
    for (k, i) in order.iter().enumerate() {
        let x = rows[*i as usize];
        put_row(
            t,
            n,
            k,
            0,
            &[x.task, x.job, x.release, x.start, x.end, x.core],
        );
    }
}
