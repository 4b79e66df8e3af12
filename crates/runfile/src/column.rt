// Numbers read once: one number of each record, into a part of a table.
ghost use Rattle.std.specs.Prelude.{◌+◌, ◌*◌};
ghost use Rattle.base.specs.Fill.{Fills};
ghost use Rattle.model.specs.File.{num, record_size};
ghost use Rattle.runfile.specs.HasColumn.{HasColumn};

use crate::entry::RECORD_SIZE;
use crate::number::word_at;

// The number that stands at a place, and those that stand n - 1 times one record later, into a slice from another place on.
pub fn read_column(file: &[u8], at: usize, n: usize, t: &mut [u32], from: usize)
    requires { HasColumn file.now at n t.old from }
    ensures { Fills t.old from n (λ k. num file.now (at + record_size * k)) t.new }
{
    for (k, x) in t[from..from + n].iter_mut().enumerate() {
        *x = word_at(file, at + RECORD_SIZE * k);
    }
}
