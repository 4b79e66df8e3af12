// The records of a file, into the first columns of a table.
ghost use Rattle.loadrun.specs.Loading.{LoadsRecords};
ghost use Rattle.table.specs.Table.{Sized};

use openfile::OpenFile;
use runfile::read_column;
use table::RECORDED;

pub fn read_table(o: OpenFile, t: &mut [u32])
    requires { Sized t.old o.head.records }
    ensures { LoadsRecords o.entry.file.now o.entry.head.records t.old t.new }
{
    let at = o.head.records_at as usize;
    let n = o.head.records as usize;
    for j in 0..RECORDED {
        read_column(o.file, at + 4 * j, n, t, j * n);
    }
}
