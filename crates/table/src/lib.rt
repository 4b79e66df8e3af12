// A run as one lent table: where its columns stand, one of them as a part of it, and a row put into it.
#![tactic(auto)]

ghost use Rattle.std.specs.Prelude.{◌≡◌, ◌+◌, ◌*◌, ◌≤◌, ◌<◌, length};
ghost use Rattle.model.specs.Model.{most_records};
ghost use Rattle.table.specs.Table.{columns, Sized, column_of, PutRow, LiesAt};

use model::Record;

// How many columns there are, and how many of them stand in a file.
pub const COLUMNS: usize = 13;

pub const RECORDED: usize = 6;

// How many records a small table is for, and how many a large one.
pub const FEW: usize = 32;

pub const MOST: usize = Record::MOST as usize;

// How many numbers such tables have.
pub const FEW_NUMBERS: usize = COLUMNS * FEW;

pub const MOST_NUMBERS: usize = COLUMNS * MOST;

// Which is which.
// Kept: a column's number is a place that is counted with, as in `j * n + k`, here and in the definitions; an enum would be cast at each use.
pub const TASK: usize = 0;

pub const JOB: usize = 1;

pub const RELEASE: usize = 2;

pub const START: usize = 3;

pub const END: usize = 4;

pub const CORE: usize = 5;

pub const EARLIEST: usize = 6;

pub const LATEST: usize = 7;

pub const LEAST: usize = 8;

pub const GREATEST: usize = 9;

pub const DUE: usize = 10;

pub const RANK: usize = 11;

pub const READY: usize = 12;

// Kept: a table goes as `t` and `n`. It is lent to be changed, and contracts speak of its numbers before and after (`Lent .. t.new n`); a struct around the reference would put a second layer between.
// Column j of a table for n records, as the part of the table that it is.
pub fn column<'a>(t: &'a [u32], n: usize, j: usize) -> &'a [u32]
    requires { Sized t.now n × (j < columns) }
    ensures { (result.now ≡ column_of n t.now j) × (length result.now ≡ n) × LiesAt result t.entry (j * n) }
{
    let from = j * n;
    &t[from..from + n]
}

// Numbers into row k, from column j on.
pub fn put_row(t: &mut [u32], n: usize, k: usize, j: usize, numbers: &[u32])
    requires { Sized t.old n × (k < n) × (j + length numbers.now ≤ columns) }
    ensures { PutRow n k j numbers.now t.old t.new }
{
    for (i, x) in numbers.iter().enumerate() {
        t[(j + i) * n + k] = *x;
    }
}
