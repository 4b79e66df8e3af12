// The rules in order, and then the late records.
ghost use Rattle.std.specs.Prelude.{◌≡◌, ◌*◌, ◌≤◌};
ghost use Rattle.model.specs.Answers.{five_of};
ghost use Rattle.model.specs.Model.{Run, most_records};
ghost use Rattle.model.specs.Rules.{Start};
ghost use Rattle.openfile.specs.Head.{Leads, run_in};
ghost use Rattle.table.specs.Table.{Sized, Lent, columns};
ghost use Rattle.times.specs.Times.{up_to, Listed};
ghost use Rattle.verdict.specs.Judging.{Judges};
ghost use Rattle.verdict.specs.RulesFrom.{verdict_from};

use crate::asked::{
    idling, lasted, on_core, out_of_order, out_of_turn, overlapping, released, started,
};
use crate::late::timely;
use loadrun::{jobs_place, read_table};
use model::{Answer, Broken, Setting, TASKS, Task};
use openfile::OpenFile;
use table::{COLUMNS, DUE, END, FEW, FEW_NUMBERS, MOST_NUMBERS, START, column};
use times::{Stage, fill_times};

// From rule 7 on where rule 3 holds, and then the late records.
fn judge_order(setting: Setting, t: &[u32], n: usize) -> Answer
    requires { (ρ : Run) × Lent columns ρ t.now n × (setting ≡ ρ.setting) }
    ensures { (ρ : Run) → Lent columns ρ t.now n → setting ≡ ρ.setting → Start ρ → five_of result ≡ verdict_from 7 ρ }
{
    if let Some((a, b)) = out_of_order(t, n) {
        return Answer::from(Broken::Order(a, b));
    }
    if let Some((a, (at, c))) = idling(t, n, setting.cores) {
        return Answer::from(Broken::Idling(a, at, c));
    }
    if let Some(k) = out_of_turn(t, n) {
        return Answer::from(Broken::Turn(k));
    }
    timely(
        setting.horizon,
        column(t, n, DUE),
        column(t, n, START),
        column(t, n, END),
    )
}

// From rule 4 on where rule 3 holds: how long a record may last is filled in first, and what its order goes by once 4 to 6 hold.
fn judge_lengths(setting: Setting, tasks: [Task; TASKS], t: &mut [u32], n: usize) -> Answer
    requires { (ρ : Run) × Listed ρ tasks (up_to Stage.Release) t.old n × (setting ≡ ρ.setting) }
    ensures { (ρ : Run) → Listed ρ tasks (up_to Stage.Release) t.old n → setting ≡ ρ.setting → Start ρ → five_of result ≡ verdict_from 4 ρ }
{
    fill_times(Stage::Length, tasks, t, n);
    let wrong_length = lasted(t, n);
    let no_core = on_core(t, n, setting.cores);
    if let Some(k) = wrong_length {
        return Answer::from(Broken::Length(k));
    }
    if let Some(k) = no_core {
        return Answer::from(Broken::Core(k));
    }
    if let Some((a, b)) = overlapping(t, n) {
        return Answer::from(Broken::Overlap(a, b));
    }
    fill_times(Stage::Order, tasks, t, n);
    judge_order(setting, t, n)
}

// All rules, with a table for the records of the file.
fn judge_table(o: OpenFile, tasks: [Task; TASKS], t: &mut [u32]) -> Answer
    requires { Sized t.old o.head.records × Leads (run_in o.file.now) tasks }
    ensures { Judges o.entry.file.now result }
{
    let n = o.head.records as usize;
    read_table(o, t);
    if let Some(k) = jobs_place(o.head, tasks, t) {
        return Answer::from(Broken::Jobs(k));
    }
    fill_times(Stage::Release, tasks, t, n);
    if let Some(k) = released(t, n) {
        return Answer::from(Broken::Release(k));
    }
    if let Some(k) = started(t, n) {
        return Answer::from(Broken::Start(k));
    }
    judge_lengths(o.head.setting, tasks, t, n)
}

// The same, with a table of N numbers.
fn judge_within<const N: usize>(o: OpenFile, tasks: [Task; TASKS]) -> Answer
    requires { (columns * o.head.records ≤ N) × (N ≤ columns * most_records) × Leads (run_in o.file.now) tasks }
    ensures { Judges o.entry.file.now result }
{
    let mut table = [0u32; N];
    judge_table(o, tasks, &mut table[..COLUMNS * o.head.records as usize])
}

// All rules in order: the lowest broken one, or what is late. A small file has a small table.
pub fn judge_run(o: OpenFile, tasks: [Task; TASKS]) -> Answer
    requires { Leads (run_in o.file.now) tasks }
    ensures { Judges o.entry.file.now result }
{
    if o.head.records as usize <= FEW {
        judge_within::<FEW_NUMBERS>(o, tasks)
    } else {
        judge_within::<MOST_NUMBERS>(o, tasks)
    }
}
