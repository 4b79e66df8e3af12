// The rules 2 to 9 of a run that is lent as a table: each asks for its columns.
ghost use Rattle.std.specs.Prelude.{◌≡◌};
ghost use Rattle.std.specs.Option.{option_map};
ghost use Rattle.model.specs.Compute.Places.{find, one, two, three};
ghost use Rattle.model.specs.Model.{Run};
ghost use Rattle.model.specs.Rules.{Start, rule2, rule3, rule4, rule5, rule6, rule7, rule8, rule9};
ghost use Rattle.table.specs.Table.{Lent, columns};
ghost use Rattle.times.specs.Times.{up_to};

use idle::idle_place;
use pairs::{order_place, overlap_place};
use rules::{core_place, length_place, release_place, start_place};
use table::{CORE, EARLIEST, END, GREATEST, LATEST, LEAST, RANK, READY, RELEASE, START, column};
use times::Stage;

// Rule 2. Release.
pub(crate) fn released(t: &[u32], n: usize) -> Option<u32>
    requires { (ρ : Run) × Lent (up_to Stage.Release) ρ t.now n }
    ensures { (ρ : Run) → Lent (up_to Stage.Release) ρ t.now n → option_map one result ≡ find rule2 ρ }
{
    release_place(
        column(t, n, EARLIEST),
        column(t, n, RELEASE),
        column(t, n, LATEST),
    )
}

// Rule 3. Start.
pub(crate) fn started(t: &[u32], n: usize) -> Option<u32>
    requires { (ρ : Run) × Lent (up_to Stage.Release) ρ t.now n }
    ensures { (ρ : Run) → Lent (up_to Stage.Release) ρ t.now n → option_map one result ≡ find rule3 ρ }
{
    start_place(column(t, n, RELEASE), column(t, n, START))
}

// Rule 4. Length.
pub(crate) fn lasted(t: &[u32], n: usize) -> Option<u32>
    requires { (ρ : Run) × Lent (up_to Stage.Length) ρ t.now n }
    ensures { (ρ : Run) → Lent (up_to Stage.Length) ρ t.now n → option_map one result ≡ find rule4 ρ }
{
    length_place(
        column(t, n, START),
        column(t, n, END),
        column(t, n, LEAST),
        column(t, n, GREATEST),
    )
}

// Rule 5. Core.
pub(crate) fn on_core(t: &[u32], n: usize, cores: u32) -> Option<u32>
    requires { (ρ : Run) × Lent (up_to Stage.Length) ρ t.now n × (cores ≡ ρ.setting.cores) }
    ensures { (ρ : Run) → Lent (up_to Stage.Length) ρ t.now n → (cores ≡ ρ.setting.cores) → option_map one result ≡ find rule5 ρ }
{
    core_place(cores, column(t, n, CORE))
}

// Rule 6. No overlap.
pub(crate) fn overlapping(t: &[u32], n: usize) -> Option<(u32, u32)>
    requires { (ρ : Run) × Lent (up_to Stage.Length) ρ t.now n }
    ensures { (ρ : Run) → Lent (up_to Stage.Length) ρ t.now n → option_map two result ≡ find rule6 ρ }
{
    overlap_place(column(t, n, START), column(t, n, END), column(t, n, CORE))
}

// Rule 7. Order.
pub(crate) fn out_of_order(t: &[u32], n: usize) -> Option<(u32, u32)>
    requires { (ρ : Run) × Lent columns ρ t.now n }
    ensures { (ρ : Run) → Lent columns ρ t.now n → option_map two result ≡ find rule7 ρ }
{
    order_place(column(t, n, RANK), column(t, n, READY), column(t, n, START))
}

// Rule 8. No idling.
pub(crate) fn idling(t: &[u32], n: usize, cores: u32) -> Option<(u32, (u32, u32))>
    requires { (ρ : Run) × Lent columns ρ t.now n × (cores ≡ ρ.setting.cores) }
    ensures { (ρ : Run) → Lent columns ρ t.now n → (cores ≡ ρ.setting.cores) → option_map three result ≡ find rule8 ρ }
{
    idle_place(
        cores,
        column(t, n, READY),
        column(t, n, START),
        column(t, n, END),
        column(t, n, CORE),
    )
}

// Rule 9. In turn. Where rule 3 holds, a job starts before the end of the one before exactly if it starts before it is ready.
pub(crate) fn out_of_turn(t: &[u32], n: usize) -> Option<u32>
    requires { (ρ : Run) × Lent columns ρ t.now n }
    ensures { (ρ : Run) → Lent columns ρ t.now n → Start ρ → option_map one result ≡ find rule9 ρ }
{
    start_place(column(t, n, READY), column(t, n, START))
}
