// Rules 2 to 5 and 9 over columns: the least record that does not do as a rule asks.
#![tactic(auto)]

ghost use Rattle.std.specs.Prelude.{◌≡◌, ℕ, Bool, not, [], ◌∷◌, ◌<◌, ◌≤◌, length};
ghost use Rattle.std.specs.Iterator.{ActsAs};
ghost use Rattle.base.specs.Columns.{Columns};
ghost use Rattle.base.specs.Find.{first};
ghost use Rattle.rules.specs.Asked.{release_in, start_in, length_in, core_in};

// The first of the places below n that passes a test.
fn first_place<F: Fn(usize) -> bool>(n: usize, passes: F) -> Option<u32>
    requires few { n ≤ 4294967295 }
    requires callable { (k : ℕ) → k < n → F.pre passes k }
    ensures { (p : ℕ → Bool) → ActsAs F.FnMut passes p → result ≡ first p 0 n }
{
    (0..n).position(passes).map(|k| k as u32)
}

// Rule 2. Release.
pub fn release_place(earliest: &[u32], release: &[u32], latest: &[u32]) -> Option<u32>
    requires { Columns 4294967295 earliest.now (release.now ∷ latest.now ∷ []) }
    ensures { result ≡ first (λ k. not (release_in earliest.now release.now latest.now k)) 0 (length earliest.now) }
{
    first_place(
        earliest.len(),
        |k| !(earliest[k]..=latest[k]).contains(&release[k]),
    )
}

// Rule 3. Start; of rule 9 with the instants at which the records are ready.
pub fn start_place(release: &[u32], start: &[u32]) -> Option<u32>
    requires { Columns 4294967295 release.now (start.now ∷ []) }
    ensures { result ≡ first (λ k. not (start_in release.now start.now k)) 0 (length release.now) }
{
    first_place(release.len(), |k| start[k] < release[k])
}

// Rule 4. Length.
pub fn length_place(start: &[u32], end: &[u32], least: &[u32], greatest: &[u32]) -> Option<u32>
    requires { Columns 4294967295 start.now (end.now ∷ least.now ∷ greatest.now ∷ []) }
    ensures { result ≡ first (λ k. not (length_in start.now end.now least.now greatest.now k)) 0 (length start.now) }
{
    first_place(
        start.len(),
        |k| end[k] < start[k] || !(least[k]..=greatest[k]).contains(&(end[k] - start[k])),
    )
}

// Rule 5. Core.
pub fn core_place(cores: u32, core: &[u32]) -> Option<u32>
    requires { Columns 4294967295 core.now [] }
    ensures { result ≡ first (λ k. not (core_in cores core.now k)) 0 (length core.now) }
{
    first_place(core.len(), |k| !(1..=cores).contains(&core[k]))
}
