// N cores and a horizon H, with their limits.
ghost use Rattle.std.specs.Prelude.{◌≡◌};
ghost use Rattle.model.specs.Compute.Limits.{setting_in_range};

#[derive(Clone, Copy)]
pub struct Setting {
    pub cores: u32,
    pub horizon: u32,
}

impl Setting {
    pub const MOST_CORES: u32 = 16;

    pub const MOST_HORIZON: u32 = 1_000_000;

    // Whether both numbers are within their ranges.
    #[tactic(auto, unfolding(crate::specs::Compute::Limits::setting_in_range))]
    pub fn in_range(self) -> bool
        ensures { result ≡ setting_in_range self }
    {
        (1..=Setting::MOST_CORES).contains(&self.cores)
            && (1..=Setting::MOST_HORIZON).contains(&self.horizon)
    }
}
