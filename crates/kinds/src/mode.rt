// The mode: whether the governor works as usual, spares reads, or clears what stalls writes. Nothing is refused.
ghost use Rattle.std.specs.Prelude.{◌≡◌};
ghost use Rattle.kinds.specs.Numbers.{mode_number};

#[derive(Debug, Clone, Copy, PartialEq, Eq, Default)]
pub enum GovernorMode {
    #[default]
    Balanced,
    ReadProtect,
    WriteEmergency,
}

impl GovernorMode {
    // 01's number of the mode; governor.rs's method.
    pub fn idx(self) -> u64
        ensures { result ≡ mode_number self }
    {
        match self {
            GovernorMode::Balanced => 0,
            GovernorMode::ReadProtect => 1,
            GovernorMode::WriteEmergency => 2,
        }
    }
}
