// The tier of a choice: which of its rules decided; with 01's number. Nothing is refused.
ghost use Rattle.std.specs.Prelude.{◌≡◌};
ghost use Rattle.kinds.specs.Numbers.{tier_number};

// No option of a tier: that nothing was chosen is one of governor.rs's four, with a number of its own.
#[derive(Debug, Clone, Copy, PartialEq, Eq, Default)]
pub enum SelectionTier {
    #[default]
    None,
    L0,
    FocusContinued,
    FocusReselected,
}

// 01's number of the tier.
impl From<SelectionTier> for u64 {
    ghost from_gives = { λ t n. n ≡ tier_number t };

    fn from(tier: SelectionTier) -> u64 {
        match tier {
            SelectionTier::None => 0,
            SelectionTier::L0 => 1,
            SelectionTier::FocusContinued => 2,
            SelectionTier::FocusReselected => 3,
        }
    }
}
