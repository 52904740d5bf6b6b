// The three pressures, and which of them is dominant, with 01's number. Nothing is refused.
ghost use Rattle.std.specs.Prelude.{◌≡◌};
ghost use Rattle.kinds.specs.Vector.{dominant_of};
ghost use Rattle.kinds.specs.Numbers.{dominant_number};

#[derive(Debug, Clone, Copy, Default, PartialEq)]
pub struct PressureVector {
    pub l0: f64,
    pub deep_debt: f64,
    pub read: f64,
}

// No option of a source: that none is dominant is one of governor.rs's four, with a number of its own.
#[derive(Debug, Clone, Copy, PartialEq, Eq, Default)]
pub enum PressureSource {
    #[default]
    None,
    L0,
    DeepDebt,
    Read,
}

// 01's number of the source.
impl From<PressureSource> for u64 {
    ghost from_gives = { λ s n. n ≡ dominant_number s };

    fn from(source: PressureSource) -> u64 {
        match source {
            PressureSource::None => 0,
            PressureSource::L0 => 1,
            PressureSource::DeepDebt => 2,
            PressureSource::Read => 3,
        }
    }
}

impl PressureVector {
    #[tactic(auto, unfolding(crate::specs::Vector::dominant_of))]
    pub fn dominant(self) -> PressureSource
        ensures { result ≡ dominant_of self }
    {
        let peak = arith::floats::maximum(
            arith::floats::maximum(self.l0, self.deep_debt),
            self.read,
        );
        if peak <= 0.05 {
            return PressureSource::None;
        }
        if self.l0 >= peak {
            return PressureSource::L0;
        }
        if self.deep_debt >= peak {
            return PressureSource::DeepDebt;
        }
        PressureSource::Read
    }
}
