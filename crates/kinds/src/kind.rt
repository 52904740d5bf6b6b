// The kinds of a candidate, and so of what a choice chose, with 01's numbers. Nothing is refused.
ghost use Rattle.std.specs.Prelude.{◌≡◌, Some};
ghost use Rattle.kinds.specs.Numbers.{kind_number, kind_level, kind_length};

// governor.rs has it twice, since its crate shows one of the two and hides the other.
#[derive(Debug, Clone, Copy, PartialEq, Eq)]
pub enum CandidateKind {
    L0,
    LevelBatch { level: u32, batch_len: u64 },
    TrivialMove { level: u32 },
}

// 01's number of the kind.
impl From<CandidateKind> for u64 {
    ghost from_gives = { λ k n. n ≡ kind_number (Some k) };

    fn from(kind: CandidateKind) -> u64 {
        match kind {
            CandidateKind::L0 => 1,
            CandidateKind::LevelBatch { .. } => 2,
            CandidateKind::TrivialMove { .. } => 3,
        }
    }
}

// Its level and its batch length; a level or length that the kind lacks is 0.
impl CandidateKind {
    pub fn level(self) -> u64
        ensures { result ≡ kind_level (Some self) }
    {
        match self {
            CandidateKind::L0 => 0,
            CandidateKind::LevelBatch { level, .. } | CandidateKind::TrivialMove { level } => {
                u64::from(level)
            }
        }
    }

    pub fn batch_len(self) -> u64
        ensures { result ≡ kind_length (Some self) }
    {
        match self {
            CandidateKind::LevelBatch { batch_len, .. } => batch_len,
            CandidateKind::L0 | CandidateKind::TrivialMove { .. } => 0,
        }
    }
}
