// The shape of a question or an answer: the kinds of its parts, in order. And why a question is no good.
ghost use Rattle.std.specs.Prelude.{◌≡◌, ◌^◌, ◌<◌, ◌≤◌, ◌/◌, MatchOption};

// Why a question is no good.
#[derive(Clone, Copy, Debug, PartialEq, Eq)]
pub enum Fault {
    Empty,
    Arguments,
    Name,
    Long,
    Number,
}

// What a part is.
#[derive(Clone, Copy, Debug, PartialEq, Eq)]
pub enum Kind {
    Number,
    List,
}

// The kinds as binary digits behind a 1: 1 is a list, 0 a number. It has 62 at most.
#[derive(Clone, Copy, Debug, PartialEq, Eq)]
pub struct Shape {
    pub digits: u64,
}

impl Shape {
    // The shape of no part.
    pub fn new() -> Shape
        ensures { result.digits ≡ 1 }
    {
        Shape { digits: 1 }
    }

    // The shape with one more part; none where that is too many.
    pub fn with(self, kind: Kind) -> Option<Shape>
        ensures { MatchOption result (2 ^ 62 ≤ self.digits) (λ s. (s.digits < 2 ^ 63) × (s.digits / 2 ≡ self.digits)) }
    {
        if 0x3fff_ffff_ffff_ffff < self.digits {
            return None;
        }
        Some(Shape {
            digits: self.digits * 2 + u64::from(kind == Kind::List),
        })
    }

    // How many parts it has.
    pub fn parts(self) -> u32 {
        self.digits.checked_ilog2().unwrap_or(0)
    }

    // The kind of the part that so many follow.
    pub fn kind_before(self, parts: u32) -> Kind {
        match self.digits.checked_shr(parts) {
            Some(digits) if digits % 2 == 1 => Kind::List,
            _ => Kind::Number,
        }
    }
}
