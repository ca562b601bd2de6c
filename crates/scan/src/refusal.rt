// Why something is refused.
ghost use Rattle.std.specs.Prelude.{◌≡◌};
ghost use Rattle.scan.specs.Refusals.{number_of, place_of};

use std::fmt;

// 01's refusals from 1 to 13, each with its place; of the first two it is always 0, of the last two the length
// that the output needs.
#[derive(Clone, Copy, Debug, PartialEq, Eq)]
pub enum Refusal {
    Long,
    Narrow,
    Short(usize),
    Wrong(usize),
    Deep(usize),
    Digits(usize),
    Power(usize),
    Repeated(usize),
    High(usize),
    Malformed(usize),
    Lost(usize),
    NarrowOutput(usize),
    LongOutput(usize),
}

impl Refusal {
    // 01's number of it.
    pub fn number(self) -> u32
        ensures { result ≡ number_of self }
    {
        match self {
            Refusal::Long => 1,
            Refusal::Narrow => 2,
            Refusal::Short(_) => 3,
            Refusal::Wrong(_) => 4,
            Refusal::Deep(_) => 5,
            Refusal::Digits(_) => 6,
            Refusal::Power(_) => 7,
            Refusal::Repeated(_) => 8,
            Refusal::High(_) => 9,
            Refusal::Malformed(_) => 10,
            Refusal::Lost(_) => 11,
            Refusal::NarrowOutput(_) => 12,
            Refusal::LongOutput(_) => 13,
        }
    }

    pub fn place(self) -> usize
        ensures { result ≡ place_of self }
    {
        match self {
            Refusal::Long | Refusal::Narrow => 0,
            Refusal::Short(p)
            | Refusal::Wrong(p)
            | Refusal::Deep(p)
            | Refusal::Digits(p)
            | Refusal::Power(p)
            | Refusal::Repeated(p)
            | Refusal::High(p)
            | Refusal::Malformed(p)
            | Refusal::Lost(p)
            | Refusal::NarrowOutput(p)
            | Refusal::LongOutput(p) => p,
        }
    }
}

impl fmt::Display for Refusal {
    fn fmt<W: fmt::Write>(&self, f: &mut fmt::Formatter<W>) -> fmt::Result {
        write!(f, "{} at {}", self.number(), self.place())
    }
}
