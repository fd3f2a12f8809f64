// Why a call comes back.
ghost use Rattle.std.specs.Prelude.{◌≡◌, Some};
ghost use Rattle.backing.specs.Replies.{told, number_of, written};

use std::error::Error;
use std::fmt;

#[derive(Clone, Copy, Debug, PartialEq, Eq)]
pub enum Refusal {
    /// A limiter's limit is below the number of granules that are committed.
    LimitBelowCount,
    /// A backing cannot have so many granules, or not in so little memory.
    BadMaking,
    /// A stretch is empty, or ends past the last granule.
    OutsideBacking,
    /// A commit would add `wanted` granules where only `left` more may be committed.
    OverAllowance { wanted: u32, left: u32 },
}

impl Refusal {
    /// The number that it has in documents and in print.
    // No `From`: `u32::from` would not tell which number it gives.
    pub fn number(&self) -> u32
        ensures { result ≡ number_of (told self.now) }
    {
        match self {
            Refusal::LimitBelowCount => 5,
            Refusal::BadMaking => 6,
            Refusal::OutsideBacking => 20,
            Refusal::OverAllowance { wanted: _, left: _ } => 21,
        }
    }
}

// "no", the number, and what the refusal carries.
impl fmt::Display for Refusal {
    ghost output = { λ e. Some (written (told e)) };

    fn fmt<W: fmt::Write>(&self, f: &mut fmt::Formatter<W>) -> fmt::Result {
        let number = self.number();
        match self {
            Refusal::OverAllowance { wanted, left } => write!(f, "no {number} {wanted} {left}"),
            _ => write!(f, "no {number}"),
        }
    }
}

impl Error for Refusal {}

/// A making that was refused, with what it was given.
#[derive(Debug, PartialEq, Eq, Drop)]
pub struct Refused<T> {
    pub why: Refusal,
    pub back: T,
}

impl<T> fmt::Display for Refused<T> {
    ghost output = { λ e. Some (written (told e.why)) };

    fn fmt<W: fmt::Write>(&self, f: &mut fmt::Formatter<W>) -> fmt::Result {
        self.why.fmt(f)
    }
}

impl<T: fmt::Debug + Drop> Error for Refused<T> {}

// For `?`, where what was given need not come back.
impl<T: Drop> From<Refused<T>> for Refusal {
    ghost from_gives = { λ r e. e ≡ r.why };

    fn from(refused: Refused<T>) -> Refusal {
        refused.why
    }
}
