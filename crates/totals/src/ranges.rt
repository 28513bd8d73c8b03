// Total ranges: a minimum that is exact or too large, a maximum that is bounded, too large or unbounded. What is done with them, in the order of
// the W3C text (3.8.6): all and sequence, then choice; of each the minimum, then the maximum. Last, when one is within a pair.
ghost use Rattle.std.specs.Prelude.{◌≡◌, ◌*◌};
ghost use Rattle.particle.specs.Occurs.{exactly};
ghost use Rattle.totals.specs.Total.{cut_min, cut_bounded, cut_max, cut, total_ok};
ghost use Rattle.totals.specs.Cut.{add_cut_min, mul_cut_min, add_cut_max, mul_cut_max, add_cut, mul_cut, span_cut};

use particle::{MaxOccurs, Occurs};
use std::ops::{Add, Mul};

// The least number of a total range. One that is too large is above every exact one, and is a number: so no `Option`.
#[derive(Clone, Copy, PartialEq, Eq, PartialOrd, Ord)]
pub enum TotalMin {
    Exact(u32),
    TooLarge,
}

// The greatest number of a total range. One that is too large is above every bounded one, and only unbounded is above it.
#[derive(Clone, Copy, PartialEq, Eq, PartialOrd, Ord)]
pub enum TotalMax {
    Bounded(u32),
    TooLarge,
    Unbounded,
}

// A total range.
#[derive(Clone, Copy)]
pub struct TotalRange {
    pub min: TotalMin,
    pub max: TotalMax,
}

// n as a minimum: what 32 bits do not hold is too large.
impl From<u64> for TotalMin {
    ghost from_gives = { λ n m. m ≡ cut_min n };

    fn from(n: u64) -> TotalMin {
        match u32::try_from(n) {
            Ok(exact) => TotalMin::Exact(exact),
            Err(_) => TotalMin::TooLarge,
        }
    }
}

// n as a maximum, in the same way; of another type, so an impl of its own.
impl From<u64> for TotalMax {
    ghost from_gives = { λ n m. m ≡ cut_bounded n };

    fn from(n: u64) -> TotalMax {
        match u32::try_from(n) {
            Ok(bound) => TotalMax::Bounded(bound),
            Err(_) => TotalMax::TooLarge,
        }
    }
}

impl From<MaxOccurs> for TotalMax {
    ghost from_gives = { λ o m. m ≡ cut_max o };

    fn from(max: MaxOccurs) -> TotalMax {
        match max {
            MaxOccurs::Bounded(n) => TotalMax::Bounded(n),
            MaxOccurs::Unbounded => TotalMax::Unbounded,
        }
    }
}

// A record's pair as a total range.
impl From<Occurs> for TotalRange {
    ghost from_gives = { λ p t. t ≡ cut p };

    fn from(p: Occurs) -> TotalRange {
        TotalRange {
            min: TotalMin::Exact(p.min),
            max: TotalMax::from(p.max),
        }
    }
}

// The total range of no items, for all, sequence and choice alike.
pub fn zero() -> TotalRange
    ensures { result ≡ cut (exactly 0) }
{
    TotalRange {
        min: TotalMin::Exact(0),
        max: TotalMax::Bounded(0),
    }
}

// All and sequence, the minimum: the sum of two minima. One match in the other: over the pair, the sum of a wide group takes a fifth longer.
impl Add for TotalMin {
    type Output = TotalMin;

    ghost add_gives = { λ a b c. c ≡ add_cut_min a b };

    fn add(self, other: TotalMin) -> TotalMin {
        match self {
            TotalMin::TooLarge => TotalMin::TooLarge,
            TotalMin::Exact(m) => match other {
                TotalMin::TooLarge => TotalMin::TooLarge,
                TotalMin::Exact(n) => TotalMin::from(u64::from(m) + u64::from(n)),
            },
        }
    }
}

// The whole product: 64 bits hold it. A function, for both products.
fn product(a: u32, b: u32) -> u64
    ensures { result ≡ a * b }
{
    u64::from(a) * u64::from(b)
}

// The product of two numbers of 32 bits as a minimum.
pub fn product_min(a: u32, b: u32) -> TotalMin
    ensures { result ≡ cut_min (a * b) }
{
    TotalMin::from(product(a, b))
}

// The group's own minimum times what its items give: zero times too large is 0.
impl Mul<TotalMin> for u32 {
    type Output = TotalMin;

    ghost mul_gives = { λ a b c. c ≡ mul_cut_min a b };

    fn mul(self, b: TotalMin) -> TotalMin {
        match b {
            TotalMin::Exact(n) => product_min(self, n),
            TotalMin::TooLarge if self == 0 => TotalMin::Exact(0),
            TotalMin::TooLarge => TotalMin::TooLarge,
        }
    }
}

// All and sequence, the maximum: the sum of two maxima, unbounded if one of them is, with one match in the other for the same reason.
impl Add for TotalMax {
    type Output = TotalMax;

    ghost add_gives = { λ a b c. c ≡ add_cut_max a b };

    fn add(self, other: TotalMax) -> TotalMax {
        match self {
            TotalMax::Unbounded => TotalMax::Unbounded,
            TotalMax::TooLarge => other.max(TotalMax::TooLarge),
            TotalMax::Bounded(m) => match other {
                TotalMax::Unbounded => TotalMax::Unbounded,
                TotalMax::TooLarge => TotalMax::TooLarge,
                TotalMax::Bounded(n) => TotalMax::from(u64::from(m) + u64::from(n)),
            },
        }
    }
}

// The product of two numbers of 32 bits as a maximum.
pub fn product_max(a: u32, b: u32) -> TotalMax
    ensures { result ≡ cut_bounded (a * b) }
{
    TotalMax::from(product(a, b))
}

// The group's own maximum times what its items give: zero times too large or unbounded is 0.
impl Mul<TotalMax> for MaxOccurs {
    type Output = TotalMax;

    ghost mul_gives = { λ a b c. c ≡ mul_cut_max a b };

    fn mul(self, b: TotalMax) -> TotalMax {
        match (self, b) {
            (MaxOccurs::Bounded(m), TotalMax::Bounded(n)) => product_max(m, n),
            (MaxOccurs::Bounded(0), _) | (_, TotalMax::Bounded(0)) => TotalMax::Bounded(0),
            (MaxOccurs::Bounded(_), TotalMax::TooLarge) => TotalMax::TooLarge,
            _ => TotalMax::Unbounded,
        }
    }
}

// All and sequence: two items together, the minimum and then the maximum.
impl Add for TotalRange {
    type Output = TotalRange;

    ghost add_gives = { λ a b c. c ≡ add_cut a b };

    fn add(self, other: TotalRange) -> TotalRange {
        TotalRange {
            min: self.min + other.min,
            max: self.max + other.max,
        }
    }
}

// A group: its pair times what its items give, the minimum and then the maximum. A choice is multiplied in the same way.
impl Mul<TotalRange> for Occurs {
    type Output = TotalRange;

    ghost mul_gives = { λ a b c. c ≡ mul_cut a b };

    fn mul(self, b: TotalRange) -> TotalRange {
        TotalRange {
            min: self.min * b.min,
            max: self.max * b.max,
        }
    }
}

impl TotalRange {
    // Choice: two items together, the lesser minimum and then the greater maximum.
    pub fn span(self, other: TotalRange) -> TotalRange
        ensures { result ≡ span_cut self other }
    {
        TotalRange {
            min: self.min.min(other.min),
            max: self.max.max(other.max),
        }
    }
}

// Whether the total range t is within the pair b.
pub fn total_ok(t: TotalRange, b: Occurs) -> bool
    ensures { result ≡ total_ok t b }
{
    TotalMin::Exact(b.min) <= t.min && t.max <= TotalMax::from(b.max)
}
