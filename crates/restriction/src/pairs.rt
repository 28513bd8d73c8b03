// Kind numbers and occurrence pairs, as the rules take them.
ghost use Rattle.std.specs.Prelude.{◌≡◌, ◌≤◌};
ghost use Rattle.particle.specs.Occurs.{exactly};
ghost use Rattle.particle.specs.Tree.{head_of, pair_of};
ghost use Rattle.particle.specs.Encode.{kind_number};
ghost use Rattle.totals.specs.Total.{cut_max};
ghost use Rattle.rules.specs.Rule.{times_count_max, times_count, base_once};
ghost use Rattle.verdicts.specs.Reasons.{reason_number, mark_of};
ghost use Rattle.restriction.specs.Views.{is_once, once_head, any_head};

use particle::{MaxOccurs, Occurs, Record};
use totals::{TotalMax, TotalRange};
use verdicts::{Reason, Verdict};

// A record's kind number: a number above 4 counts as an all-group's.
pub fn kind_of(r: Record) -> u8
    ensures { (result ≡ kind_number (head_of r)) × (result ≤ 4) }
{
    r.kind.min(particle::ALL)
}

pub fn exactly_one() -> Occurs
    ensures { result ≡ exactly 1 }
{
    Occurs {
        min: 1,
        max: MaxOccurs::Bounded(1),
    }
}

// Whether an element of pair p counts once: two tests, as the definition has them.
pub fn counts_once(p: Occurs) -> bool
    ensures { result ≡ is_once p }
{
    p.min == 1 && matches!(p.max, MaxOccurs::Bounded(1))
}

// A derived record's pair; once, an element's is (1,1). Its like for a base record has another kind and another pair: as one function the
// two would take both as parameters.
pub fn derived_range(r: Record, once: bool) -> Occurs
    ensures { result ≡ pair_of (once_head once (head_of r)) }
{
    if once && r.kind == particle::ELEMENT {
        return exactly_one();
    }
    particle::range(r)
}

// A base record's pair; with any, a wildcard's is (0, unbounded).
pub fn base_range(r: Record, any: bool) -> Occurs
    ensures { result ≡ pair_of (any_head any (head_of r)) }
{
    if any && r.kind == particle::WILDCARD {
        return Occurs {
            min: 0,
            max: MaxOccurs::Unbounded,
        };
    }
    particle::range(r)
}

// What the second reading of an element asks of the base group's own pair: a minimum of at most 1, and a maximum that is not 0.
pub fn base_once(q: Occurs, required: Reason) -> Verdict
    ensures { mark_of result ≡ base_once q (reason_number required) }
{
    if 1 < q.min {
        return Verdict::Violation(required);
    }
    match q.max {
        MaxOccurs::Unbounded => Verdict::Ok,
        MaxOccurs::Bounded(m) => {
            if m == 0 {
                return Verdict::Violation(Reason::BaseMayNotOccur);
            }
            Verdict::Ok
        }
    }
}

// A maximum times an item count; unbounded stays unbounded.
fn times_count_max(m: MaxOccurs, n: u32) -> TotalMax
    ensures { result ≡ cut_max (times_count_max m n) }
{
    match m {
        MaxOccurs::Unbounded => TotalMax::Unbounded,
        MaxOccurs::Bounded(k) => totals::product_max(k, n),
    }
}

// A pair times an item count.
pub fn times_count(p: Occurs, n: u32) -> TotalRange
    ensures { result ≡ times_count p n }
{
    TotalRange {
        min: totals::product_min(p.min, n),
        max: times_count_max(p.max, n),
    }
}
