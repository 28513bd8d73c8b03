// The total range of the first tree of a part of a tree's bytes.
#![tactic(auto)]

mod display;
mod ranges;

ghost use Rattle.std.specs.Prelude.{◌≡◌};
ghost use Rattle.particle.specs.Tree.{tree, fold};
ghost use Rattle.particle.specs.Rows.{Row, row};
ghost use Rattle.particle.specs.Runs.{Run, RunIf};
ghost use Rattle.totals.specs.Exact.{sum, span, exact_from};
ghost use Rattle.totals.specs.Total.{cut, total, total_ok};

use particle::{MaxOccurs, Occurs};
pub use ranges::{TotalMax, TotalMin, TotalRange, product_max, product_min, total_ok};

// The total range of the first tree of t. It goes as the W3C text goes (3.8.6, Effective Total Range): all and sequence, then choice; of each the
// minimum, then the maximum, in which order `ranges` works both. A leaf, of which that text doesn't speak, has its own pair.
// Where t is measured, each record is read once. A flag, and not two types of trees: one trait of both would need laws over their iterators
// for the one step in which they differ.
#[cycle(total)]
pub fn effective_total_range(t: &[u8], measured: bool) -> TotalRange
    requires row { Row 1 t.now }
    requires run_if { RunIf measured 1 t.now }
    ensures { result ≡ total (tree t.now) }
{
    let head = particle::record_at(t);
    let own = particle::range(head);
    if head.kind < particle::SEQUENCE {
        return TotalRange::from(own);
    }
    let n = usize::from(head.count);
    if head.kind != particle::CHOICE {
        return own * sum_of(particle::items(t), n, measured);
    }
    own * span_of(particle::items(t), n, measured)
}

// Whether the total range of the first tree of t, which is measured, is within q. Every total range is within (0, unbounded), so there it isn't asked.
pub fn total_within(t: &[u8], q: Occurs) -> bool
    requires { Run 1 t.now }
    ensures { result ≡ total_ok (total (tree t.now)) q }
{
    if q.min == 0 && q.max == MaxOccurs::Unbounded {
        return true;
    }
    total_ok(effective_total_range(t, true), q)
}

// All and sequence: the sum of the total ranges of the first n trees of t. An element or wildcard counts by its own pair; only a group is asked by a
// call, so that calls nest once a level.
#[cycle(total)]
fn sum_of(t: &[u8], n: usize, measured: bool) -> TotalRange
    requires row { Row n t.now }
    requires run_if { RunIf measured n t.now }
    ensures { result ≡ cut (sum (fold exact_from (row n t.now))) }
{
    let mut sum = ranges::zero();
    let mut items = t;
    for _ in 0..n {
        let item = items;
        items = particle::after(item, measured);
        let head = particle::record_at(item);
        if head.kind < particle::SEQUENCE {
            sum = sum + TotalRange::from(particle::range(head));
        } else {
            sum = sum + effective_total_range(item, measured);
        }
    }
    sum
}

// Choice: the least minimum and the greatest maximum among the total ranges of the first n trees of t, in the same way, from the first tree's on.
// Not one function with sum_of: for both a trait with three ghost words, a law and two empty types is longer than the two loops.
#[cycle(total)]
fn span_of(t: &[u8], n: usize, measured: bool) -> TotalRange
    requires row { Row n t.now }
    requires run_if { RunIf measured n t.now }
    ensures { result ≡ cut (span (fold exact_from (row n t.now))) }
{
    if n == 0 {
        return ranges::zero();
    }
    let mut span = effective_total_range(t, measured);
    let mut items = particle::after(t, measured);
    for _ in 1..n {
        let item = items;
        items = particle::after(item, measured);
        let head = particle::record_at(item);
        if head.kind < particle::SEQUENCE {
            span = span.span(TotalRange::from(particle::range(head)));
        } else {
            span = span.span(effective_total_range(item, measured));
        }
    }
    span
}
