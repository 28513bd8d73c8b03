// A paper's leaves and verdict tables: what they say of two leaves, and the rules for elements and wildcards.
ghost use Rattle.std.specs.Prelude.{◌≡◌, ◌*◌, ◌<◌, leb, get_or};
ghost use Rattle.particle.specs.Occurs.{range_ok};
ghost use Rattle.rules.specs.Combine.{◌or_fails◌, ◌and_then◌};
ghost use Rattle.rules.specs.Element.{max_restrict, element_restrict};
ghost use Rattle.verdicts.specs.Reasons.{mark_of};
ghost use Rattle.verdicts.specs.Paper.{verdict_of, paper_tables, paper_leaves};

use crate::{AT_NAME, AT_NAME_HIGH, AT_PROCESS, LEAF_SIZE, Reason, Verdict};
use particle::{MaxOccurs, Occurs};

// A paper's leaves and its two verdict tables, one after the other, as bytes, and the number of leaves that the tables have a row for.
#[derive(Clone, Copy)]
pub struct Paper<'a> {
    pub leaves: &'a [u8],
    pub tables: &'a [u8],
    pub n: u8,
}

// The byte at place i; d where there is none.
fn byte_or(s: &[u8], i: usize, d: u8) -> u8
    ensures { result ≡ get_or s.now i d }
{
    s.get(i).copied().unwrap_or(d)
}

// The verdict at place i of the tables; undecided where there is none.
fn verdict_at(tables: &[u8], i: usize) -> Verdict
    ensures { mark_of result ≡ verdict_of (get_or tables.now i 1) }
{
    Verdict::from(byte_or(tables, i, 1))
}

// The whole product: 16 bits hold it. A function, for its bound.
fn product(a: u8, b: u8) -> usize
    ensures { (result ≡ a * b) × (result < 65536) }
{
    usize::from(a) * usize::from(b)
}

// The derived element's maximum against the base element's.
fn max_restrict(d: MaxOccurs, b: MaxOccurs) -> Verdict
    ensures { mark_of result ≡ max_restrict d b }
{
    match (d, b) {
        (_, MaxOccurs::Unbounded) => Verdict::Ok,
        (MaxOccurs::Unbounded, MaxOccurs::Bounded(_)) => Verdict::Violation(Reason::MaxUnbounded),
        (MaxOccurs::Bounded(m), MaxOccurs::Bounded(n)) => {
            if n < m {
                return Verdict::Violation(Reason::MaxAbove);
            }
            Verdict::Ok
        }
    }
}

impl Paper<'_> {
    // The first table's verdict on the derived leaf l and the base leaf m.
    pub fn first(&self, l: u8, m: u8) -> Verdict
        ensures { mark_of result ≡ (paper_tables self.now).first l m }
    {
        verdict_at(self.tables, product(l, self.n) + usize::from(m))
    }

    // The second table's, which stands after the first.
    fn second(&self, l: u8, m: u8) -> Verdict
        ensures { mark_of result ≡ (paper_tables self.now).second l m }
    {
        verdict_at(
            self.tables,
            product(self.n, self.n) + product(l, self.n) + usize::from(m),
        )
    }

    // A leaf's process contents: skip, lax, strict.
    fn strength(&self, l: u8) -> u8
        ensures { result ≡ (paper_leaves self.now).strength l }
    {
        byte_or(self.leaves, LEAF_SIZE * usize::from(l) + AT_PROCESS, 0)
    }

    // A leaf's local name number.
    pub(crate) fn local_name(&self, l: u8) -> u32
        ensures { result ≡ (paper_leaves self.now).local_name l }
    {
        let at = LEAF_SIZE * usize::from(l);
        u32::from(byte_or(self.leaves, at + AT_NAME, 0))
            + u32::from(byte_or(self.leaves, at + AT_NAME_HIGH, 0)) * 256
    }

    // The element verdict: first table, minimum, maximum, second table.
    pub fn element_restrict(&self, l: u8, p: Occurs, m: u8, q: Occurs) -> Verdict
        ensures { mark_of result ≡ element_restrict (paper_tables self.now) l p m q }
    {
        let v = self.first(l, m);
        let Verdict::Ok = v else {
            return v;
        };
        if p.min < q.min {
            return Verdict::Violation(Reason::MinBelow);
        }
        let w = max_restrict(p.max, q.max);
        let Verdict::Ok = w else {
            return w;
        };
        self.second(l, m)
    }

    // Element against wildcard: range, second table.
    pub fn element_wildcard(&self, l: u8, p: Occurs, m: u8, q: Occurs) -> Verdict
        ensures { mark_of result ≡ range_ok p q or_fails 101 and_then (paper_tables self.now).second l m }
    {
        if !particle::range_ok(p, q) {
            return Verdict::Violation(Reason::ElementWildcardRange);
        }
        self.second(l, m)
    }

    // Wildcard against wildcard: range, weaker process contents, second table.
    pub fn wildcard_wildcard(&self, l: u8, p: Occurs, m: u8, q: Occurs) -> Verdict
        ensures { mark_of result ≡ range_ok p q or_fails 103 and_then leb ((paper_leaves self.now).strength m) ((paper_leaves self.now).strength l) or_fails 104 and_then (paper_tables self.now).second l m }
    {
        if !particle::range_ok(p, q) {
            return Verdict::Violation(Reason::WildcardRange);
        }
        if self.strength(l) < self.strength(m) {
            return Verdict::Violation(Reason::WeakerProcessContents);
        }
        self.second(l, m)
    }
}
