// The two marks of an element against a base tree: that of the element counting once, and that of the element with its own pair. One
// pass over a base group's items gives both.
ghost use Rattle.std.specs.Prelude.{◌≡◌, true};
ghost use Rattle.particle.specs.Occurs.{range_ok, exactly};
ghost use Rattle.particle.specs.Tree.{element};
ghost use Rattle.particle.specs.MeasuredTrees.{tree_of, row_of};
ghost use Rattle.particle.specs.Empty.{emptiable};
ghost use Rattle.rules.specs.Verdicts.{fails};
ghost use Rattle.rules.specs.Combine.{◌or_fails◌, ◌and_then◌, combine_readings};
ghost use Rattle.rules.specs.Element.{element_restrict};
ghost use Rattle.rules.specs.Walk.{left_over};
ghost use Rattle.verdicts.specs.Reasons.{reason_number, mark_of};
ghost use Rattle.verdicts.specs.Paper.{paper_tables};
ghost use Rattle.restriction.specs.Views.{as_once, paper_judge};
ghost use Rattle.restriction.specs.Marks.{BothMarks, standing, walked_on, came_to, settled_at, sequence_once, sequence_mark, choice_once, choice_mark};

use crate::pairs::{base_once, base_range, exactly_one, kind_of};
use crate::rows::left_over;
use crate::same_kind;
use particle::{MeasuredTree, MeasuredTrees, Occurs};
use verdicts::{Paper, Reason, Verdict};

// The marks of an element counting once and with its own pair.
#[derive(Clone, Copy)]
pub struct Marks {
    pub once: Verdict,
    pub own: Verdict,
}

// Against an element. Where the first table keeps the two apart, both marks are its verdict.
pub fn with_element(leaf: u8, p: Occurs, m: u8, q: Occurs, paper: &Paper) -> Marks
    ensures { BothMarks result (element_restrict (paper_tables paper.now) leaf (exactly 1) m q) (element_restrict (paper_tables paper.now) leaf p m q) }
{
    let v = paper.first(leaf, m);
    let Verdict::Ok = v else {
        return Marks { once: v, own: v };
    };
    Marks {
        once: paper.element_restrict(leaf, exactly_one(), m, q),
        own: paper.element_restrict(leaf, p, m, q),
    }
}

// Against a wildcard.
pub fn with_wildcard(leaf: u8, p: Occurs, m: u8, q: Occurs, paper: &Paper) -> Marks
    ensures { BothMarks result (range_ok (exactly 1) q or_fails 101 and_then (paper_tables paper.now).second leaf m) (range_ok p q or_fails 101 and_then (paper_tables paper.now).second leaf m) }
{
    Marks {
        once: paper.element_wildcard(leaf, exactly_one(), m, q),
        own: paper.element_wildcard(leaf, p, m, q),
    }
}

// A base group whose own pair rules the second reading out, as it does the element that counts once: the wrapped reading is left.
pub fn base_fails(range: Reason, wrapped: Verdict, second: Verdict) -> Marks
    ensures { BothMarks result (fails (reason_number range)) (combine_readings (mark_of wrapped) (mark_of second)) }
{
    Marks {
        once: Verdict::Violation(range),
        own: verdicts::combine_readings(wrapped, second),
    }
}

// One step of a walk of one element over base items, which has come to a mark or goes on: m is the element's mark at b, after which the
// trees of rest stand.
pub fn walk_on(
    walk: Option<Verdict>,
    m: Verdict,
    lax: bool,
    b: MeasuredTree,
    rest: MeasuredTrees,
) -> Option<Verdict>
    ensures { standing result ≡ walked_on (standing walk) (mark_of m) lax (emptiable (tree_of b.entry)) (left_over (row_of rest.entry)) }
{
    if walk.is_some() {
        return walk;
    }
    match m {
        Verdict::Ok if lax => Some(Verdict::Ok),
        Verdict::Ok => Some(left_over(rest)),
        Verdict::Unknown => Some(Verdict::Unknown),
        Verdict::Violation(r) => {
            if lax || b.emptiable() {
                return None;
            }
            Some(Verdict::Violation(r))
        }
    }
}

// What a walk has come to where no item is left.
fn came_to(walk: Option<Verdict>) -> Verdict
    ensures { mark_of result ≡ came_to (standing walk) }
{
    walk.unwrap_or(Verdict::Violation(Reason::NotAllowed))
}

// The mark with the own pair: the wrapped reading, whose walk stands so, where the pair is within the base's, and the other one.
pub fn read(within: bool, range: Reason, wrapped: Option<Verdict>, direct: Verdict) -> Verdict
    ensures { mark_of result ≡ combine_readings (within or_fails reason_number range and_then came_to (standing wrapped)) (mark_of direct) }
{
    if within {
        return verdicts::combine_readings(came_to(wrapped), direct);
    }
    verdicts::combine_readings(Verdict::Violation(range), direct)
}

// Whether later items can change nothing: both walks have ended, or the wrapped reading passes.
pub fn settled(within: bool, once: Option<Verdict>, own: Option<Verdict>) -> bool
    ensures { result ≡ settled_at within (standing once) (standing own) }
{
    let Some(v) = once else {
        return false;
    };
    own.is_some() || (within && matches!(v, Verdict::Ok))
}

// Both marks against a sequence, by the two walks.
pub fn walked(within: bool, once: Option<Verdict>, own: Option<Verdict>) -> Marks
    ensures { BothMarks result (came_to (standing once)) (combine_readings (within or_fails 105 and_then came_to (standing once)) (came_to (standing own))) }
{
    let direct = came_to(own);
    Marks {
        once: came_to(once),
        own: read(within, Reason::SequenceRange, once, direct),
    }
}

// Both marks of the element d against the tree b: counting once, and with its own pair p. By the base's kind number, as `by_kinds`.
// Leaf and pair are d's own: a struct of the three would hold in its type what the three functions ask, and be taken apart at each use.
#[cycle(restrict)]
fn element_marks(d: MeasuredTree, leaf: u8, p: Occurs, b: MeasuredTree, paper: &Paper) -> Marks
    requires { (tree_of d).head ≡ element leaf p }
    ensures { BothMarks result (paper_judge paper.now (as_once true (tree_of d.entry)) (tree_of b.entry)) (paper_judge paper.now (tree_of d.entry) (tree_of b.entry)) }
{
    let br = b.record();
    let q = base_range(br, false);
    match kind_of(br) {
        0 => with_element(leaf, p, br.leaf, q, paper),
        1 => with_wildcard(leaf, p, br.leaf, q, paper),
        2 => sequence_marks(d, leaf, p, b.items(), q, paper),
        3 => choice_marks(d, leaf, p, b.items(), q, paper),
        _ => Marks {
            once: Verdict::Unknown,
            own: Verdict::Unknown,
        },
    }
}

// The same against a sequence: two walks over its items, of the element once and of the element with its own pair. The first of them is
// the mark of the element that counts once, and the wrapped reading of the other.
#[cycle(restrict)]
pub fn sequence_marks(
    d: MeasuredTree,
    leaf: u8,
    p: Occurs,
    bs: MeasuredTrees,
    q: Occurs,
    paper: &Paper,
) -> Marks
    requires { (tree_of d).head ≡ element leaf p }
    ensures { BothMarks result (sequence_once (paper_judge paper.now) q (as_once true (tree_of d.entry)) (row_of bs.entry)) (sequence_mark (paper_judge paper.now) p q (as_once true (tree_of d.entry)) (tree_of d.entry) (row_of bs.entry)) }
{
    let sequence_once = base_once(q, Reason::SequenceRequired);
    let Verdict::Ok = sequence_once else {
        let wrapped = same_kind(d.alone(), true, p, bs, q, false, paper);
        return base_fails(Reason::SequenceRange, wrapped, sequence_once);
    };
    let within = particle::range_ok(p, q);
    let mut once = None;
    let mut own = None;
    let mut left = bs;
    while let Some(b) = left.next() {
        let item = element_marks(d, leaf, p, b, paper);
        once = walk_on(once, item.once, false, b, left);
        own = walk_on(own, item.own, false, b, left);
        if settled(within, once, own) {
            return walked(within, once, own);
        }
    }
    walked(within, once, own)
}

// The same against a choice. The wrapped reading is the lax walk, which ends at the first alternative that does not fail; the other
// reading, and the element that counts once, go on after an undecided one. It keeps other things of the items than the walks over a
// sequence, so that the two loops stay apart.
#[cycle(restrict)]
pub fn choice_marks(
    d: MeasuredTree,
    leaf: u8,
    p: Occurs,
    bs: MeasuredTrees,
    q: Occurs,
    paper: &Paper,
) -> Marks
    requires { (tree_of d).head ≡ element leaf p }
    ensures { BothMarks result (choice_once (paper_judge paper.now) q (as_once true (tree_of d.entry)) (row_of bs.entry)) (choice_mark (paper_judge paper.now) p q (as_once true (tree_of d.entry)) (tree_of d.entry) (row_of bs.entry)) }
{
    let choice_once = base_once(q, Reason::ChoiceRequired);
    let Verdict::Ok = choice_once else {
        let wrapped = same_kind(d.alone(), true, p, bs, q, true, paper);
        return base_fails(Reason::ChoiceRange, wrapped, choice_once);
    };
    let within = particle::range_ok(p, q);
    let mut first = None;
    let mut once = Verdict::Violation(Reason::NotAllowed);
    let mut own = Verdict::Violation(Reason::NoAlternative);
    let mut left = bs;
    while let Some(b) = left.next() {
        let item = element_marks(d, leaf, p, b, paper);
        first = walk_on(first, item.once, true, b, left);
        once = verdicts::combine_readings(once, item.once);
        own = verdicts::combine_readings(own, item.own);
        if let Verdict::Ok = once {
            if let Verdict::Ok = read(within, Reason::ChoiceRange, first, own) {
                return Marks {
                    once: Verdict::Ok,
                    own: Verdict::Ok,
                };
            }
        }
    }
    Marks {
        once,
        own: read(within, Reason::ChoiceRange, first, own),
    }
}
