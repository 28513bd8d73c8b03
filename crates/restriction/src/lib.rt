// The mark of two tidied trees: `restrict` selects a rule by the two kinds, and the rules ask it for the marks of items.
// The trees are measured, which their types say, so that a step from one item to the next takes no longer where the item is a large group.
#![tactic(auto)]

mod marks;
mod pairs;
mod rows;

ghost use Rattle.std.specs.Prelude.{◌≡◌, true, false, ◌≤◌};
ghost use Rattle.particle.specs.Occurs.{range_ok};
ghost use Rattle.particle.specs.Tree.{element};
ghost use Rattle.particle.specs.MeasuredTrees.{tree_of, row_of, items_of};
ghost use Rattle.totals.specs.Total.{total, total_ok};
ghost use Rattle.rules.specs.Combine.{◌or_fails◌, ◌and_then◌};
ghost use Rattle.rules.specs.Walk.{recurse_ordered, alternatives, each_member};
ghost use Rattle.rules.specs.Rule.{times_count};
ghost use Rattle.verdicts.specs.Reasons.{reason_number, mark_of};
ghost use Rattle.restriction.specs.Views.{once_head, as_once, each_once, as_any, paper_judge, range_reason};
ghost use Rattle.restriction.specs.Marks.{sequence_mark, choice_mark};

use marks::{choice_marks, sequence_marks};
use pairs::{base_range, counts_once, derived_range, exactly_one, kind_of, times_count};
use particle::{MeasuredTree, MeasuredTrees, Occurs};
use rows::{group_all, left_over};
use verdicts::{Paper, Reason, Verdict};

// The tree d against the tree b. With once, an element d counts with the pair (1,1); with any, a wildcard b with (0, unbounded).
// Two elements that the first table keeps apart take no further call.
#[cycle(restrict)]
pub fn restrict(d: MeasuredTree, once: bool, b: MeasuredTree, any: bool, paper: &Paper) -> Verdict
    ensures { mark_of result ≡ paper_judge paper.now (as_once once (tree_of d.entry)) (as_any any (tree_of b.entry)) }
{
    let dr = d.record();
    let br = b.record();
    if dr.kind == particle::ELEMENT && br.kind == particle::ELEMENT {
        let v = paper.first(dr.leaf, br.leaf);
        let Verdict::Ok = v else {
            return v;
        };
    }
    let mark = by_kinds(d, once, b, any, paper);
    mark
}

// The same by the two kinds: each pair selects its rule. As document 01 has it, the pair is one number, five by five.
// A mark that comes from a call which isn't compiled into this function gets a name before it is handed back, here and in `restrict`: so
// the compiler keeps it in registers, and doesn't read as a whole what was just written in parts. Without the names the longest markings
// take a quarter longer.
#[cycle(restrict)]
fn by_kinds(d: MeasuredTree, once: bool, b: MeasuredTree, any: bool, paper: &Paper) -> Verdict
    ensures { mark_of result ≡ paper_judge paper.now (as_once once (tree_of d.entry)) (as_any any (tree_of b.entry)) }
{
    let dr = d.record();
    let br = b.record();
    let p = derived_range(dr, once);
    let q = base_range(br, any);
    let ds = d.items();
    let bs = b.items();
    let one = exactly_one();
    match 5 * kind_of(dr) + kind_of(br) {
        0 => paper.element_restrict(dr.leaf, p, br.leaf, q),
        1 => paper.element_wildcard(dr.leaf, p, br.leaf, q),
        2 => element_sequence(d, once, dr.leaf, p, bs, q, paper),
        3 => element_choice(d, once, dr.leaf, p, bs, q, paper),
        4 => Verdict::Unknown,
        5 => Verdict::Violation(Reason::WildcardElement),
        6 => paper.wildcard_wildcard(dr.leaf, p, br.leaf, q),
        7 => Verdict::Violation(Reason::WildcardGroup),
        8 => Verdict::Violation(Reason::WildcardGroup),
        9 => Verdict::Violation(Reason::WildcardGroup),
        10 => same_kind(ds, false, p, b.alone(), one, false, paper),
        11 => {
            let mark = group_wildcard(d, b, q, paper);
            mark
        }
        12 => same_kind(ds, false, p, bs, q, false, paper),
        13 => sequence_choice(ds, p, bs, q, paper),
        14 => {
            let mark = group_all(d, p, b, q, false, paper);
            mark
        }
        15 => same_kind(ds, false, p, b.alone(), one, true, paper),
        16 => {
            let mark = group_wildcard(d, b, q, paper);
            mark
        }
        18 => same_kind(ds, false, p, bs, q, true, paper),
        20 => Verdict::Unknown,
        21 => {
            let mark = group_wildcard(d, b, q, paper);
            mark
        }
        24 => {
            let mark = group_all(d, p, b, q, true, paper);
            mark
        }
        _ => Verdict::Violation(Reason::GroupKind),
    }
}

// The ordered walk: a tree of ds is tried on the trees of bs in turn. As document 01 has it, each of the two loops is left by its label.
#[cycle(restrict)]
fn recurse_ordered(
    ds: MeasuredTrees,
    once: bool,
    bs: MeasuredTrees,
    lax: bool,
    paper: &Paper,
) -> Verdict
    ensures { mark_of result ≡ recurse_ordered (paper_judge paper.now) lax (each_once once (row_of ds.entry)) (row_of bs.entry) }
{
    let mut seen = false;
    let mut left = bs;
    'derived: for d in ds {
        'base: while let Some(b) = left.next() {
            match restrict(d, once, b, false, paper) {
                Verdict::Ok => continue 'derived,
                Verdict::Unknown => {
                    seen = true;
                    continue 'derived;
                }
                Verdict::Violation(r) => {
                    if lax {
                        continue 'base;
                    }
                    if b.emptiable() {
                        continue 'base;
                    }
                    return verdicts::definite(Verdict::Violation(r), seen);
                }
            }
        }
        return verdicts::definite(Verdict::Violation(Reason::NotAllowed), seen);
    }
    if lax {
        return verdicts::definite(Verdict::Ok, seen);
    }
    verdicts::definite(left_over(left), seen)
}

// The tree d against those of bs as alternatives, with the reason where none is left.
#[cycle(restrict)]
fn any_alternative(
    d: MeasuredTree,
    once: bool,
    bs: MeasuredTrees,
    reason: Reason,
    paper: &Paper,
) -> Verdict
    ensures { mark_of result ≡ alternatives (paper_judge paper.now) (reason_number reason) (as_once once (tree_of d.entry)) (row_of bs.entry) }
{
    let mut seen = false;
    for b in bs {
        match restrict(d, once, b, false, paper) {
            Verdict::Ok => {
                return Verdict::Ok;
            }
            Verdict::Unknown => {
                seen = true;
            }
            Verdict::Violation(_) => {}
        }
    }
    verdicts::definite(Verdict::Violation(reason), seen)
}

// Sequence against sequence, or choice against choice, which is lax: range, ordered walk. Only the first test is that of `group_all`.
#[cycle(restrict)]
fn same_kind(
    ds: MeasuredTrees,
    once: bool,
    p: Occurs,
    bs: MeasuredTrees,
    q: Occurs,
    lax: bool,
    paper: &Paper,
) -> Verdict
    ensures { mark_of result ≡ range_ok p q or_fails range_reason lax and_then recurse_ordered (paper_judge paper.now) lax (each_once once (row_of ds.entry)) (row_of bs.entry) }
{
    if particle::range_ok(p, q) {
        return recurse_ordered(ds, once, bs, lax, paper);
    }
    if lax {
        return Verdict::Violation(Reason::ChoiceRange);
    }
    Verdict::Violation(Reason::SequenceRange)
}

// Element against sequence. An element that counts once has one mark: both readings walk it in the same way, and where its pair isn't
// within the base's both fail. Any other has two, which one pass gives.
#[cycle(restrict)]
fn element_sequence(
    d: MeasuredTree,
    once: bool,
    leaf: u8,
    p: Occurs,
    bs: MeasuredTrees,
    q: Occurs,
    paper: &Paper,
) -> Verdict
    requires { once_head once (tree_of d).head ≡ element leaf p }
    ensures { mark_of result ≡ sequence_mark (paper_judge paper.now) p q (as_once true (tree_of d.entry)) (as_once once (tree_of d.entry)) (row_of bs.entry) }
{
    if counts_once(p) {
        return same_kind(d.alone(), true, p, bs, q, false, paper);
    }
    sequence_marks(d, leaf, p, bs, q, paper).own
}

// Element against choice, in the same way: of one that counts once both readings ask the same of each alternative. Only the test of the pair
// is alike in the two functions.
#[cycle(restrict)]
fn element_choice(
    d: MeasuredTree,
    once: bool,
    leaf: u8,
    p: Occurs,
    bs: MeasuredTrees,
    q: Occurs,
    paper: &Paper,
) -> Verdict
    requires { once_head once (tree_of d).head ≡ element leaf p }
    ensures { mark_of result ≡ choice_mark (paper_judge paper.now) p q (as_once true (tree_of d.entry)) (as_once once (tree_of d.entry)) (row_of bs.entry) }
{
    if counts_once(p) {
        if !particle::range_ok(p, q) {
            return Verdict::Violation(Reason::ChoiceRange);
        }
        return any_alternative(d, true, bs, Reason::NotAllowed, paper);
    }
    choice_marks(d, leaf, p, bs, q, paper).own
}

// Group against wildcard: total range, then each member against the wildcard with pair (0, unbounded).
#[cycle(restrict)]
fn group_wildcard(group: MeasuredTree, b: MeasuredTree, q: Occurs, paper: &Paper) -> Verdict
    ensures { mark_of result ≡ total_ok (total (tree_of group.entry)) q or_fails 113 and_then each_member (λ x. paper_judge paper.now x (as_any true (tree_of b.entry))) (items_of group.entry) }
{
    if !totals::total_within(group.bytes, q) {
        return Verdict::Violation(Reason::TotalRange);
    }
    let mut seen = false;
    for d in group.items() {
        match by_kinds(d, false, b, true, paper) {
            Verdict::Ok => {}
            Verdict::Unknown => {
                seen = true;
            }
            Verdict::Violation(r) => {
                return verdicts::definite(Verdict::Violation(r), seen);
            }
        }
    }
    verdicts::definite(Verdict::Ok, seen)
}

// Sequence against choice: pair times item count, then each member against the alternatives. The loop is that of `group_wildcard` but for
// the call, which is one of the cycle in both: a closure there would be no plainer.
#[cycle(restrict)]
fn sequence_choice(
    ds: MeasuredTrees,
    p: Occurs,
    bs: MeasuredTrees,
    q: Occurs,
    paper: &Paper,
) -> Verdict
    ensures { mark_of result ≡ total_ok (times_count p ds.entry.count) q or_fails 116 and_then each_member (λ x. alternatives (paper_judge paper.now) 117 x (row_of bs.entry)) (row_of ds.entry) }
{
    if !totals::total_ok(times_count(p, ds.count as u32), q) {
        return Verdict::Violation(Reason::SequenceTotal);
    }
    let mut seen = false;
    for d in ds {
        match any_alternative(d, false, bs, Reason::MemberAlternative, paper) {
            Verdict::Ok => {}
            Verdict::Unknown => {
                seen = true;
            }
            Verdict::Violation(r) => {
                return verdicts::definite(Verdict::Violation(r), seen);
            }
        }
    }
    verdicts::definite(Verdict::Ok, seen)
}
