// The rules over rows of trees that ask for no marks of items.
ghost use Rattle.std.specs.Prelude.{◌≡◌, ◌≤◌};
ghost use Rattle.particle.specs.Occurs.{range_ok};
ghost use Rattle.particle.specs.MeasuredTrees.{row_of, items_of};
ghost use Rattle.rules.specs.Combine.{◌or_fails◌, ◌and_then◌};
ghost use Rattle.rules.specs.Walk.{left_over, recurse_unordered};
ghost use Rattle.verdicts.specs.Reasons.{mark_of};
ghost use Rattle.verdicts.specs.Paper.{paper_leaves, paper_tables};
ghost use Rattle.restriction.specs.Views.{all_reason};

use particle::{MeasuredTree, MeasuredTrees, Occurs, Subtrees};
use verdicts::{Paper, Reason, Verdict};

// The trees of bs, left over in an ordered walk: one that is not emptiable is missing.
pub fn left_over(bs: MeasuredTrees) -> Verdict
    ensures { mark_of result ≡ left_over (row_of bs.entry) }
{
    for b in bs {
        if !b.emptiable() {
            return Verdict::Violation(Reason::RequiredMissing);
        }
    }
    Verdict::Ok
}

// All-group, or else sequence, against all-group: range, then base elements taken by name. It takes the two trees, which are handed on in
// registers as rows of trees are not.
pub fn group_all(
    d: MeasuredTree,
    p: Occurs,
    b: MeasuredTree,
    q: Occurs,
    all: bool,
    paper: &Paper,
) -> Verdict
    ensures { mark_of result ≡ range_ok p q or_fails all_reason all and_then recurse_unordered (paper_leaves paper.now) (paper_tables paper.now) (items_of d.entry) (items_of b.entry) }
{
    if particle::range_ok(p, q) {
        return verdicts::recurse_unordered(
            Subtrees::from(d.items()),
            Subtrees::from(b.items()),
            paper,
        );
    }
    if all {
        return Verdict::Violation(Reason::AllRange);
    }
    Verdict::Violation(Reason::SequenceAllRange)
}
