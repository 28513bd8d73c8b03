// All-groups: each derived item takes the first untaken base element of its local name number.
ghost use Rattle.std.specs.Prelude.{◌&&◌, not, ◌≡◌, ◌≤◌, length};
ghost use Rattle.particle.specs.Record.{max_records};
ghost use Rattle.particle.specs.Tree.{head_of};
ghost use Rattle.particle.specs.Subtrees.{row_of};
ghost use Rattle.rules.specs.Walk.{take_named, untaken, recurse_unordered};
ghost use Rattle.verdicts.specs.Reasons.{mark_of};
ghost use Rattle.verdicts.specs.Paper.{paper_leaves, paper_tables};
ghost use Rattle.verdicts.specs.Taken.{untaken_items, has_name, found_of, MemberMark};

use crate::{Paper, Reason, Verdict, definite};
use particle::{MAX_RECORDS, Occurs, Record, Subtree, Subtrees};

// Whether the item of this record is untaken and an element of this name.
fn is_free(taken: bool, head: Record, name: u32, paper: &Paper) -> bool
    ensures { result ≡ not taken && has_name (paper_leaves paper.now) name (head_of head) }
{
    !taken && head.kind == particle::ELEMENT && paper.local_name(head.leaf) == name
}

// Takes the first untaken element of this name among the trees of bs: its leaf and pair.
fn take_named(bs: Subtrees, matched: &mut [bool], name: u32, paper: &Paper) -> Option<(u8, Occurs)>
    requires { bs.count ≤ length matched.old }
    ensures { found_of result (untaken_items matched.new (row_of bs.entry)) ≡ take_named (paper_leaves paper.now) name (untaken_items matched.old (row_of bs.entry)) }
{
    // An index: the items' flags stand in a slice of their own.
    let mut i: usize = 0;
    for b in bs {
        let head = b.record();
        if is_free(matched[i], head, name, paper) {
            matched[i] = true;
            return Some((head.leaf, particle::range(head)));
        }
        i += 1;
    }
    None
}

// At the end: 109 where an untaken one of the trees of bs has a minimum above 0.
fn untaken(bs: Subtrees, matched: &[bool]) -> Verdict
    requires { bs.count ≤ length matched.now }
    ensures { mark_of result ≡ untaken (untaken_items matched.now (row_of bs.entry)) }
{
    // An index, as in `take_named`.
    let mut i: usize = 0;
    for b in bs {
        if b.record().min > 0 && !matched[i] {
            return Verdict::Violation(Reason::MissingFromAll);
        }
        i += 1;
    }
    Verdict::Ok
}

// The mark of one derived item, by its record. It takes the first untaken base element of its name.
fn member_restrict(head: Record, bs: Subtrees, matched: &mut [bool], paper: &Paper) -> Verdict
    requires { bs.count ≤ length matched.old }
    ensures { MemberMark (paper_leaves paper.now) (paper_tables paper.now) (head_of head) (row_of bs.entry) matched.old matched.new result }
{
    if head.kind != particle::ELEMENT {
        return Verdict::Violation(Reason::MemberNotElement);
    }
    let name = paper.local_name(head.leaf);
    match take_named(bs, matched, name, paper) {
        None => Verdict::Violation(Reason::NotInAll),
        Some((m, q)) => paper.element_restrict(head.leaf, particle::range(head), m, q),
    }
}

// The trees of ds against the untaken ones of bs. An item mostly takes a base item near the first that is untaken, so each search begins
// there, at `free`; `low` items are before it.
fn take_members(ds: Subtrees, bs: Subtrees, matched: &mut [bool], paper: &Paper) -> Verdict
    requires { bs.count ≤ length matched.old }
    ensures { mark_of result ≡ recurse_unordered (paper_leaves paper.now) (paper_tables paper.now) (row_of ds.entry) (untaken_items matched.old (row_of bs.entry)) }
{
    let mut seen = false;
    let mut rest = ds;
    let mut free = bs;
    let mut low: usize = 0;
    // No `for`: the next item is looked for only where this one doesn't decide. A group, which decides, may have many records.
    while 0 < rest.count {
        // The two go on together: the flags stand in a slice of their own.
        while free.count > 0 && matched[low] {
            let _ = free.next();
            low += 1;
        }
        let d = Subtree { bytes: rest.bytes };
        let v = member_restrict(d.record(), free, &mut matched[low..], paper);
        match v {
            Verdict::Ok => {}
            Verdict::Unknown => {
                seen = true;
            }
            Verdict::Violation(_) => {
                return definite(v, seen);
            }
        }
        let _ = rest.next();
    }
    definite(untaken(free, &matched[low..]), seen)
}

// The trees of ds against those of bs, as document 01 has it for all-groups. Memory is fixed, and the trees lie in the caller's bytes: so
// the flags are an array beside them. They are lent from another place on at each step, so no struct has both.
pub fn recurse_unordered(ds: Subtrees, bs: Subtrees, paper: &Paper) -> Verdict
    requires { bs.count ≤ max_records }
    ensures { mark_of result ≡ recurse_unordered (paper_leaves paper.now) (paper_tables paper.now) (row_of ds.entry) (row_of bs.entry) }
{
    let mut matched = [false; MAX_RECORDS];
    take_members(ds, bs, &mut matched, paper)
}
