// Whether trees are emptiable that aren't measured.
ghost use Rattle.std.specs.Prelude.{◌≡◌};
ghost use Rattle.particle.specs.Tree.{fold};
ghost use Rattle.particle.specs.Empty.{every_or_some, emptiable_from, emptiable};
ghost use Rattle.particle.specs.Subtrees.{tree_of, row_of};

use crate::{CHOICE, SEQUENCE, Subtree, Subtrees};

// Whether the tree is emptiable.
#[cycle(emptiable)]
pub fn emptiable(t: Subtree) -> bool
    ensures { result ≡ emptiable (tree_of t.entry) }
{
    let r = t.record();
    if r.min == 0 {
        return true;
    }
    if r.kind < SEQUENCE {
        return false;
    }
    if r.kind == CHOICE {
        if r.count == 0 {
            return true;
        }
        return items_emptiable(t.items(), false);
    }
    items_emptiable(t.items(), true)
}

// Whether each of the trees is emptiable; without `each`, whether one of them is.
#[cycle(emptiable)]
fn items_emptiable(items: Subtrees, each: bool) -> bool
    ensures { result ≡ every_or_some each (fold emptiable_from (row_of items.entry)) }
{
    let mut rest = items;
    // No `for`: the next item is looked for only where this one doesn't decide, since that goes over all its records.
    while 0 < rest.count {
        let found = emptiable(Subtree { bytes: rest.bytes });
        if found != each {
            return found;
        }
        let _ = rest.next();
    }
    each
}
