// Measured trees: a record that has items tells, in its three zero bytes, whether its tree is emptiable and how many records it takes.
// The tree is the same; what follows it is found, and emptiness is told, without reading its records.
ghost use Rattle.std.specs.Prelude.{◌≡◌, ◌*◌, ◌≤◌, ◌<◌, length};
ghost use Rattle.particle.specs.Record.{record_size, max_records, record_at};
ghost use Rattle.particle.specs.Tree.{tree};
ghost use Rattle.particle.specs.Rows.{Row, items_part, later_part};
ghost use Rattle.particle.specs.Empty.{emptiable};
ghost use Rattle.particle.specs.Runs.{Run, RunIf, RowFound};

use crate::{
    AT_SIZE, AT_ZERO, CHOICE, RECORD_SIZE, SEQUENCE, count_at, items, later, record_at,
    record_count, write,
};

// What is noted of a tree that is emptiable; of any other it is 0.
const EMPTIABLE: u8 = 1;

// What the trees of a row are found to be: how many bytes they take, and whether each, and whether one, is emptiable.
#[derive(Clone, Copy)]
struct Found {
    len: usize,
    every: bool,
    some: bool,
}

// The part of t that starts after the first tree.
pub fn next(t: &[u8]) -> &[u8]
    requires { Run 1 t.now }
    ensures { result.now ≡ later_part t.now }
{
    let r = record_at(t);
    if r.count == 0 {
        return items(t);
    }
    let n = RECORD_SIZE * usize::from(r.size);
    &t[n..]
}

// The same of a tree that is measured or not.
pub fn after(t: &[u8], measured: bool) -> &[u8]
    requires row { Row 1 t.now }
    requires run_if { RunIf measured 1 t.now }
    ensures { result.now ≡ later_part t.now }
{
    if measured {
        return next(t);
    }
    later(t)
}

// Whether the first tree of t is emptiable: its note tells it. A record without items has none: a leaf's minimum tells it, and a group
// without items is emptiable.
pub fn told_emptiable(t: &[u8]) -> bool
    requires { Run 1 t.now }
    ensures { result ≡ emptiable (tree t.now) }
{
    let r = record_at(t);
    if r.count == 0 {
        return (r.min == 0) | (r.kind >= SEQUENCE);
    }
    r.zero == EMPTIABLE
}

// What the first n trees of t are found to be, in one walk over them.
fn walk(t: &[u8], n: usize) -> Found
    requires { Run n t.now }
    ensures { RowFound n t.now result }
{
    let mut every = true;
    let mut some = false;
    let mut rest = t;
    for _ in 0..n {
        let empty = told_emptiable(rest);
        every &= empty;
        some |= empty;
        rest = next(rest);
    }
    Found {
        len: t.len() - rest.len(),
        every,
        some,
    }
}

// Whether the first tree of t, which has items, is emptiable, by what its items are found to be.
fn found_emptiable(t: &[u8], x: Found) -> bool
    requires row { Row 1 t.now }
    requires count_nonzero { 0 < (record_at t.now).count }
    requires row_found { RowFound (record_at t.now).count (items_part t.now) x }
    ensures { result ≡ emptiable (tree t.now) }
{
    let r = record_at(t);
    let asked = if r.kind == CHOICE { x.some } else { x.every };
    (r.min == 0) | ((r.kind >= SEQUENCE) & asked)
}

// Measures the tree of t: from the last record to the first, so that the items of a record are measured before it.
pub fn measure(t: &mut [u8])
    requires row { Row 1 t.old }
    requires t_len_bound { length t.old ≤ record_size * max_records }
    ensures { Run 1 t.new × (tree t.new ≡ tree t.old) }
{
    for i in (0..record_count(t)).rev() {
        let at = RECORD_SIZE * i;
        let count = count_at(t, at);
        if 0 < count {
            let x = walk(&t[at + RECORD_SIZE..], count);
            t[at + AT_ZERO] = u8::from(found_emptiable(&t[at..], x));
            let size = (x.len / RECORD_SIZE + 1) as u16;
            write(t, at + AT_SIZE, &size.to_le_bytes());
        }
    }
}
