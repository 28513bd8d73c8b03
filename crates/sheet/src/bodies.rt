// The leaves and the tables: their check, and the leaves' kinds.
ghost use Rattle.std.specs.Prelude.{◌≡◌, ◌||◌, ◌+◌, ◌*◌, ◌≤◌, max, leb, length, take, drop};
ghost use Rattle.verdicts.specs.Paper.{leaf_size};
ghost use Rattle.sheet.specs.Layout.{leaf_at, leaves_in};
ghost use Rattle.sheet.specs.Refused.{leaf_ok, leaves_ok, verdicts_ok, kinds_of};

use verdicts::{AT_NAME, AT_PROCESS, LEAF_SIZE};

const LAST_VERDICT: u8 = 152;

// The place of a verdict is at most this.
const LAST_PLACE: u8 = 117;

// One leaf, taken apart: kind, process contents, local name number.
#[derive(Clone, Copy)]
pub struct Leaf {
    pub kind: u8,
    pub process: u8,
    pub name: u16,
}

// The leaf that l starts with.
fn leaf_at(l: &[u8]) -> Leaf
    requires { leaf_size ≤ length l.now }
    ensures { result ≡ leaf_at l.now }
{
    Leaf {
        kind: l[0],
        process: l[AT_PROCESS],
        name: particle::read_u16(l, AT_NAME),
    }
}

// Every test is made: a leaf's kind is hard to foretell, and a branch on it would cost more than the tests.
fn leaf_ok(l: Leaf) -> bool
    ensures { result ≡ leaf_ok l }
{
    let element = (l.kind == particle::ELEMENT) & (l.process == 0);
    let wildcard = (l.kind == particle::WILDCARD) & ((l.process <= 2) & (l.name == 0));
    element | wildcard
}

// Whether each of the first n leaves is in order; their kinds are put down at the start of out.
pub fn read_leaves(leaves: &[u8], n: usize, out: &mut [u8]) -> bool
    requires n_in_leaves { leaf_size * n ≤ length leaves.now }
    requires n_in_out { n ≤ length out.old }
    ensures { (result ≡ leaves_ok (leaves_in n leaves.now)) × (take n out.new ≡ kinds_of (leaves_in n leaves.now)) }
{
    let mut ok = true;
    for i in 0..n {
        let l = leaf_at(&leaves[LEAF_SIZE * i..]);
        out[i] = l.kind;
        ok &= leaf_ok(l);
    }
    ok
}

// The place of v among the bytes from 140 on, where 0 follows 255: at most LAST_PLACE just for 140 to 255, 0 and 1.
fn place(v: u8) -> u8
    ensures { leb result 117 ≡ (leb 140 v || leb v 1) }
{
    v.wrapping_sub(140)
}

// Whether each verdict of the tables is in order. Two greatest numbers decide: that takes fewer steps than a test of each byte, and many bytes at once.
pub fn verdicts_ok(tables: &[u8]) -> bool
    ensures { result ≡ verdicts_ok tables.now }
{
    let mut most: u8 = 0;
    let mut place_most: u8 = 0;
    for &v in tables {
        most = most.max(v);
        place_most = place_most.max(place(v));
    }
    (most <= LAST_VERDICT) & (place_most <= LAST_PLACE)
}
