// The check of a tree: its first refusal, record by record.
#![tactic(auto)]

mod display;

ghost use Rattle.std.specs.Prelude.{◌≡◌, false, [], ◌∷◌, ◌<◌};
ghost use Rattle.particle.specs.Tree.{records};
ghost use Rattle.intake.specs.Faults.{leaf_ok, bound_ok, zeros_ok, fields_ok, pair_ok, all_ok, fault_of};
ghost use Rattle.intake.specs.Scan.{level, scan, listed, alone, refusal_in};
ghost use Rattle.intake.specs.Number.{fault_place, refusal_number};

use particle::Record;

// What is wrong with a tree, in the order in which a record is checked.
#[derive(Clone, Copy, Debug, PartialEq, Eq)]
pub enum Fault {
    Fields,
    Pair,
    AllGroup,
    Depth,
    Counts,
}

// Why a sheet, a tree, a chain, a type number, a table of types or a buffer is turned away.
#[derive(Clone, Copy, Debug, PartialEq, Eq)]
pub enum Refusal {
    Contents,
    Buffer,
    Leaf,
    Verdict,
    Base(Fault),
    Derived(Fault),
    Chain,
    Limit,
    TypeNumber,
    TypeTable,
}

// In a list of leaf kinds, which are the sheet's bytes: a leaf that may be an element or a wildcard.
const EITHER: u8 = 2;

// A tree is at most so deep; its root is at depth 1.
const MAX_DEPTH: usize = 12;

// There are at most so many leaves.
pub const MAX_LEAVES: usize = 64;

// Whether the list has r's leaf number, as r's kind.
fn is_listed(r: Record, kinds: &[u8]) -> bool
    ensures { result ≡ listed kinds.now r.kind r.leaf }
{
    kinds
        .get(usize::from(r.leaf))
        .is_some_and(|&k| (k == EITHER) | (k == r.kind))
}

fn leaf_ok(r: Record, kinds: &[u8]) -> bool
    ensures { result ≡ leaf_ok (listed kinds.now) r }
{
    if r.kind < particle::SEQUENCE {
        is_listed(r, kinds) && r.count == 0
    } else {
        r.leaf == 0
    }
}

fn bound_ok(r: Record) -> bool
    ensures { result ≡ bound_ok r }
{
    (r.unbounded == 0) | ((r.unbounded == 1) & (r.max == 0))
}

fn zeros_ok(r: Record) -> bool
    ensures { result ≡ zeros_ok r }
{
    (r.zero == 0) & (r.size == 0)
}

fn fields_ok(r: Record, kinds: &[u8]) -> bool
    ensures { result ≡ fields_ok (listed kinds.now) r }
{
    r.kind <= particle::ALL && leaf_ok(r, kinds) && bound_ok(r) & zeros_ok(r)
}

fn pair_ok(r: Record) -> bool
    ensures { result ≡ pair_ok r }
{
    (r.unbounded == 1) | (r.min <= r.max)
}

fn all_ok(r: Record, in_all: bool) -> bool
    ensures { result ≡ all_ok r in_all }
{
    (r.kind != particle::ALL || (r.unbounded == 0 && r.max == 1))
        && (!in_all || r.kind == particle::ELEMENT)
}

// The first fault of the record r, at this depth.
fn fault_of(r: Record, kinds: &[u8], depth: usize, in_all: bool) -> Result<(), Fault>
    ensures { result ≡ fault_of (listed kinds.now) r depth in_all }
{
    let fields = fields_ok(r, kinds);
    let pair = pair_ok(r);
    let group = all_ok(r, in_all);
    if !fields {
        return Err(Fault::Fields);
    }
    if !pair {
        return Err(Fault::Pair);
    }
    if !group {
        return Err(Fault::AllGroup);
    }
    if depth <= MAX_DEPTH {
        Ok(())
    } else {
        Err(Fault::Depth)
    }
}

// The first fault of the records of t, which may also be too few or too many for their item counts. An open group is
// kept by how many items it still awaits: `left` for the innermost one, `outer` for those above it, outermost first.
// An item of an all-group has no items, so only the innermost group can be an all-group.
fn scan(t: &[u8], kinds: &[u8]) -> Result<(), Fault>
    ensures { result ≡ scan (listed kinds.now) (records t.now) (level 1 false ∷ []) }
{
    let mut left: u16 = 1;
    let mut in_all = false;
    // An array and a length: as a struct of their own, seen as a list, the check took a third longer.
    let mut outer = [0u16; MAX_DEPTH];
    let mut above: usize = 0;
    // Records by hand: by `chunks_exact` the check took a quarter longer.
    let mut rest = t;
    while particle::RECORD_SIZE <= rest.len() {
        let r = particle::record_at(rest);
        let next = particle::skip(rest, 1);
        rest = next;
        if left == 0 {
            return Err(Fault::Counts);
        }
        fault_of(r, kinds, above + 1, in_all)?;
        left -= 1;
        if r.count != 0 {
            outer[above] = left;
            above += 1;
            left = r.count;
            in_all = r.kind == particle::ALL;
            continue;
        }
        while left == 0 && 0 < above {
            above -= 1;
            left = outer[above];
            in_all = false;
        }
    }
    if left == 0 {
        Ok(())
    } else {
        Err(Fault::Counts)
    }
}

// The first refusal of the tree t, whose leaves are of these kinds.
#[tactic(auto, unfolding(crate::specs::Scan::refusal_in))]
pub fn check_tree(t: &[u8], kinds: &[u8]) -> Result<(), Fault>
    ensures { result ≡ refusal_in (listed kinds.now) t.now }
{
    let len = t.len();
    let over = particle::RECORD_SIZE * particle::MAX_RECORDS < len;
    if len == 0 || over || len % particle::RECORD_SIZE != 0 {
        return Err(Fault::Counts);
    }
    scan(t, kinds)
}

// The first refusal of a tree alone, which has no leaf list: any leaf number below MAX_LEAVES, as an element or a wildcard.
pub fn check_alone(t: &[u8]) -> Result<(), Fault>
    ensures { result ≡ refusal_in alone t.now }
{
    let kinds = [EITHER; MAX_LEAVES];
    check_tree(t, &kinds)
}

// The number of a refusal in documents 01 and 02.
impl From<Refusal> for u32 {
    ghost from_gives = { λ r n. (n ≡ refusal_number r) × (n < 256) };

    fn from(r: Refusal) -> u32 {
        match r {
            Refusal::Contents => 1,
            Refusal::Buffer => 2,
            Refusal::Leaf => 3,
            Refusal::Verdict => 4,
            Refusal::Base(f) => 5 + u32::from(f),
            Refusal::Derived(f) => 10 + u32::from(f),
            Refusal::Chain => 15,
            Refusal::Limit => 16,
            Refusal::TypeNumber => 17,
            Refusal::TypeTable => 18,
        }
    }
}

// A fault's place in the order of the checks, from 0.
impl From<Fault> for u32 {
    ghost from_gives = { λ f n. (n ≡ fault_place f) × (n < 5) };

    fn from(f: Fault) -> u32 {
        match f {
            Fault::Fields => 0,
            Fault::Pair => 1,
            Fault::AllGroup => 2,
            Fault::Depth => 3,
            Fault::Counts => 4,
        }
    }
}
