// Particle trees as records in preorder: the layout of a record, occurrence pairs, and the run of records that a subtree is.
#![tactic(auto)]

mod empty;
mod measured;
mod measured_trees;
mod subtrees;

ghost use Rattle.std.specs.Prelude.{◌≡◌, ◌+◌, ◌%◌, ◌≤◌, ◌<◌, length, drop};
ghost use Rattle.std.proofs.lemmas.List.Edits.{sets};
ghost use Rattle.particle.specs.Occurs.{exactly, is_zero, range_ok};
ghost use Rattle.particle.specs.Record.{record_size, record_at, half, word, record_bytes, half_bytes, word_bytes, range_of};
ghost use Rattle.particle.specs.Write.{overwrite};
ghost use Rattle.particle.specs.Tree.{sequence, records};
ghost use Rattle.particle.specs.Encode.{record_of};
ghost use Rattle.particle.specs.Rows.{Row, items_part, later_part, run_size, item_start, item_run, ItemAt, PartOf};

pub use empty::emptiable;
pub use measured::{after, measure, next, told_emptiable};
pub use measured_trees::{MeasuredTree, MeasuredTrees};
pub use subtrees::{Subtree, Subtrees};

// The length of a record in bytes.
pub const RECORD_SIZE: usize = 16;

// Where its fields start. Nothing else in the code says the layout.
const AT_KIND: usize = 0;

const AT_LEAF: usize = 1;

const AT_COUNT: usize = 2;

const AT_UNBOUNDED: usize = 4;

const AT_ZERO: usize = 5;

const AT_SIZE: usize = 6;

const AT_MIN: usize = 8;

const AT_MAX: usize = 12;

// A tree has at most so many records.
pub const MAX_RECORDS: usize = 1000;

// A record's kind is a byte and no enum: until the check any byte may stand there, and document 01 asks for a match over kind numbers.
pub const ELEMENT: u8 = 0;

pub const WILDCARD: u8 = 1;

pub const SEQUENCE: u8 = 2;

pub const CHOICE: u8 = 3;

pub const ALL: u8 = 4;

// A maximum: a number or unbounded, which is above every number. No `Option`: document 01 asks for an enum, and unbounded is no absence.
#[derive(Clone, Copy, PartialEq, Eq, PartialOrd, Ord)]
pub enum MaxOccurs {
    Bounded(u32),
    Unbounded,
}

// An occurrence pair.
#[derive(Clone, Copy)]
pub struct Occurs {
    pub min: u32,
    pub max: MaxOccurs,
}

// One record, taken apart. `zero` and `size` are its three zero bytes; a measured tree has its notes there (measured.rt).
#[derive(Clone, Copy)]
pub struct Record {
    pub kind: u8,
    pub leaf: u8,
    pub count: u16,
    // Beside `max`, as the bytes have them; `range` gives the two as one.
    pub unbounded: u8,
    pub zero: u8,
    pub size: u16,
    pub min: u32,
    pub max: u32,
}

// The two bytes at `at`, the lower first. Of each width it is one line, since each integer has its own `from_le_bytes`.
pub fn read_u16(s: &[u8], at: usize) -> u16
    requires { at + 2 ≤ length s.now }
    ensures { result ≡ half s.now at }
{
    u16::from_le_bytes([s[at], s[at + 1]])
}

// The four bytes at `at`, the lowest first.
pub fn read_u32(s: &[u8], at: usize) -> u32
    requires { at + 4 ≤ length s.now }
    ensures { result ≡ word s.now at }
{
    u32::from_le_bytes([s[at], s[at + 1], s[at + 2], s[at + 3]])
}

// The record at the start of t.
pub fn record_at(t: &[u8]) -> Record
    requires { record_size ≤ length t.now }
    ensures { result ≡ record_at t.now }
{
    Record {
        kind: t[AT_KIND],
        leaf: t[AT_LEAF],
        count: read_u16(t, AT_COUNT),
        unbounded: t[AT_UNBOUNDED],
        zero: t[AT_ZERO],
        size: read_u16(t, AT_SIZE),
        min: read_u32(t, AT_MIN),
        max: read_u32(t, AT_MAX),
    }
}

// These bytes at `at`.
fn write(out: &mut [u8], at: usize, bytes: &[u8])
    requires { at + length bytes.now ≤ length out.old }
    ensures { out.new ≡ sets out.old at bytes.now }
{
    out[at..at + bytes.len()].copy_from_slice(bytes);
}

// The record r at `at`.
pub fn write_record(out: &mut [u8], at: usize, r: Record)
    requires { at + record_size ≤ length out.old }
    ensures { out.new ≡ overwrite at (record_bytes r) out.old }
{
    out[at + AT_KIND] = r.kind;
    out[at + AT_LEAF] = r.leaf;
    write(out, at + AT_COUNT, &r.count.to_le_bytes());
    out[at + AT_UNBOUNDED] = r.unbounded;
    out[at + AT_ZERO] = r.zero;
    write(out, at + AT_SIZE, &r.size.to_le_bytes());
    write(out, at + AT_MIN, &r.min.to_le_bytes());
    write(out, at + AT_MAX, &r.max.to_le_bytes());
}

// The item count of the record at `at`.
fn count_at(t: &[u8], at: usize) -> usize
    requires { at + record_size ≤ length t.now }
    ensures { result ≡ (record_at (drop at t.now)).count }
{
    usize::from(read_u16(t, at + AT_COUNT))
}

// The record of a (1,1) sequence of n items.
pub fn sequence_of(n: u16) -> Record
    ensures { result ≡ record_of (sequence (exactly 1)) n }
{
    Record {
        kind: SEQUENCE,
        leaf: 0,
        count: n,
        unbounded: 0,
        zero: 0,
        size: 0,
        min: 1,
        max: 1,
    }
}

// The occurrence pair of a record.
pub fn range(r: Record) -> Occurs
    ensures { result ≡ range_of r }
{
    let max = if r.unbounded == 0 {
        MaxOccurs::Bounded(r.max)
    } else {
        MaxOccurs::Unbounded
    };
    Occurs { min: r.min, max }
}

// Whether d's range is within b's.
pub fn range_ok(d: Occurs, b: Occurs) -> bool
    ensures { result ≡ range_ok d b }
{
    b.min <= d.min && b.max >= d.max
}

// Whether the maximum of r is 0.
pub fn never(r: Record) -> bool
    ensures { result ≡ is_zero (range_of r).max }
{
    range(r).max == MaxOccurs::Bounded(0)
}

// How many records t has.
pub fn record_count(t: &[u8]) -> usize
    ensures { result ≡ length (records t.now) }
{
    t.len() / RECORD_SIZE
}

// The part of t after its first n records.
pub fn skip(t: &[u8], n: usize) -> &[u8]
    requires { n ≤ length (records t.now) }
    ensures { records result.now ≡ drop n (records t.now) }
{
    let at = n * RECORD_SIZE;
    &t[at..]
}

// The steps over bytes, on which the types of subtrees.rt and measured_trees.rt are built: so they ask for a row.
//
// How many bytes the first tree of t takes.
pub fn run_len(t: &[u8]) -> usize
    requires { Row 1 t.now }
    ensures { result ≡ run_size t.now }
{
    let mut at = 0;
    let mut pending = 1;
    // No `for`: how many records there are shows only as they are read, each of which adds its items.
    while pending > 0 {
        pending = pending - 1 + count_at(t, at);
        at += RECORD_SIZE;
    }
    at
}

// The part of t that starts at the first tree's items.
pub fn items(t: &[u8]) -> &[u8]
    requires { Row 1 t.now }
    ensures { result.now ≡ items_part t.now }
{
    &t[RECORD_SIZE..]
}

// The part of t that starts after the first tree.
pub fn later(t: &[u8]) -> &[u8]
    requires { Row 1 t.now }
    ensures { result.now ≡ later_part t.now }
{
    let n = run_len(t);
    &t[n..]
}

// Where the k-th item of the first tree of t starts, from 0.
fn item_start(t: &[u8], k: usize) -> usize
    requires row { Row 1 t.now }
    requires k_bound { k < (record_at t.now).count }
    ensures { ItemAt k t.now result }
{
    let mut at = RECORD_SIZE;
    for _ in 0..k {
        at += run_len(&t[at..]);
    }
    at
}

// The k-th item of the first tree of t: its own part of t.
pub fn item(t: &[u8], k: usize) -> &[u8]
    requires row { Row 1 t.now }
    requires k_bound { k < (record_at t.now).count }
    ensures { PartOf t.entry result (item_start k t.now) (item_run k t.now) }
{
    let at = item_start(t, k);
    let end = at + run_len(&t[at..]);
    &t[at..end]
}
