// The sheet's layout: the contents, and the bodies as parts of the caller's bytes. Nothing else in the code says it.
ghost use Rattle.std.specs.Prelude.{◌≡◌, true, ◌*◌, ◌^◌, ◌≤◌, ◌<◌, length};
ghost use Rattle.particle.specs.Record.{record_size};
ghost use Rattle.sheet.specs.Layout.{contents_size, leaf_count, derived_count, base_count, zero_byte, total_field, tables_at, second_at, derived_at, base_at, total_of, leaves_part, tables_part, derived_part, base_part};
ghost use Rattle.sheet.specs.Refused.{counts_ok, contents_ok};

use intake::MAX_LEAVES;
use particle::{MAX_RECORDS, RECORD_SIZE};
use verdicts::LEAF_SIZE;

// The length of the contents in bytes.
const CONTENTS_SIZE: usize = 8;

// Each field asks for the contents' length alone: it is read before the contents are found in order, and by other crates one by one.
//
// How many leaves the sheet has.
pub fn leaf_count(s: &[u8]) -> u8
    requires { contents_size ≤ length s.now }
    ensures { result ≡ leaf_count s.now }
{
    s[0]
}

fn zero_byte(s: &[u8]) -> u8
    requires { contents_size ≤ length s.now }
    ensures { result ≡ zero_byte s.now }
{
    s[1]
}

// How many records the derived tree has.
fn derived_count(s: &[u8]) -> u16
    requires { contents_size ≤ length s.now }
    ensures { result ≡ derived_count s.now }
{
    particle::read_u16(s, 2)
}

// How many records the base tree has.
fn base_count(s: &[u8]) -> u16
    requires { contents_size ≤ length s.now }
    ensures { result ≡ base_count s.now }
{
    particle::read_u16(s, 4)
}

fn total_field(s: &[u8]) -> usize
    requires { contents_size ≤ length s.now }
    ensures { result ≡ total_field s.now }
{
    usize::from(particle::read_u16(s, 6))
}

// Where the tables start.
fn tables_at(n: u8) -> usize
    ensures { result ≡ tables_at n }
{
    CONTENTS_SIZE + LEAF_SIZE * usize::from(n)
}

fn square(n: u8) -> usize
    ensures { (result ≡ n * n) × (result < 65536) }
{
    usize::from(n) * usize::from(n)
}

// Where the second table starts.
fn second_start(n: u8) -> usize
    ensures { result ≡ second_at n }
{
    tables_at(n) + square(n)
}

// Where the derived tree starts.
fn derived_at(n: u8) -> usize
    ensures { (result ≡ derived_at n) × (result < 2 ^ 18) }
{
    tables_at(n) + 2 * square(n)
}

// How many bytes so many records take.
fn records_len(records: u16) -> usize
    ensures { (result ≡ record_size * records) × (result < 2 ^ 20) }
{
    RECORD_SIZE * usize::from(records)
}

// Where the base tree starts.
fn base_at(n: u8, d: u16) -> usize
    ensures { (result ≡ base_at n d) × (result < 2 ^ 21) }
{
    derived_at(n) + records_len(d)
}

// Where the base tree ends: the total length.
fn total_of(n: u8, d: u16, b: u16) -> usize
    ensures { result ≡ total_of n d b }
{
    base_at(n, d) + records_len(b)
}

// Whether each count is in its range.
fn counts_ok(s: &[u8]) -> bool
    requires { contents_size ≤ length s.now }
    ensures { result ≡ counts_ok s.now }
{
    (1..=MAX_LEAVES).contains(&usize::from(leaf_count(s)))
        && (1..=MAX_RECORDS).contains(&usize::from(derived_count(s)))
        && (1..=MAX_RECORDS).contains(&usize::from(base_count(s)))
}

// Whether the contents are in order, and the sheet is as long as they say.
pub fn contents_ok(s: &[u8]) -> bool
    ensures { result ≡ contents_ok s.now }
{
    if s.len() < CONTENTS_SIZE {
        return false;
    }
    let total = total_of(leaf_count(s), derived_count(s), base_count(s));
    counts_ok(s) && zero_byte(s) == 0 && total_field(s) == total && s.len() == total
}

// Each part requires contents in order: with a struct that holds this, the check's contract would be no equation with `sheet_refusal`.

// The leaves.
pub fn leaves(s: &[u8]) -> &[u8]
    requires { contents_ok s.now ≡ true }
    ensures { result.now ≡ leaves_part s.now }
{
    let end = tables_at(leaf_count(s));
    &s[CONTENTS_SIZE..end]
}

// Both tables, the first before the second.
pub fn tables(s: &[u8]) -> &[u8]
    requires { contents_ok s.now ≡ true }
    ensures { result.now ≡ tables_part s.now }
{
    let n = leaf_count(s);
    let start = tables_at(n);
    let end = derived_at(n);
    &s[start..end]
}

// Where the second table starts and where it ends, for a caller that writes it.
pub fn second_at(s: &[u8]) -> usize
    requires { contents_ok s.now ≡ true }
    ensures { result ≡ second_at (leaf_count s.now) }
{
    second_start(leaf_count(s))
}

pub fn second_end(s: &[u8]) -> usize
    requires { contents_ok s.now ≡ true }
    ensures { result ≡ derived_at (leaf_count s.now) }
{
    derived_at(leaf_count(s))
}

// The derived tree.
pub fn derived(s: &[u8]) -> &[u8]
    requires { contents_ok s.now ≡ true }
    ensures { result.now ≡ derived_part s.now }
{
    let n = leaf_count(s);
    let start = derived_at(n);
    let end = base_at(n, derived_count(s));
    &s[start..end]
}

// The base tree.
pub fn base(s: &[u8]) -> &[u8]
    requires { contents_ok s.now ≡ true }
    ensures { result.now ≡ base_part s.now }
{
    let start = base_at(leaf_count(s), derived_count(s));
    &s[start..]
}
