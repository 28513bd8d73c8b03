// The layout of a chain: how many levels it has, their record counts, and the part with their trees. Nothing else in the code says it.
ghost use Rattle.std.specs.Prelude.{◌≡◌, true, [], ◌∷◌, ◌+◌, ◌^◌, ◌≤◌, ◌<◌, length, drop};
ghost use Rattle.chain.specs.Layout.{level_count, count_size, count_in, count_at, counts, sum, trees_part};
ghost use Rattle.chain.specs.Answer.{chain_ok};
ghost use Rattle.chain.specs.Nested.{present_in};

use particle::RECORD_SIZE;

// A chain has at most so many levels.
const MAX_LEVELS: usize = 17;

// The length of the number of levels, and of a record count, in bytes.
const LEVELS_SIZE: usize = 1;

const COUNT_SIZE: usize = 2;

// How many trees a chain has, and how many records these have.
#[derive(Clone, Copy)]
pub struct Content {
    pub trees: usize,
    pub records: usize,
}

// How many levels the chain has.
pub fn level_count(c: &[u8]) -> usize
    requires { 1 ≤ length c.now }
    ensures { (result ≡ level_count c.now) × (result < 256) }
{
    usize::from(c[0])
}

// Where the count of the level i stands, from 0; after the last level, where the trees start.
fn count_at(i: usize) -> usize
    requires { i < 256 }
    ensures { result ≡ count_at i }
{
    LEVELS_SIZE + COUNT_SIZE * i
}

// The record count of the level i, from 0.
pub fn count(c: &[u8], i: usize) -> usize
    requires i_bound { i < 256 }
    requires count_size_in_bounds { count_at i + count_size ≤ length c.now }
    ensures { (result ≡ count_in (drop (count_at i) c.now)) × (result < 65536) }
{
    usize::from(particle::read_u16(c, count_at(i)))
}

// How many trees and records the counts give.
pub fn contained(c: &[u8]) -> Content
    requires { count_at (level_count c.now) ≤ length c.now }
    ensures trees_value { (result.trees ≡ present_in (counts c.now)) × (result.records ≡ sum (counts c.now)) }
    ensures trees_bound { (result.trees < 256) × (result.records < 2 ^ 24) }
{
    let mut all = Content {
        trees: 0,
        records: 0,
    };
    for i in 0..level_count(c) {
        let n = count(c, i);
        all.trees += usize::from(n != 0);
        all.records += n;
    }
    all
}

// Whether the chain has 1 to MAX_LEVELS levels, and the length that their counts give.
#[tactic(auto, unfolding(crate::specs::Answer::chain_ok))]
pub fn chain_ok(c: &[u8]) -> bool
    ensures { result ≡ chain_ok c.now }
{
    if c.len() < LEVELS_SIZE {
        return false;
    }
    let n = level_count(c);
    let start = count_at(n);
    1 <= n
        && n <= MAX_LEVELS
        && start <= c.len()
        && c.len() == start + RECORD_SIZE * contained(c).records
}

// The part of the chain with its trees.
pub fn trees(c: &[u8]) -> &[u8]
    requires { chain_ok c.now ≡ true }
    ensures { result.now ≡ trees_part c.now }
{
    let start = count_at(level_count(c));
    &c[start..]
}
