// The entries for programs in C and Rust: numbers and byte slices only. Each is over the proved entry of its name; `exports_c` has them as C functions.
#![tactic(auto)]

ghost use Rattle.std.specs.Prelude.{◌≡◌, ◌+◌, length};
ghost use Rattle.particle.specs.Tree.{tree};
ghost use Rattle.particle.specs.Empty.{emptiable};
ghost use Rattle.totals.specs.Total.{total};
ghost use Rattle.intake.specs.Number.{refusal_number};
ghost use Rattle.entries.specs.Answer.{answer, refusal_alone};
ghost use Rattle.entries.specs.ItemAnswer.{item_bytes};
ghost use Rattle.entries.specs.TidyAnswer.{tidy_answer, tidy_buffer};
ghost use Rattle.chain.specs.Answer.{chain_answer, chain_buffer};
ghost use Rattle.marking.specs.Answer.{mark_sheet};
ghost use Rattle.types.specs.Builtin.{builtin_parents};
ghost use Rattle.types.specs.Answer.{type_meaning, type_answer, fill_meaning, fill_answer, filled_sheet};
ghost use Rattle.exports.specs.Numbers.{beyond, mark_number, total_min_number, total_max_number, min_number, max_number, emptiable_number, count_number, joined_number, verdict_number, filled_number, written};

use intake::Refusal;
use marking::MarkAnswer;
use totals::{TotalMax, TotalMin};

// 2 to the power 32: no exact minimum and no bounded maximum reaches it.
const BEYOND: u64 = 4294967296;

// 2 to the power 33: no refusal's number reaches it either.
const TOO_LARGE: u64 = 8589934592;

// What is added to a refusal's number in place of a mark.
const REFUSED: u32 = 1000;

// A refusal in place of a mark, a verdict or a filling.
fn refused32(r: Refusal) -> u32
    ensures { result ≡ 1000 + refusal_number r }
{
    REFUSED + u32::from(r)
}

// A refusal in place of a total or a record count.
fn refused64(r: Refusal) -> u64
    ensures { result ≡ beyond + refusal_number r }
{
    BEYOND + u64::from(u32::from(r))
}

// The mark of the sheet: 0 passes, 1 undecided, the reason's number where it fails, or 1000 + N where the sheet is refused with N.
pub fn marker_mark(s: &[u8]) -> u32
    ensures { result ≡ mark_number (mark_sheet s.now) }
{
    match marking::mark(s) {
        MarkAnswer::Passes => 0,
        MarkAnswer::Undecided => 1,
        MarkAnswer::Fails(r) => u32::from(r),
        MarkAnswer::Refused(r) => refused32(r),
    }
}

// No `From`: neither type is this crate's.
fn total_min_number(m: TotalMin) -> u64
    ensures { result ≡ total_min_number m }
{
    match m {
        TotalMin::Exact(n) => u64::from(n),
        TotalMin::TooLarge => TOO_LARGE,
    }
}

fn total_max_number(m: TotalMax) -> u64
    ensures { result ≡ total_max_number m }
{
    match m {
        TotalMax::Bounded(n) => u64::from(n),
        TotalMax::TooLarge => TOO_LARGE,
        TotalMax::Unbounded => BEYOND,
    }
}

// The least number of the tree's total range, 2^33 where it is too large, or 2^32 + N where the tree is refused with N.
pub fn marker_total_min(t: &[u8]) -> u64
    ensures { result ≡ min_number (answer (refusal_alone t.now) (total (tree t.now))) }
{
    entries::total_range(t).map_or_else(refused64, |range| total_min_number(range.min))
}

// The greatest number of the tree's total range, 2^33 where it is too large, 2^32 where it is unbounded, or 2^32 + N where the tree is
// refused with N.
pub fn marker_total_max(t: &[u8]) -> u64
    ensures { result ≡ max_number (answer (refusal_alone t.now) (total (tree t.now))) }
{
    entries::total_range(t).map_or_else(refused64, |range| total_max_number(range.max))
}

// 1 where the tree is emptiable, 0 where it is not, or N where it is refused with N.
pub fn marker_emptiable(t: &[u8]) -> u32
    ensures { result ≡ emptiable_number (answer (refusal_alone t.now) (emptiable (tree t.now))) }
{
    match entries::emptiable(t) {
        Ok(true) => 1,
        Ok(false) => 0,
        Err(r) => u32::from(r),
    }
}

// The record count of the tidied tree, which is written to the start of out, or 2^32 + N where it is refused with N and nothing is
// written; every other byte of out keeps its value.
pub fn marker_tidy(t: &[u8], out: &mut [u8]) -> u64
    ensures value { result ≡ count_number (tidy_answer t.now out.old) }
    ensures out_after { out.new ≡ tidy_buffer t.now out.old }
{
    entries::tidy(t, out).map_or_else(refused64, |records| records as u64)
}

// The record count of the chain's joined tree, which is written to the start of out, 0 where no level has content, or 2^32 + N where it
// is refused with N; without a joined tree nothing is written, and every other byte of out keeps its value.
pub fn marker_effective_particle(chain: &[u8], out: &mut [u8]) -> u64
    ensures value { result ≡ joined_number (chain_answer chain.now out.old) }
    ensures out_after { out.new ≡ chain_buffer chain.now out.old }
{
    match chain::effective_particle(chain, out) {
        Ok(Some(records)) => records as u64,
        Ok(None) => 0,
        Err(r) => refused64(r),
    }
}

fn verdict_number(verdict: Result<bool, Refusal>) -> u32
    ensures { result ≡ verdict_number (type_meaning verdict) }
{
    match verdict {
        Ok(true) => 0,
        Ok(false) => u32::from(types::NOT_DERIVED),
        Err(r) => refused32(r),
    }
}

fn filled_number(filled: Result<(), Refusal>) -> u32
    ensures { result ≡ filled_number (fill_meaning filled) }
{
    match filled {
        Ok(()) => 0,
        Err(r) => refused32(r),
    }
}

// The verdict for two built-in types by their numbers: 0 ok, 148 where the derived is neither the base nor derived from it, or 1000 + N
// where it is refused with N, 17.
pub fn marker_type_derivation_ok(derived: u32, base: u32) -> u32
    ensures { result ≡ verdict_number (type_answer builtin_parents derived base) }
{
    verdict_number(types::type_derivation_ok(derived, base))
}

// The same for two types of a table of types, which has the number of each row's parent: 0, 148, or 1000 + N where it is refused with N,
// 18 for the table, then 17.
pub fn marker_type_derivation_ok_by(parents: &[u8], derived: u32, base: u32) -> u32
    ensures { result ≡ verdict_number (type_answer parents.now derived base) }
{
    verdict_number(types::type_derivation_ok_by(parents, derived, base))
}

// 0 where the sheet's second table is filled in from the types of its elements, by a number for each leaf, or 1000 + N where it is
// refused with N and nothing is written. Only what is 1 for two elements changes; every other byte of s keeps its value.
pub fn marker_fill_types(s: &mut [u8], numbers: &[u8]) -> u32
    ensures value { result ≡ filled_number (fill_answer builtin_parents s.old numbers.now) }
    ensures s_after { s.new ≡ filled_sheet builtin_parents s.old numbers.now }
{
    filled_number(types::fill_types(s, numbers))
}

// The same by a table of types in place of the built-in list; 18 for the table comes before every other refusal.
pub fn marker_fill_types_by(s: &mut [u8], numbers: &[u8], parents: &[u8]) -> u32
    ensures value { result ≡ filled_number (fill_answer parents.now s.old numbers.now) }
    ensures s_after { s.new ≡ filled_sheet parents.now s.old numbers.now }
{
    filled_number(types::fill_types_by(s, numbers, parents))
}

// The length in bytes of the root's k-th item, 0 where the tree is refused or k is not below the item count. The item's bytes are
// written to the start of out where they fit; every other byte of out keeps its value.
pub fn marker_item(t: &[u8], k: usize, out: &mut [u8]) -> usize
    ensures value { result ≡ length (item_bytes k t.now) }
    ensures out_after { out.new ≡ written (item_bytes k t.now) out.old }
{
    let it = entries::item(t, k);
    let n = it.len();
    if n <= out.len() {
        out[..n].copy_from_slice(it);
    }
    n
}
