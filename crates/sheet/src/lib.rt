// The exam sheet: its check, and its parts.
#![tactic(auto)]

mod bodies;
mod layout;

ghost use Rattle.std.specs.Prelude.{◌≡◌, true, ◌≤◌, length, take};
ghost use Rattle.intake.specs.Limits.{max_leaves};
ghost use Rattle.intake.specs.Scan.{listed};
ghost use Rattle.sheet.specs.Layout.{leaf_count, leaf_list};
ghost use Rattle.sheet.specs.Refused.{contents_ok, kinds_of, trees_refusal, sheet_refusal};

use intake::Refusal;
pub use layout::{base, derived, leaf_count, leaves, second_at, second_end, tables};

// The first refusal of the trees, whose leaves are of these kinds: the base tree's before the derived tree's.
fn check_trees(s: &[u8], kinds: &[u8]) -> Result<(), Refusal>
    requires { contents_ok s.now ≡ true }
    ensures { result ≡ trees_refusal (listed kinds.now) s.now }
{
    intake::check_tree(layout::base(s), kinds).map_err(Refusal::Base)?;
    intake::check_tree(layout::derived(s), kinds).map_err(Refusal::Derived)
}

// The kinds of the sheet's leaves, at the start of out.
pub fn leaf_kinds(s: &[u8], out: &mut [u8])
    requires in_order { contents_ok s.now ≡ true }
    requires room { max_leaves ≤ length out.old }
    ensures { take (leaf_count s.now) out.new ≡ kinds_of (leaf_list s.now) }
{
    bodies::read_leaves(layout::leaves(s), usize::from(leaf_count(s)), out);
}

// The first refusal of a sheet. Every byte string is an input.
#[tactic(auto, unfolding(crate::specs::Refused::sheet_refusal))]
pub fn check(s: &[u8]) -> Result<(), Refusal>
    ensures { result ≡ sheet_refusal s.now }
{
    if !layout::contents_ok(s) {
        return Err(Refusal::Contents);
    }
    let n = usize::from(leaf_count(s));
    // Memory is fixed: room for the longest list of kinds, of which n are the sheet's.
    let mut kinds = [0; intake::MAX_LEAVES];
    if !bodies::read_leaves(layout::leaves(s), n, &mut kinds) {
        return Err(Refusal::Leaf);
    }
    if !bodies::verdicts_ok(tables(s)) {
        return Err(Refusal::Verdict);
    }
    check_trees(s, &kinds[..n])
}
