// The entries for one tree: its total range, whether it is emptiable, the tidied tree, and the k-th item of its root. Every byte string
// is an input.
#![tactic(auto)]

ghost use Rattle.std.specs.Prelude.{◌≡◌, MatchResult, OnOk, IsErrAnd};
ghost use Rattle.particle.specs.Tree.{tree};
ghost use Rattle.particle.specs.Rows.{Row, PartOf};
ghost use Rattle.particle.specs.Empty.{emptiable};
ghost use Rattle.totals.specs.Total.{total};
ghost use Rattle.intake.specs.declared.Refusal.TheVariants.{Derived};
ghost use Rattle.entries.specs.Answer.{answer, meaning, refusal_alone};
ghost use Rattle.entries.specs.TidyAnswer.{tidy_answer, tidy_buffer};
ghost use Rattle.entries.specs.ItemAnswer.{item_place, item_bytes};

use intake::Refusal;
use particle::Subtree;
use totals::TotalRange;

// The check of a tree alone.
fn check(t: &[u8]) -> Result<(), Refusal>
    ensures found { MatchResult result (λ _. refusal_alone t.now ≡ Ok tt) (λ r. IsErrAnd (refusal_alone t.now) (λ f. r ≡ Derived f)) }
    ensures row { OnOk result (Row 1 t.now) }
{
    intake::check_alone(t).map_err(Refusal::Derived)
}

// The total range of the tree t, as handed in.
pub fn total_range(t: &[u8]) -> Result<TotalRange, Refusal>
    ensures { meaning result ≡ answer (refusal_alone t.now) (total (tree t.now)) }
{
    check(t)?;
    Ok(totals::effective_total_range(t, false))
}

// Whether the tree t, as handed in, is emptiable.
pub fn emptiable(t: &[u8]) -> Result<bool, Refusal>
    ensures { meaning result ≡ answer (refusal_alone t.now) (emptiable (tree t.now)) }
{
    check(t)?;
    Ok(particle::emptiable(Subtree { bytes: t }))
}

// Tidies the tree t into out, from out's start, and gives the tidied tree's record count; every later byte keeps its value. Refused, and
// nothing written, where t is refused or out is shorter than t.
#[tactic(auto, using(crate::proofs::Alone::whole_faithful, crate::proofs::Alone::whole_few), unfolding(crate::specs::TidyAnswer::tidy_answer, crate::specs::TidyAnswer::tidy_buffer))]
pub fn tidy(t: &[u8], out: &mut [u8]) -> Result<usize, Refusal>
    ensures result_value { meaning result ≡ tidy_answer t.now out.old }
    ensures out_after { out.new ≡ tidy_buffer t.now out.old }
{
    check(t)?;
    if out.len() < t.len() {
        return Err(Refusal::Buffer);
    }
    Ok(tidying::normalize(t, out))
}

// The k-th item of the root of t, from 0: its own part of t. Empty where t is refused or k is not below the item count.
#[tactic(auto, unfolding(crate::specs::ItemAnswer::item_bytes, crate::specs::ItemAnswer::item_place))]
pub fn item(t: &[u8], k: usize) -> &[u8]
    ensures { PartOf t.entry result (item_place k t.now) (item_bytes k t.now) }
{
    let Ok(()) = check(t) else {
        return &t[..0];
    };
    let n = usize::from(particle::record_at(t).count);
    if n <= k {
        return &t[..0];
    }
    particle::item(t, k)
}
