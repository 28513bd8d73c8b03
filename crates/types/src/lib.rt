// Type verdicts from a table of types: the verdict for two types, and a sheet's second table filled in from its elements' types. Two
// entries take a table (document 02 §7); the two without one are these at the built-in list (document 02 §6).
#![tactic(auto)]

mod builtin;
mod filling;
mod table;

ghost use Rattle.std.specs.Prelude.{◌≡◌};
ghost use Rattle.types.specs.Builtin.{builtin_parents};
ghost use Rattle.types.specs.Answer.{type_answer, type_meaning, fill_answer, filled_sheet, fill_meaning};

use builtin::BUILTIN_PARENTS;
use filling::Filling;
use intake::{MAX_LEAVES, Refusal};
use table::Table;

// The reason where a type is not derived from the base's.
pub const NOT_DERIVED: u8 = 148;

// The verdict for two types by their rows in a table of types, the number of each row's parent: whether it is ok; else the reason is
// NOT_DERIVED.
#[tactic(auto, unfolding(crate::specs::Answer::type_answer))]
pub fn type_derivation_ok_by(parents: &[u8], derived: u32, base: u32) -> Result<bool, Refusal>
    ensures { type_meaning result ≡ type_answer parents.now derived base }
{
    Table::new(parents)?.derivation_ok(derived as usize, base as usize)
}

// Fills the sheet's second table in, where it has 1 for two elements, from their rows in a table of types, a number for each leaf; every
// other byte keeps its value. On every refusal nothing is written.
#[tactic(auto, using(crate::proofs::Entry::contents_ok_lem, crate::proofs::Entry::contents_whole), unfolding(crate::specs::Answer::fill_answer, crate::specs::Answer::filled_sheet))]
pub fn fill_types_by(sheet: &mut [u8], types: &[u8], parents: &[u8]) -> Result<(), Refusal>
    ensures result_value { fill_meaning result ≡ fill_answer parents.now sheet.old types.now }
    ensures sheet_after { sheet.new ≡ filled_sheet parents.now sheet.old types.now }
{
    let table = Table::new(parents)?;
    sheet::check(sheet)?;
    let n = usize::from(sheet::leaf_count(sheet));
    // Memory is fixed: room for the longest list of kinds, of which n are the sheet's.
    let mut kinds = [0; MAX_LEAVES];
    sheet::leaf_kinds(sheet, &mut kinds);
    Filling::new(table, &kinds[..n], types)?.fill_sheet(sheet);
    Ok(())
}

// The verdict for two built-in types by their numbers.
pub fn type_derivation_ok(derived: u32, base: u32) -> Result<bool, Refusal>
    ensures { type_meaning result ≡ type_answer builtin_parents derived base }
{
    type_derivation_ok_by(&BUILTIN_PARENTS, derived, base)
}

// Fills the sheet's second table in, where it has 1 for two elements, from the built-in types of these numbers, one for each leaf; every
// other byte keeps its value. On every refusal nothing is written.
pub fn fill_types(sheet: &mut [u8], types: &[u8]) -> Result<(), Refusal>
    ensures result_value { fill_meaning result ≡ fill_answer builtin_parents sheet.old types.now }
    ensures sheet_after { sheet.new ≡ filled_sheet builtin_parents sheet.old types.now }
{
    fill_types_by(sheet, types, &BUILTIN_PARENTS)
}
