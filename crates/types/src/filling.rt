// The second table of a sheet filled in, row by row, from the types of its elements.
ghost use Rattle.std.specs.Prelude.{◌≡◌, true, false, not, ◌||◌, ◌*◌, ◌≤◌, ◌<◌, length, slice_index, MatchResult};
ghost use Rattle.sheet.specs.Refused.{contents_ok};
ghost use Rattle.types.specs.Derives.{has_type, type_verdict};
ghost use Rattle.types.specs.Fill.{is_element, types_ok, fill_verdict, fill_row, fill_rows, leaf_kinds, fill_sheet};

use crate::NOT_DERIVED;
use crate::table::Table;
use intake::Refusal;

// Verdicts are bytes of the sheet, as docs/LAYOUT.md has them; NOT_DERIVED is the third.
const OK: u8 = 0;

const UNDECIDED: u8 = 1;

// By what a sheet is filled in: an accepted table of types, and the kind and the type number of each leaf, an element's in the table.
#[derive(Clone, Copy)]
pub struct Filling<'a> {
    table: Table<'a>,
    kinds: &'a [u8],
    types: &'a [u8],
    ghost types_fit: { types_ok table.parents.now kinds.now types.now ≡ true },
}

impl<'a> Filling<'a> {
    // The filling by these, if there is one type number for each leaf, and each element's is in the table.
    pub fn new(table: Table<'a>, kinds: &'a [u8], types: &'a [u8]) -> Result<Self, Refusal>
        ensures { MatchResult result (λ f. (f.table.parents.now ≡ table.entry.parents.now) × (f.kinds.now ≡ kinds.now) × (f.types.now ≡ types.now)) (λ r. (r ≡ Refusal.TypeNumber) × (types_ok table.entry.parents.now kinds.now types.now ≡ false)) }
    {
        if types_ok(&table, kinds, types) {
            Ok(Filling {
                table,
                kinds,
                types,
            })
        } else {
            Err(Refusal::TypeNumber)
        }
    }

    // The verdict for the types of two leaves, the row's as derived and the column's as base.
    fn verdict(&self, l: usize, m: usize) -> u8
        requires { (l < length self.now.kinds.now) × (m < length self.now.kinds.now) }
        ensures { result ≡ type_verdict self.now.table.parents.now (slice_index self.now.types.now l) (slice_index self.now.types.now m) }
    {
        let derived = usize::from(self.types[l]);
        let base = usize::from(self.types[m]);
        if self.table.verdict_ok(derived, base) {
            OK
        } else {
            NOT_DERIVED
        }
    }

    // The verdict v of the row l and the column m, filled in.
    fn filled(&self, l: usize, m: usize, v: u8) -> u8
        requires { (l < length self.now.kinds.now) × (m < length self.now.kinds.now) }
        ensures { result ≡ fill_verdict self.now.table.parents.now self.now.kinds.now self.now.types.now l m v }
    {
        if v == UNDECIDED
            && self.kinds[l] == particle::ELEMENT
            && self.kinds[m] == particle::ELEMENT
        {
            self.verdict(l, m)
        } else {
            v
        }
    }

    // The row l of the second table.
    fn fill_row(&self, row: &mut [u8], l: usize)
        requires { (l < length self.now.kinds.now) × (length row.old ≤ length self.now.kinds.now) }
        ensures { row.new ≡ fill_row (fill_verdict self.now.table.parents.now self.now.kinds.now self.now.types.now l) 0 row.old }
    {
        for (m, v) in row.iter_mut().enumerate() {
            *v = self.filled(l, m, *v);
        }
    }

    // The whole second table, of as many rows and columns as there are leaves.
    fn fill_second(&self, second: &mut [u8])
        requires { length second.old ≡ length self.now.kinds.now * length self.now.kinds.now }
        ensures { second.new ≡ fill_rows (fill_verdict self.now.table.parents.now self.now.kinds.now self.now.types.now) (length self.now.kinds.now) 0 (length self.now.kinds.now) second.old }
    {
        let n = self.kinds.len();
        // By range: a proof would know no element of what `chunks_exact_mut` lent.
        for l in 0..n {
            let at = l * n;
            self.fill_row(&mut second[at..at + n], l);
        }
    }

    // The sheet's second table, in place.
    pub fn fill_sheet(&self, sheet: &mut [u8])
        requires contents { contents_ok sheet.old ≡ true }
        requires kinds { self.now.kinds.now ≡ leaf_kinds sheet.old }
        ensures { sheet.new ≡ fill_sheet self.now.table.parents.now sheet.old self.now.types.now }
    {
        let start = sheet::second_at(sheet);
        let end = sheet::second_end(sheet);
        self.fill_second(&mut sheet[start..end]);
    }
}

// Whether an element's type is in the table; a wildcard's number is not read.
fn type_ok(table: &Table, kind: u8, t: u8) -> bool
    ensures { result ≡ (not (is_element kind) || has_type table.now.parents.now t) }
{
    kind != particle::ELEMENT || table.has_type(usize::from(t))
}

// Whether there is one type number for each leaf, and each element's is in the table.
fn types_ok(table: &Table, kinds: &[u8], types: &[u8]) -> bool
    ensures { result ≡ types_ok table.now.parents.now kinds.now types.now }
{
    types.len() == kinds.len()
        && kinds
            .iter()
            .zip(types)
            .all(|(kind, t)| type_ok(table, *kind, *t))
}
