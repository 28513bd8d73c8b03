// A table of types: its check (document 02 §7), and the verdict for two of its types (document 02 §6).
ghost use Rattle.std.specs.Prelude.{◌≡◌, true, false, ◌&&◌, ◌||◌, leb, MatchResult};
ghost use Rattle.types.specs.Derives.{any_simple_type, has_type, parent_of, derives, type_verdict};
ghost use Rattle.types.specs.Table.{row_ok, rows_ok, table_ok};
ghost use Rattle.types.specs.Answer.{type_or, type_meaning};

use intake::Refusal;

// A table has at most so many rows.
const MOST_TYPES: usize = 200;

// A base of a number up to this is ok for every type.
const ANY_SIMPLE_TYPE: usize = 1;

// An accepted table of types: the number of each row's parent.
#[derive(Clone, Copy)]
pub struct Table<'a> {
    parents: &'a [u8],
    ghost accepted: { table_ok parents.now ≡ true },
}

impl<'a> Table<'a> {
    // The table of these parents, if it is accepted.
    pub fn new(parents: &'a [u8]) -> Result<Self, Refusal>
        ensures { MatchResult result (λ t. t.parents.now ≡ parents.now) (λ r. (r ≡ Refusal.TypeTable) × (table_ok parents.now ≡ false)) }
    {
        if table_ok(parents) {
            Ok(Table { parents })
        } else {
            Err(Refusal::TypeTable)
        }
    }

    // Whether the table has a type of this number.
    pub fn has_type(&self, t: usize) -> bool
        ensures { result ≡ has_type self.now.parents.now t }
    {
        t < self.parents.len()
    }

    // The number of the parent; 0 where the table has no such type.
    fn parent_of(&self, t: usize) -> usize
        ensures { result ≡ parent_of self.now.parents.now t }
    {
        self.parents.get(t).map_or(0, |parent| usize::from(*parent))
    }

    // Whether base is derived or one of its ancestors. Numbers fall along a chain, so one that is not above the base ends the walk.
    fn derives(&self, derived: usize, base: usize) -> bool
        ensures { result ≡ derives self.now.parents.now derived base }
    {
        // No count: each turn goes on to the parent.
        let mut current = derived;
        while base < current {
            current = self.parent_of(current);
        }
        current == base
    }

    // Whether the verdict for two types is ok.
    pub fn verdict_ok(&self, derived: usize, base: usize) -> bool
        ensures { result ≡ (leb base any_simple_type || derives self.now.parents.now derived base) }
    {
        base <= ANY_SIMPLE_TYPE || self.derives(derived, base)
    }

    // The same of any two numbers, if the table has both.
    pub fn derivation_ok(&self, derived: usize, base: usize) -> Result<bool, Refusal>
        ensures { type_meaning result ≡ type_or (has_type self.now.parents.now derived && has_type self.now.parents.now base) (type_verdict self.now.parents.now derived base) }
    {
        if self.has_type(derived) & self.has_type(base) {
            Ok(self.verdict_ok(derived, base))
        } else {
            Err(Refusal::TypeNumber)
        }
    }
}

// Whether a row has a parent that is in order: row 0 is its own, and a later row has an earlier one.
fn row_ok(row: usize, parent: u8) -> bool
    ensures { result ≡ row_ok row parent }
{
    let parent = usize::from(parent);
    if row == 0 { parent == 0 } else { parent < row }
}

// Whether each row is in order.
fn rows_ok(parents: &[u8]) -> bool
    ensures { result ≡ rows_ok 0 parents.now }
{
    parents
        .iter()
        .enumerate()
        .all(|(row, parent)| row_ok(row, *parent))
}

// Whether a table is accepted: 1 to 200 rows, and each is in order.
fn table_ok(parents: &[u8]) -> bool
    ensures { result ≡ table_ok parents.now }
{
    (1..=MOST_TYPES).contains(&parents.len()) && rows_ok(parents)
}
