// Verdicts: the reasons, what the tables say of two leaves, the rules that ask for no items' marks, and base elements taken by name.
#![tactic(auto)]

mod leaves;
mod unordered;

ghost use Rattle.std.specs.Prelude.{◌≡◌};
ghost use Rattle.rules.specs.Combine.{combine_readings};
ghost use Rattle.verdicts.specs.Paper.{paper_reason};
ghost use Rattle.verdicts.specs.Reasons.{reason_number, mark_of, definite_of};

pub use leaves::Paper;
pub use unordered::recurse_unordered;

// A leaf's length in bytes, and where its fields stand: kind at its start, process contents, local name number (16 bits).
pub const LEAF_SIZE: usize = 4;

pub const AT_PROCESS: usize = 1;

pub const AT_NAME: usize = 2;

pub const AT_NAME_HIGH: usize = 3;

// The reasons that a paper sets.
const FIRST_SET: u8 = 140;

const LAST_SET: u8 = 152;

// Why a restriction fails. The number of each, document 01's and document 02's: specs/Reasons.antt.
#[derive(Clone, Copy)]
pub enum Reason {
    ElementWildcardRange,
    WildcardElement,
    WildcardRange,
    WeakerProcessContents,
    SequenceRange,
    ChoiceRange,
    AllRange,
    NotInAll,
    MissingFromAll,
    SequenceRequired,
    NoAlternative,
    ChoiceRequired,
    TotalRange,
    WildcardGroup,
    GroupKind,
    SequenceTotal,
    MemberAlternative,
    SequenceAllRange,
    MemberNotElement,
    NotAllowed,
    RequiredMissing,
    MinBelow,
    MaxUnbounded,
    MaxAbove,
    BaseMayNotOccur,
    // A reason that the paper sets: 140 to 152.
    Set(u8),
}

// Outcome of one comparison: one of three, as the Rust has them, so no `Result` and no `Option`.
#[derive(Clone, Copy)]
pub enum Verdict {
    Ok,
    Unknown,
    Violation(Reason),
}

// A table's verdict by its number: 0 ok, 1 undecided, else a reason that the paper sets.
impl From<u8> for Verdict {
    ghost use Rattle.verdicts.specs.Paper.{verdict_of};

    ghost from_gives = { λ n v. mark_of v ≡ verdict_of n };

    fn from(n: u8) -> Verdict {
        match n {
            0 => Verdict::Ok,
            1 => Verdict::Unknown,
            _ => Verdict::Violation(Reason::Set(n)),
        }
    }
}

// A failure after something undecided is undecided.
pub fn definite(v: Verdict, seen: bool) -> Verdict
    ensures { mark_of result ≡ definite_of seen (mark_of v) }
{
    if seen { Verdict::Unknown } else { v }
}

// Either passing passes; two failures give the first's reason; anything else is undecided.
pub fn combine_readings(a: Verdict, b: Verdict) -> Verdict
    ensures { mark_of result ≡ combine_readings (mark_of a) (mark_of b) }
{
    match (a, b) {
        (Verdict::Ok, _) | (_, Verdict::Ok) => Verdict::Ok,
        (Verdict::Violation(r), Verdict::Violation(_)) => Verdict::Violation(r),
        _ => Verdict::Unknown,
    }
}

// The number of a reason that the paper sets; 0 where n is none.
fn paper_reason(n: u8) -> u32
    ensures { result ≡ paper_reason n }
{
    match n {
        FIRST_SET..=LAST_SET => u32::from(n),
        _ => 0,
    }
}

// The number of a reason.
impl From<Reason> for u32 {
    ghost from_gives = { λ r n. n ≡ reason_number r };

    fn from(r: Reason) -> u32 {
        match r {
            Reason::ElementWildcardRange => 101,
            Reason::WildcardElement => 102,
            Reason::WildcardRange => 103,
            Reason::WeakerProcessContents => 104,
            Reason::SequenceRange => 105,
            Reason::ChoiceRange => 106,
            Reason::AllRange => 107,
            Reason::NotInAll => 108,
            Reason::MissingFromAll => 109,
            Reason::SequenceRequired => 110,
            Reason::NoAlternative => 111,
            Reason::ChoiceRequired => 112,
            Reason::TotalRange => 113,
            Reason::WildcardGroup => 114,
            Reason::GroupKind => 115,
            Reason::SequenceTotal => 116,
            Reason::MemberAlternative => 117,
            Reason::SequenceAllRange => 118,
            Reason::MemberNotElement => 119,
            Reason::NotAllowed => 120,
            Reason::RequiredMissing => 121,
            Reason::MinBelow => 122,
            Reason::MaxUnbounded => 123,
            Reason::MaxAbove => 124,
            Reason::BaseMayNotOccur => 125,
            Reason::Set(n) => paper_reason(n),
        }
    }
}
