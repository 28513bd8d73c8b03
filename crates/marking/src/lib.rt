// Mark a sheet: the check, both trees tidied, the mark. Every byte string is an input.
#![tactic(auto)]

mod display;

ghost use Rattle.std.specs.Prelude.{◌≡◌, Ok};
ghost use Rattle.particle.specs.Occurs.{is_zero};
ghost use Rattle.particle.specs.Tree.{pair_of};
ghost use Rattle.particle.specs.MeasuredTrees.{tree_of};
ghost use Rattle.rules.specs.Mark.{early_pass, mark_tidied};
ghost use Rattle.verdicts.specs.Paper.{paper_leaves, paper_tables};
ghost use Rattle.verdicts.specs.Reasons.{mark_of};
ghost use Rattle.entries.specs.Answer.{gives};
ghost use Rattle.sheet.specs.Refused.{sheet_refusal};
ghost use Rattle.sheet.specs.Layout.{derived_part, base_part};
ghost use Rattle.marking.specs.Buffers.{Buffer, BothFit};
ghost use Rattle.marking.specs.Answer.{mark_of_sheet, mark_sheet, mark_meaning, SetInRange};

use intake::Refusal;
use particle::MeasuredTree;
use verdicts::{Paper, Reason, Verdict};

// The length of the longest tree in bytes.
const CAPACITY: usize = particle::RECORD_SIZE * particle::MAX_RECORDS;

// The lengths of a short and of a middling tree in bytes: for these no long buffers are cleared.
const SHORT: usize = 256;

const MIDDLE: usize = 2048;

// What marking a sheet is answered by: a mark's enum holds the reason or the refusal, as document 01 has it.
#[derive(Clone, Copy)]
pub enum MarkAnswer {
    Passes,
    Undecided,
    Fails(Reason),
    Refused(Refusal),
}

impl From<Verdict> for MarkAnswer {
    ghost from_gives = { λ v a. mark_meaning a ≡ gives (mark_of v) };

    fn from(v: Verdict) -> MarkAnswer {
        match v {
            Verdict::Ok => MarkAnswer::Passes,
            Verdict::Unknown => MarkAnswer::Undecided,
            Verdict::Violation(r) => MarkAnswer::Fails(r),
        }
    }
}

// Whether the root of t has maximum 0.
fn never(t: MeasuredTree) -> bool
    ensures { result ≡ is_zero (pair_of (tree_of t.entry).head).max }
{
    particle::never(t.record())
}

// The early pass: the derived root has maximum 0, and the base root has maximum 0 or is emptiable.
fn early_pass(d: MeasuredTree, b: MeasuredTree) -> bool
    ensures { result ≡ early_pass (tree_of d.entry) (tree_of b.entry) }
{
    never(d) && (never(b) || b.emptiable())
}

// The mark of two tidied trees, by a paper's leaves and tables.
#[tactic(auto, unfolding(rules::specs::Mark::mark_tidied))]
fn mark_tidied(d: MeasuredTree, b: MeasuredTree, paper: &Paper) -> Verdict
    ensures { mark_of result ≡ mark_tidied (paper_leaves paper.now) (paper_tables paper.now) (tree_of d.entry) (tree_of b.entry) }
{
    if early_pass(d, b) {
        return Verdict::Ok;
    }
    restriction::restrict(d, false, b, false, paper)
}

// A sheet that the check accepts.
#[derive(Clone, Copy)]
struct Accepted<'a> {
    bytes: &'a [u8],
    ghost accepted: { sheet_refusal bytes.now ≡ Ok tt },
}

impl Accepted<'_> {
    // The mark: both trees are tidied and measured first, in the buffers.
    #[tactic(auto, using(crate::proofs::Marking::contents_ok_lem, crate::proofs::Marking::contents_whole))]
    fn mark_in(self, derived: &mut [u8], base: &mut [u8]) -> Verdict
        requires derived_buffer { Buffer (derived_part self.bytes.now) derived.old }
        requires base_buffer { Buffer (base_part self.bytes.now) base.old }
        ensures { mark_of result ≡ mark_of_sheet self.entry.bytes.now }
    {
        let s = self.bytes;
        let d = tidying::normalize_in(sheet::derived(s), derived);
        let b = tidying::normalize_in(sheet::base(s), base);
        particle::measure(&mut derived[..d]);
        particle::measure(&mut base[..b]);
        let derived = MeasuredTree {
            bytes: &derived[..d],
        };
        let base = MeasuredTree { bytes: &base[..b] };
        let paper = Paper {
            leaves: sheet::leaves(s),
            tables: sheet::tables(s),
            n: sheet::leaf_count(s),
        };
        mark_tidied(derived, base, &paper)
    }

    // The same, with buffers of its own, of N bytes.
    fn mark_with<const N: usize>(self) -> Verdict
        requires { BothFit self.bytes.now N }
        ensures { mark_of result ≡ mark_of_sheet self.entry.bytes.now }
    {
        let mut derived = [0u8; N];
        let mut base = [0u8; N];
        self.mark_in(&mut derived, &mut base)
    }

    // The same, with buffers as long as the trees ask for.
    #[tactic(auto, using(crate::proofs::Marking::contents_ok_lem))]
    fn verdict(self) -> Verdict
        ensures { mark_of result ≡ mark_of_sheet self.entry.bytes.now }
    {
        match sheet::derived(self.bytes)
            .len()
            .max(sheet::base(self.bytes).len())
        {
            ..=SHORT => self.mark_with::<SHORT>(),
            ..=MIDDLE => self.mark_with::<MIDDLE>(),
            _ => self.mark_with::<CAPACITY>(),
        }
    }
}

// The mark of the sheet s, or its refusal.
#[tactic(auto, unfolding(crate::specs::Answer::mark_sheet))]
pub fn mark(s: &[u8]) -> MarkAnswer
    ensures result_value { mark_meaning result ≡ mark_sheet s.now }
    ensures set_in_range { SetInRange result }
{
    match sheet::check(s) {
        Ok(()) => MarkAnswer::from(Accepted { bytes: s }.verdict()),
        Err(r) => MarkAnswer::Refused(r),
    }
}
