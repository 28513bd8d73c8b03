// Replays the stored answers, the file `stdin` of this crate, which `compare/run store` writes. Prints a line for each of the first
// differences, then how many answers agreed: `N agreed, M differ`. The closing line also says where the input is cut off or has an
// operation that is unknown.
//
// Standard input is one case after another. A case has a head of 15 bytes, its numbers little-endian: the operation (8 bits), k (16), the
// length of its input, which is a sheet, a tree, a chain, type numbers or a table of types (16), the length of the lent buffer (16), the
// answer (64). Then come the input, the buffer before the call, and the buffer after it. The operations, and the entry that each of them
// asks, in the numbers of crates/exports:
//   1  marker_mark, over marking::mark
//   2  marker_total_min, over entries::total_range
//   3  marker_total_max, over entries::total_range
//   4  marker_emptiable, over entries::emptiable
//   5  marker_tidy, over entries::tidy
//   6  marker_item, over entries::item: the k-th item
//   7  marker_effective_particle, over chain::effective_particle
//   8  marker_type_derivation_ok, over types::type_derivation_ok: k's lower byte is the derived type, its higher byte the base's; there is
//      no input
//   9  marker_fill_types, over types::fill_types: the input is the type numbers, the lent buffer the sheet
//   10 marker_type_derivation_ok_by, over types::type_derivation_ok_by: the types as in 8; the input is the table of types
//   11 marker_fill_types_by, over types::fill_types_by: the input is k type numbers and then the table of types, the lent buffer the sheet
#![tactic(auto)]

ghost use Rattle.std.specs.Prelude.{◌≡◌, ◌+◌, ◌*◌, ◌^◌, take, drop, IfSome};
ghost use Rattle.particle.specs.Record.{half, word};
ghost use Rattle.types.specs.Answer.{fill_answer, filled_sheet};
ghost use Rattle.exports.specs.Numbers.{filled_number};
ghost use Rattle.replay.specs.Expected.{number_of, buffer_of, Agrees};

use std::io::Read;
use std::{fmt, io};
use streams::ROOM;

// The length of a case's head in bytes.
const HEAD: usize = 15;

// A line is printed for so many differences.
const SHOWN: u64 = 10;

// What a case asks.
#[derive(Clone, Copy)]
enum Operation {
    Mark,
    TotalMin,
    TotalMax,
    Emptiable,
    Tidy,
    Item(usize),
    Join,
    TypeDerivation(u32, u32),
    FillTypes,
    TypeDerivationBy(u32, u32),
    FillTypesBy(usize),
}

// A case's head. The lengths are those of the input and of the lent buffer.
#[derive(Clone, Copy)]
struct Head {
    operation: Operation,
    input_len: u16,
    lent_len: u16,
    answer: u64,
}

// The stored number and the entry's. Where they are the same, the buffers differ.
#[derive(Clone, Copy)]
struct Difference {
    expected: u64,
    got: u64,
}

// What came of a case.
#[derive(Clone, Copy)]
enum Outcome {
    Agreed,
    Differs(Difference),
}

// Why there is no next case.
#[derive(Drop)]
enum Stop {
    Ended,
    CutOff,
    Unknown,
    Failed(io::Error),
}

// How many answers agreed, and how many did not.
#[derive(Clone, Copy)]
struct Counts {
    agreed: u64,
    differ: u64,
}

impl fmt::Display for Difference {
    fn fmt<W: fmt::Write>(&self, f: &mut fmt::Formatter<W>) -> fmt::Result {
        let Difference { expected, got } = *self;
        if expected == got {
            return f.write_str("another buffer after the call");
        }
        write!(f, "expected {expected}, got {got}")
    }
}

impl fmt::Display for Counts {
    fn fmt<W: fmt::Write>(&self, f: &mut fmt::Formatter<W>) -> fmt::Result {
        let Counts { agreed, differ } = *self;
        write!(f, "{agreed} agreed, {differ} differ")
    }
}

impl From<io::Error> for Stop {
    fn from(e: io::Error) -> Stop {
        Stop::Failed(e)
    }
}

// What an operation's number stands for, if anything: the numbers are the file's, and a match turns them into an enum once.
fn asked_for(number: u8, k: [u8; 2]) -> Option<Operation> {
    let [low, high] = k;
    let count = streams::number_at(&k, 0);
    let (derived, base) = (u32::from(low), u32::from(high));
    Some(match number {
        1 => Operation::Mark,
        2 => Operation::TotalMin,
        3 => Operation::TotalMax,
        4 => Operation::Emptiable,
        5 => Operation::Tidy,
        6 => Operation::Item(count),
        7 => Operation::Join,
        8 => Operation::TypeDerivation(derived, base),
        9 => Operation::FillTypes,
        10 => Operation::TypeDerivationBy(derived, base),
        11 => Operation::FillTypesBy(count),
        _ => return None,
    })
}

// The head, unless its operation is unknown. The answer is a number of eight bytes, the lower four first.
fn head_of(bytes: &[u8; HEAD]) -> Option<Head>
    ensures lengths { IfSome result (λ h. (h.input_len ≡ half bytes.now 3) × (h.lent_len ≡ half bytes.now 5)) }
    ensures answer { IfSome result (λ h. h.answer ≡ word bytes.now 7 + word bytes.now 11 * 2 ^ 32) }
{
    let low = u64::from(particle::read_u32(bytes, 7));
    let high = u64::from(particle::read_u32(bytes, 11));
    Some(Head {
        operation: asked_for(bytes[0], [bytes[1], bytes[2]])?,
        input_len: particle::read_u16(bytes, 3),
        lent_len: particle::read_u16(bytes, 5),
        answer: low + high * 4294967296,
    })
}

// Fills the sheet from the first k bytes of the input, by the table of types that the rest of it is.
fn fill_by(sheet: &mut [u8], input: &[u8], k: usize) -> u32
    ensures value { result ≡ filled_number (fill_answer (drop k input.now) sheet.old (take k input.now)) }
    ensures sheet_after { sheet.new ≡ filled_sheet (drop k input.now) sheet.old (take k input.now) }
{
    let (types, parents) = input.split_at(k.min(input.len()));
    exports::marker_fill_types_by(sheet, types, parents)
}

// Asks the exported entry.
fn answer(op: Operation, input: &[u8], lent: &mut [u8]) -> u64
    ensures value { result ≡ number_of op input.now lent.old }
    ensures lent_after { lent.new ≡ buffer_of op input.now lent.old }
{
    match op {
        Operation::Mark => u64::from(exports::marker_mark(input)),
        Operation::TotalMin => exports::marker_total_min(input),
        Operation::TotalMax => exports::marker_total_max(input),
        Operation::Emptiable => u64::from(exports::marker_emptiable(input)),
        Operation::Tidy => exports::marker_tidy(input, lent),
        Operation::Item(k) => exports::marker_item(input, k, lent) as u64,
        Operation::Join => exports::marker_effective_particle(input, lent),
        Operation::TypeDerivation(d, b) => u64::from(exports::marker_type_derivation_ok(d, b)),
        Operation::FillTypes => u64::from(exports::marker_fill_types(lent, input)),
        Operation::TypeDerivationBy(d, b) => u64::from(exports::marker_type_derivation_ok_by(
            input, d, b,
        )),
        Operation::FillTypesBy(k) => u64::from(fill_by(lent, input, k)),
    }
}

// Agreed exactly where the stored number and every byte of the stored buffer are what the definitions give.
fn judge(op: Operation, input: &[u8], lent: &mut [u8], stored: u64, after: &[u8]) -> Outcome
    ensures agrees { result ≡ Outcome.Agreed → Agrees op input.now lent.old stored after.now }
    ensures value { Agrees op input.now lent.old stored after.now → result ≡ Outcome.Agreed }
{
    let got = answer(op, input, lent);
    if got == stored && *lent == *after {
        return Outcome::Agreed;
    }
    Outcome::Differs(Difference {
        expected: stored,
        got,
    })
}

// Fills buf from the cases.
fn fill(cases: &mut impl Read, buf: &mut [u8]) -> Result<(), Stop> {
    if streams::filled(cases, buf)? {
        return Ok(());
    }
    Err(Stop::CutOff)
}

// Reads and replays the next case. The buffers are for what comes after the head: the input, and the lent buffer before the call and after
// it. No struct has them: fields that are lent side by side behind a `&mut` get no proof.
fn replay_next(
    cases: &mut impl Read,
    input: &mut [u8; ROOM],
    lent: &mut [u8; ROOM],
    after: &mut [u8; ROOM],
) -> Result<Outcome, Stop> {
    let mut head = [0u8; HEAD];
    let got = streams::read_full(cases, &mut head)?;
    if got == 0 {
        return Err(Stop::Ended);
    }
    if got < HEAD {
        return Err(Stop::CutOff);
    }
    let head = head_of(&head).ok_or(Stop::Unknown)?;
    let input = &mut input[..usize::from(head.input_len)];
    let lent = &mut lent[..usize::from(head.lent_len)];
    let after = &mut after[..usize::from(head.lent_len)];
    fill(cases, input)?;
    fill(cases, lent)?;
    fill(cases, after)?;
    Ok(judge(head.operation, input, lent, head.answer, after))
}

// A proved loop has to end, and nothing says that the input does: so the cases are numbered up to a number that no input reaches.
fn main(rt: HostRuntime) -> io::Result<()> {
    let mut cases = rt.stdin();
    let mut input = [0u8; ROOM];
    let mut lent = [0u8; ROOM];
    let mut after = [0u8; ROOM];
    let mut counts = Counts {
        agreed: 0,
        differ: 0,
    };
    for case in 1..u64::MAX {
        match replay_next(&mut cases, &mut input, &mut lent, &mut after) {
            Ok(Outcome::Agreed) => {
                counts.agreed += 1;
            }
            Ok(Outcome::Differs(difference)) => {
                counts.differ += 1;
                if counts.differ <= SHOWN {
                    println!(rt; "case {case}: {difference}")?;
                }
            }
            Err(Stop::Unknown) => return println!(rt; "{counts}, then an unknown operation"),
            Err(Stop::CutOff) => return println!(rt; "{counts}, then the input is cut off"),
            Err(Stop::Failed(e)) => return Err(e),
            Err(Stop::Ended) => break,
        }
    }
    println!(rt; "{counts}")
}
