// The marking program. With no argument: one sheet on standard input, one line on standard output: `passes`, `undecided`, `fails N` or
// `refused N`. With the argument `--many`: many sheets one after another, each after its length in two bytes, low byte first, and the same
// line for each, in order. With any other arguments it marks nothing, and says on standard error how it is used.
#![tactic(auto)]

ghost use Rattle.std.specs.Prelude.{◌≡◌, true, IfOk};
ghost use Rattle.marker.specs.Many.{many};
ghost use Rattle.marker.specs.Next.{MarksRest, MarksNext};

use marking::MarkAnswer;
use std::env::{Env, FillError};
use std::io;
use std::io::Read;
use streams::ROOM;

// The bytes of a sheet's length.
const LENGTH: usize = 2;

// The bytes of `--many`.
const WORD: usize = 6;

// What the arguments ask for.
#[derive(Clone, Copy)]
enum Task {
    One,
    Many,
    Usage,
}

// What came of reading the next of many sheets: a mark, or one of two ends, so no `Option`.
#[derive(Clone, Copy)]
enum Outcome {
    Marked(MarkAnswer),
    CutOff,
    Ended,
}

// Reads and marks one sheet. Input past the longest sheet fills the buffer beyond that length, and is refused.
fn mark_one<R: Read>(input: &mut R) -> io::Result<MarkAnswer>
    ensures { IfOk result (MarksRest (R.remaining input.old) (R.remaining input.new)) }
{
    let mut buf = [0u8; ROOM];
    Ok(marking::mark(streams::read_rest(input, &mut buf)?))
}

// Reads and marks the next of many sheets, whatever an earlier one left in buf.
fn mark_next<R: Read>(input: &mut R, buf: &mut [u8; ROOM]) -> io::Result<Outcome>
    ensures { IfOk result (MarksNext (R.remaining input.old) (R.remaining input.new)) }
{
    let mut head = [0u8; LENGTH];
    let got = streams::read_full(input, &mut head)?;
    if got == 0 {
        return Ok(Outcome::Ended);
    }
    if got < LENGTH {
        return Ok(Outcome::CutOff);
    }
    let sheet = &mut buf[..streams::number_at(&head, 0)];
    if !streams::filled(input, sheet)? {
        return Ok(Outcome::CutOff);
    }
    Ok(Outcome::Marked(marking::mark(sheet)))
}

// A proved loop has to end, and nothing says that the input does: so the sheets are numbered up to a number that no input reaches.
fn mark_many(input: &mut impl Read, out: &impl Print, err: &impl Print) -> io::Result<()> {
    let mut buf = [0u8; ROOM];
    for _ in 1..u64::MAX {
        match mark_next(input, &mut buf)? {
            Outcome::Marked(mark) => {
                println!(out; "{mark}")?;
            }
            Outcome::CutOff => {
                return println!(err; "marker: the input is cut off");
            }
            Outcome::Ended => {
                return Ok(());
            }
        }
    }
    Ok(())
}

// Whether the word is `--many`, and no more than that.
fn is_many(word: &[u8]) -> bool
    ensures { (result ≡ true → word.now ≡ many) × (word.now ≡ many → result ≡ true) }
{
    word == b"--many".as_slice()
}

// An argument that is longer than `--many` counts as an empty one here, which is not it either.
fn asked(env: &impl Env) -> Task {
    let mut word = [0u8; WORD];
    let n = match env.arg(1, &mut word) {
        Ok(n) => n,
        Err(FillError::TooLong) => 0,
        Err(FillError::NotPresent) => {
            return Task::One;
        }
    };
    if is_many(&word[..n]) {
        if let Err(FillError::NotPresent) = env.arg(2, &mut word) {
            return Task::Many;
        }
    }
    Task::Usage
}

fn print_usage(err: &impl Print) -> io::Result<()> {
    println!(err; "marker reads one sheet from standard input: marker < SHEET")?;
    println!(err;
        "marker --many reads many sheets, each after its length in two bytes, low byte first"
    )
}

fn main(rt: HostRuntime) -> io::Result<()> {
    match asked(&rt) {
        Task::One => {
            let mark = mark_one(&mut rt.stdin())?;
            println!(rt; "{mark}")
        }
        Task::Many => mark_many(&mut rt.stdin(), &rt, &rt.stderr()),
        Task::Usage => print_usage(&rt.stderr()),
    }
}
