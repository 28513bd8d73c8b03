// What the programs do alike with what they read and print: a number of two bytes, a buffer that is filled, all that comes, so many bytes
// as a number before them says, a tree.
#![tactic(auto)]

ghost use Rattle.std.specs.Prelude.{◌≡◌, ℕ, List, true, false, ◌+◌, ◌≤◌, ◌<◌, length, take, IfOk, OnErr};
ghost use Rattle.std.specs.Io.KnownBytes.{Consumes, IsAtEnd};
ghost use Rattle.particle.specs.Record.{half};
ghost use Rattle.streams.specs.Counts.{IsPrefixLen, GivesNumber, GivesCounted};

use particle::{MAX_RECORDS, RECORD_SIZE};
use std::io;
use std::io::Read;

// The length of a buffer that a program reads into or has written: one more than the greatest number of two bytes, and longer than any
// sheet, tree and chain.
pub const ROOM: usize = 65536;

// The number that the two bytes at `at` give, the lower first: a length before a sheet, an item's number.
pub fn number_at(s: &[u8], at: usize) -> usize
    requires { at + 2 ≤ length s.now }
    ensures value { result ≡ half s.now at }
    ensures upper_bound { result < 65536 }
{
    usize::from(particle::read_u16(s, at))
}

// Reads until buf is full or the input ends, and returns how many bytes it put at the start of buf. It fails only where a read does, and
// the bytes that came before stand at the start of buf.
pub fn read_full<R: Read>(input: &mut R, buf: &mut [u8]) -> io::Result<usize>
    ensures ok { IfOk result (λ n. IsPrefixLen n buf.new) }
    ensures bytes { IfOk result (λ n. Consumes (R.remaining input.old) (R.remaining input.new) (take n buf.new)) }
    ensures end { IfOk result (λ n. n < length buf.old → IsAtEnd (R.remaining input.new)) }
    ensures err { OnErr result (length buf.new ≡ length buf.old) }
    ensures none_lost { OnErr result ((n : ℕ) × Consumes (R.remaining input.old) (R.remaining input.new) (take n buf.new)) }
{
    // An index: std's `read_exact`, which counts in the same way, doesn't say how much came before the end, and `read_to_end` needs a heap.
    let mut done = 0;
    while done < buf.len() {
        let n = input.read(&mut buf[done..])?;
        if n == 0 {
            break;
        }
        done += n;
    }
    Ok(done)
}

// Reads as `read_full` does, and returns the bytes that came.
pub fn read_rest<'a, R: Read>(input: &mut R, buf: &'a mut [u8]) -> io::Result<&'a mut [u8]>
    ensures bytes { IfOk result (λ s. Consumes (R.remaining input.old) (R.remaining input.new) s.now) }
    ensures end { IfOk result (λ s. length s.now < length buf.old → IsAtEnd (R.remaining input.new)) }
    ensures none_lost { OnErr result ((came : List ℕ) × Consumes (R.remaining input.old) (R.remaining input.new) came) }
{
    let n = read_full(input, buf)?;
    Ok(&mut buf[..n])
}

// Fills buf from the input; false where the input ends before. It fails only where a read does.
pub fn filled<R: Read>(input: &mut R, buf: &mut [u8]) -> io::Result<bool>
    ensures bytes { IfOk result (λ full. full ≡ true → Consumes (R.remaining input.old) (R.remaining input.new) buf.new) }
    ensures end { IfOk result (λ full. full ≡ false → IsAtEnd (R.remaining input.new)) }
    ensures len { length buf.new ≡ length buf.old }
    ensures none_lost { OnErr result ((n : ℕ) × Consumes (R.remaining input.old) (R.remaining input.new) (take n buf.new)) }
{
    Ok(read_full(input, buf)? == buf.len())
}

// The bytes of a number that stands before others.
const NUMBER: usize = 2;

// Reads a number of two bytes from the input. Where the input ends before, the bytes that don't come are zeros. It fails only where a read
// does.
pub fn read_number<R: Read>(input: &mut R) -> io::Result<usize>
    ensures bytes { IfOk result (GivesNumber (R.remaining input.old) (R.remaining input.new)) }
    ensures upper_bound { IfOk result (λ n. n < 65536) }
    ensures none_lost { OnErr result ((came : List ℕ) × Consumes (R.remaining input.old) (R.remaining input.new) came) }
{
    let mut head = [0u8; NUMBER];
    read_full(input, &mut head)?;
    Ok(number_at(&head, 0))
}

// Reads a number of two bytes from the input, and then so many bytes to the start of buf, and returns how many. Input that ends before leaves
// the rest of them as they were. It fails only where a read does.
// A count, and no part of buf: of what is handed out the contract could not say that buf keeps its length where a read fails.
pub fn counted<R: Read>(input: &mut R, buf: &mut [u8]) -> io::Result<usize>
    requires { 65536 ≤ length buf.old }
    ensures ok { IfOk result (λ n. IsPrefixLen n buf.new) }
    ensures err { OnErr result (length buf.new ≡ length buf.old) }
    ensures bytes { IfOk result (λ n. GivesCounted (R.remaining input.old) (R.remaining input.new) (take n buf.new)) }
    ensures none_lost { OnErr result ((came : List ℕ) × Consumes (R.remaining input.old) (R.remaining input.new) came) }
{
    let n = read_number(input)?;
    read_full(input, &mut buf[..n])?;
    Ok(n)
}

// The tree of k records at the start of t, a count beside the buffer as the entries answer it. None of them writes more than MAX_RECORDS.
pub fn print_tree(to: &impl Print, t: &[u8], k: usize) -> io::Result<()> {
    if k <= MAX_RECORDS {
        let n = t.len().min(RECORD_SIZE * k);
        to.write_all(&t[..n])?;
    }
    Ok(())
}
