// Reads one tree from standard input and prints what the entries for one tree say of it: `total MIN, MAX` and `emptiable yes` or
// `emptiable no`, or `refused N`. MIN is a number or `too large`, MAX a number, `too large` or `unbounded`.
#![tactic(auto)]

use std::io;
use streams::ROOM;

fn describe(out: &impl Print, t: &[u8]) -> io::Result<()> {
    match entries::total_range(t) {
        Ok(total) => println!(out; "total {total}")?,
        Err(r) => return println!(out; "{r}"),
    }
    match entries::emptiable(t) {
        Ok(emptiable) => println!(out; "emptiable {}", if emptiable { "yes" } else { "no" }),
        Err(r) => println!(out; "{r}"),
    }
}

// Input past the longest tree fills the buffer beyond that limit, and is refused.
fn main(rt: HostRuntime) -> io::Result<()> {
    let mut buf = [0u8; ROOM];
    let tree = streams::read_rest(&mut rt.stdin(), &mut buf)?;
    describe(&rt, tree)
}
