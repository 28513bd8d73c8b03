// The joining program: one chain on standard input, the bytes of its joined tree on standard output. Where there is none, a line on standard
// error says why: `no content` or `refused N`.
#![tactic(auto)]

use std::io;
use streams::ROOM;

// `tidy` reads and prints alike: a function of both would take a closure and what each answer means, for the four lines of a `match`.
// Both buffers are longer than any chain that is joined, and than any tree; longer input is cut off there, and refused.
fn main(rt: HostRuntime) -> io::Result<()> {
    let mut buf = [0u8; ROOM];
    let chain = streams::read_rest(&mut rt.stdin(), &mut buf)?;
    let mut out = [0u8; ROOM];
    match chain::effective_particle(chain, &mut out) {
        Ok(Some(k)) => streams::print_tree(&rt, &out, k),
        Ok(None) => eprintln!(rt; "no content"),
        Err(r) => eprintln!(rt; "{r}"),
    }
}
