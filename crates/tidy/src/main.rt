// The tidying program: one tree on standard input, the bytes of the tidied tree on standard output. Where the tree is refused, a line on
// standard error says why: `refused N`.
#![tactic(auto)]

use std::io;
use streams::ROOM;

// Both buffers are longer than any tree, and equally long; longer input is cut off there, and refused.
fn main(rt: HostRuntime) -> io::Result<()> {
    let mut buf = [0u8; ROOM];
    let tree = streams::read_rest(&mut rt.stdin(), &mut buf)?;
    let mut out = [0u8; ROOM];
    match entries::tidy(tree, &mut out) {
        Ok(k) => streams::print_tree(&rt, &out, k),
        Err(r) => eprintln!(rt; "{r}"),
    }
}
