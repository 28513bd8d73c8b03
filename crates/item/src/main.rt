// Prints one item of a tree's root. Standard input is the item's number, from 0, in two bytes, low byte first, and then the tree; standard
// output is the item's bytes. Where there is none, a line on standard error says why: `no item` or `refused N`.
#![tactic(auto)]

use std::io;
use streams::ROOM;

// Why t has no such item. The entries for one tree refuse alike, so another one tells the refusal.
fn print_why(to: &impl Print, t: &[u8]) -> io::Result<()> {
    match entries::emptiable(t) {
        Err(r) => println!(to; "{r}"),
        Ok(_) => println!(to; "no item"),
    }
}

// An item has at least one record, so nothing but a missing one is empty.
fn print_item(out: &impl Print, err: &impl Print, t: &[u8], k: usize) -> io::Result<()> {
    let part = entries::item(t, k);
    if part.is_empty() {
        return print_why(err, t);
    }
    out.write_all(part)
}

// Input that ends within the number leaves nothing for the tree, which is refused as an empty one. Input past the longest tree fills the
// buffer beyond that limit, and is refused.
fn main(rt: HostRuntime) -> io::Result<()> {
    let mut input = rt.stdin();
    let k = streams::read_number(&mut input)?;
    let mut buf = [0u8; ROOM];
    let tree = streams::read_rest(&mut input, &mut buf)?;
    print_item(&rt, &rt.stderr(), tree, k)
}
