// The filling program. Standard input is how many type numbers there are, in two bytes, low byte first, then these numbers, a byte each,
// and then a sheet; standard output is the sheet with its second table filled in. Where it is refused, a line on standard error says why:
// `refused N`.
#![tactic(auto)]

use std::io;
use streams::ROOM;

// Input that ends within the type numbers leaves nothing for the sheet, which is refused as an empty one. Input past the longest sheet
// fills the buffer beyond that limit, and is refused.
fn main(rt: HostRuntime) -> io::Result<()> {
    let mut input = rt.stdin();
    let mut numbers = [0u8; ROOM];
    let k = streams::counted(&mut input, &mut numbers)?;
    let mut sheet = [0u8; ROOM];
    let sheet = streams::read_rest(&mut input, &mut sheet)?;
    match types::fill_types(sheet, &numbers[..k]) {
        Ok(()) => rt.write_all(sheet),
        Err(r) => eprintln!(rt; "{r}"),
    }
}
