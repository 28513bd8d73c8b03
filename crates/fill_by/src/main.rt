// The program that fills by a table of types. Standard input is how many rows the table has, in two bytes, low byte first, then the rows, a
// byte each, the number of the parent; then how many type numbers there are, in two bytes, then these, a byte each; and then a sheet.
// Standard output is the sheet with its second table filled in. Where it is refused, a line on standard error says why: `refused N`.
#![tactic(auto)]

use std::io;
use streams::ROOM;

// Input that ends within the table has zeros in place of the rest, and no sheet: where the table is accepted so, the sheet is refused as
// an empty one. Input past the longest sheet fills the buffer beyond that limit, and is refused.
fn main(rt: HostRuntime) -> io::Result<()> {
    let mut input = rt.stdin();
    let mut parents = [0u8; ROOM];
    let rows = streams::counted(&mut input, &mut parents)?;
    let mut numbers = [0u8; ROOM];
    let k = streams::counted(&mut input, &mut numbers)?;
    let mut sheet = [0u8; ROOM];
    let sheet = streams::read_rest(&mut input, &mut sheet)?;
    match types::fill_types_by(sheet, &numbers[..k], &parents[..rows]) {
        Ok(()) => rt.write_all(sheet),
        Err(r) => eprintln!(rt; "{r}"),
    }
}
