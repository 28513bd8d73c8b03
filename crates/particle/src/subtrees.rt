// Subtrees, each one run of records: the first tree of a part of a tree's bytes, and so many of them one after another. That the bytes hold
// them is part of the types, so that no function asks for it.
ghost use Rattle.std.specs.Prelude.{◌≡◌};
ghost use Rattle.particle.specs.Record.{record_at};
ghost use Rattle.particle.specs.Rows.{Row, items_part};
ghost use Rattle.particle.specs.Props.{props};

use crate::{MeasuredTrees, Record, items, later, record_at};

// The first tree of a part of a tree's bytes.
#[derive(Clone, Copy)]
pub struct Subtree<'a> {
    pub bytes: &'a [u8],
    pub ghost row: { Row 1 bytes.now } by { Prim.hlevel props },
}

// The first `count` trees of a part of a tree's bytes.
#[derive(Clone, Copy)]
pub struct Subtrees<'a> {
    pub bytes: &'a [u8],
    pub count: usize,
    pub ghost row: { Row count bytes.now } by { Prim.hlevel props },
}

impl<'a> Subtree<'a> {
    // Its record.
    pub fn record(self) -> Record
        ensures { result ≡ record_at self.entry.bytes.now }
    {
        record_at(self.bytes)
    }

    // Its items.
    pub fn items(self) -> Subtrees<'a>
        ensures bytes { result.bytes.now ≡ items_part self.entry.bytes.now }
        ensures count { result.count ≡ (record_at self.entry.bytes.now).count }
    {
        Subtrees {
            bytes: items(self.bytes),
            count: usize::from(record_at(self.bytes).count),
        }
    }
}

impl<'a> From<MeasuredTrees<'a>> for Subtrees<'a> {
    ghost use Rattle.particle.specs.Subtrees.{SameRow};

    ghost from_gives = { SameRow };

    fn from(trees: MeasuredTrees<'a>) -> Subtrees<'a> {
        Subtrees {
            bytes: trees.bytes,
            count: trees.count,
        }
    }
}

impl<'a> Iterator for Subtrees<'a> {
    ghost use Rattle.std.specs.Iterator.{at_most};
    ghost use Rattle.particle.specs.Subtrees.{GivesFirst};

    type Item = Subtree<'a>;

    ghost next_gives = { GivesFirst };

    ghost remaining = { λ s. at_most s.count };

    fn next(&mut self) -> Option<Subtree<'a>> {
        if self.count == 0 {
            return None;
        }
        let first = Subtree { bytes: self.bytes };
        *self = Subtrees {
            bytes: later(self.bytes),
            count: self.count - 1,
        };
        Some(first)
    }
}
