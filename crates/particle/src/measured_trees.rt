// Measured trees (measured.rt): the first tree of a part of a tree's bytes, and so many of them one after another. That they are measured
// is part of the types, so that no function asks for it.
ghost use Rattle.std.specs.Prelude.{◌≡◌};
ghost use Rattle.particle.specs.Record.{record_at};
ghost use Rattle.particle.specs.Tree.{tree};
ghost use Rattle.particle.specs.Rows.{items_part, later_part};
ghost use Rattle.particle.specs.Empty.{emptiable};
ghost use Rattle.particle.specs.Runs.{Run};
ghost use Rattle.particle.specs.Props.{props};

use crate::{Record, items, next, record_at, told_emptiable};

// The first tree of a part of a tree's bytes. No `Subtree` with a parameter: a ghost field can't stand beside one that is a bool.
#[derive(Clone, Copy)]
pub struct MeasuredTree<'a> {
    pub bytes: &'a [u8],
    pub ghost run: { Run 1 bytes.now } by { Prim.hlevel props },
}

// The first `count` trees of a part of a tree's bytes.
#[derive(Clone, Copy)]
pub struct MeasuredTrees<'a> {
    pub bytes: &'a [u8],
    pub count: usize,
    pub ghost run: { Run count bytes.now } by { Prim.hlevel props },
}

impl<'a> MeasuredTree<'a> {
    // Its record.
    pub fn record(self) -> Record
        ensures { result ≡ record_at self.entry.bytes.now }
    {
        record_at(self.bytes)
    }

    // Whether it is emptiable.
    pub fn emptiable(self) -> bool
        ensures { result ≡ emptiable (tree self.entry.bytes.now) }
    {
        told_emptiable(self.bytes)
    }

    // Its items.
    pub fn items(self) -> MeasuredTrees<'a>
        ensures bytes { result.bytes.now ≡ items_part self.entry.bytes.now }
        ensures count { result.count ≡ (record_at self.entry.bytes.now).count }
    {
        MeasuredTrees {
            bytes: items(self.bytes),
            count: usize::from(record_at(self.bytes).count),
        }
    }

    // It alone, as one of a row.
    pub fn alone(self) -> MeasuredTrees<'a>
        ensures bytes { result.bytes.now ≡ self.entry.bytes.now }
        ensures count { result.count ≡ 1 }
    {
        MeasuredTrees {
            bytes: self.bytes,
            count: 1,
        }
    }
}

impl<'a> Iterator for MeasuredTrees<'a> {
    ghost use Rattle.std.specs.Iterator.{at_most};
    ghost use Rattle.particle.specs.MeasuredTrees.{GivesFirst};

    type Item = MeasuredTree<'a>;

    ghost next_gives = { GivesFirst };

    ghost remaining = { λ s. at_most s.count };

    fn next(&mut self) -> Option<MeasuredTree<'a>> {
        if self.count == 0 {
            return None;
        }
        let first = MeasuredTree { bytes: self.bytes };
        let rest = next(self.bytes);
        *self = MeasuredTrees {
            bytes: rest,
            count: self.count - 1,
        };
        Some(first)
    }
}
