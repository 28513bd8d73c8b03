// How total ranges print: `MIN, MAX`, each a number, `too large` or, of the maximum, `unbounded`.
ghost use Rattle.std.specs.Prelude.{Some};
ghost use Rattle.totals.specs.Text.{min_text, max_text, range_text};

use crate::{TotalMax, TotalMin, TotalRange};
use std::fmt;

impl fmt::Display for TotalMin {
    ghost output = { λ m. Some (min_text m) };

    fn fmt<W: fmt::Write>(&self, f: &mut fmt::Formatter<W>) -> fmt::Result {
        match self {
            TotalMin::Exact(n) => write!(f, "{n}"),
            TotalMin::TooLarge => f.write_str("too large"),
        }
    }
}

impl fmt::Display for TotalMax {
    ghost output = { λ m. Some (max_text m) };

    fn fmt<W: fmt::Write>(&self, f: &mut fmt::Formatter<W>) -> fmt::Result {
        match self {
            TotalMax::Bounded(n) => write!(f, "{n}"),
            TotalMax::TooLarge => f.write_str("too large"),
            TotalMax::Unbounded => f.write_str("unbounded"),
        }
    }
}

impl fmt::Display for TotalRange {
    ghost output = { λ t. Some (range_text t) };

    fn fmt<W: fmt::Write>(&self, f: &mut fmt::Formatter<W>) -> fmt::Result {
        let min = self.min;
        let max = self.max;
        write!(f, "{min}, {max}")
    }
}
