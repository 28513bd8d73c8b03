// How a refusal prints: `refused N`.
ghost use Rattle.std.specs.Prelude.{Some};
ghost use Rattle.intake.specs.Text.{refusal_text};

use crate::Refusal;
use std::fmt;

impl fmt::Display for Refusal {
    ghost output = { λ r. Some (refusal_text r) };

    fn fmt<W: fmt::Write>(&self, f: &mut fmt::Formatter<W>) -> fmt::Result {
        write!(f, "refused {}", u32::from(*self))
    }
}
