// How the answer to a sheet prints: `passes`, `undecided`, `fails N` or `refused N`.
ghost use Rattle.std.specs.Prelude.{Some};
ghost use Rattle.marking.specs.Text.{answer_text};

use crate::MarkAnswer;
use std::fmt;

impl fmt::Display for MarkAnswer {
    ghost output = { λ m. Some (answer_text m) };

    fn fmt<W: fmt::Write>(&self, f: &mut fmt::Formatter<W>) -> fmt::Result {
        match self {
            MarkAnswer::Passes => f.write_str("passes"),
            MarkAnswer::Undecided => f.write_str("undecided"),
            MarkAnswer::Fails(r) => write!(f, "fails {}", u32::from(*r)),
            MarkAnswer::Refused(r) => write!(f, "{r}"),
        }
    }
}
