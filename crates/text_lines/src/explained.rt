//! A fault with an explanation.
use std::fmt;
use std::fmt::Display;
use std::marker::Model;

/// How a text is at fault, with an explanation. Its text is the fault's, and then the lines of the explanation.
#[derive(Debug, Drop)]
pub struct Explained<F> {
    /// The fault.
    pub fault: F,
    /// The lines that explain it, each but the last ended by LF; `None` where the line is too long, which the fault says, and
    /// where the fault is no line's.
    pub told: Option<String>,
}

impl<F> Model for Explained<F> {
    ghost use Rattle.std.specs.Prelude.{string_bytes};
    ghost use Rattle.std.specs.Option.{option_map};
    ghost use Rattle.text_lines.specs.Explaining.{Explained as WithLines};

    ghost Value = { WithLines F };

    ghost view = { λ e. record { fault = e.fault; told = option_map string_bytes e.told } };
}

impl<F: Display> Display for Explained<F> {
    ghost use Rattle.std.specs.Prelude.{◌++◌};
    ghost use Rattle.std.specs.Option.{option_map};
    ghost use Rattle.text_lines.specs.Explaining.{lines_behind};

    ghost output = { λ e. option_map (λ text. text ++ lines_behind e.told) (F.output e.fault) };

    fn fmt<W: fmt::Write>(&self, f: &mut fmt::Formatter<W>) -> fmt::Result {
        let fault = &self.fault;
        match &self.told {
            Some(told) => write!(f, "{fault}\n{told}"),
            None => write!(f, "{fault}"),
        }
    }
}
