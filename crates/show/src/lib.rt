// A flag in one line for a person to read.
#![tactic(auto)]

mod fields;
mod names;

ghost use Rattle.std.specs.Prelude.{◌≡◌, ◌++◌, Some, string_bytes, OnOk};
ghost use Rattle.flags.specs.Meaning.{meaning};
ghost use Rattle.show.specs.Shown.{shown};

use fields::Fields;
use flags::Flag;
use names::name_of;
use std::alloc::AllocError;
use std::fmt;

// Prints the flag's line, without an end of line.
#[derive(Clone, Copy)]
pub struct Shown<'a>(pub Flag<'a>);

impl fmt::Display for Shown<'_> {
    ghost output = { λ it. Some (shown (meaning it.0)) };

    fn fmt<W: fmt::Write>(&self, f: &mut fmt::Formatter<W>) -> fmt::Result {
        write!(f, "{}{}", name_of(self.0.kind()), Fields(self.0))
    }
}

// Adds the flag's line, without an end of line: `write!` of a `Shown`, with a clause that callers' proofs name.
pub fn show(flag: Flag<'_>, out: &mut String) -> Result<(), AllocError>
    ensures { OnOk result (string_bytes out.new ≡ string_bytes out.old ++ shown (meaning flag.entry)) }
{
    write!(out, "{}", Shown(flag))
}
