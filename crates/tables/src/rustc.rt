// The table of rustc's own options.
ghost use Rattle.std.specs.Prelude.{◌≡◌};
ghost use Rattle.tables.specs.Rustc.{rustc};
ghost use Rattle.tables.specs.Lawful.{rustc_lawful};

use super::long::long_code;
use super::table::Table;
use flags::{Code, Kind};

#[derive(Clone, Copy, Debug, PartialEq, Eq)]
pub struct Rustc;

impl Table for Rustc {
    ghost means = { λ _. rustc };

    ghost lawful = { λ t. rustc_lawful };

    // A choice over character literals, which is the project's form.
    fn lookup_short(&self, byte: u8) -> Option<Code> {
        match char::from(byte) {
            'h' => Some(Code::Of(Kind::Help)),
            'L' => Some(Code::Of(Kind::LibrarySearchPath)),
            'l' => Some(Code::Of(Kind::Link)),
            'g' => Some(Code::Debuginfo),
            'O' => Some(Code::Optimize),
            'o' => Some(Code::Of(Kind::Out)),
            'A' => Some(Code::Of(Kind::Allow)),
            'W' => Some(Code::Of(Kind::Warn)),
            'D' => Some(Code::Of(Kind::Deny)),
            'F' => Some(Code::Of(Kind::Forbid)),
            'C' => Some(Code::Of(Kind::Codegen)),
            'V' => Some(Code::Of(Kind::Version)),
            'v' => Some(Code::Of(Kind::Verbose)),
            'Z' => Some(Code::Of(Kind::Z)),
            _ => None,
        }
    }

    fn lookup_long(&self, name: &[u8]) -> Option<Code> {
        long_code(name)
    }
}
