// A table of one option, `-Z`.
ghost use Rattle.strangertable.specs.Only.{only_z};
ghost use Rattle.strangertable.specs.OnlyZTableLemmas.{only_z_lawful};

use flags::{Code, Kind};
use tables::Table;

#[derive(Clone, Copy, Debug, PartialEq, Eq)]
pub struct OnlyZ;

impl Table for OnlyZ {
    ghost means = { λ _. only_z };

    ghost lawful = { λ _. only_z_lawful };

    fn lookup_short(&self, byte: u8) -> Option<Code> {
        (byte == b'Z').then_some(Code::Of(Kind::Z))
    }

    fn lookup_long(&self, _name: &[u8]) -> Option<Code> {
        None
    }
}
