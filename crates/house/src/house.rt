// A table over borrowed rows.
ghost use Rattle.std.specs.Prelude.{◌≡◌, true};
ghost use Rattle.tables.specs.Tables.{nothing};
ghost use Rattle.house.specs.House.{said, accepted, house};
ghost use Rattle.house.specs.Laws.{said_lawful};

use flags::Code;
use rows::{Names, Row};
use tables::Table;

// The rows have passed the check, so a look-up needs no other.
#[derive(Clone, Copy, Debug, PartialEq, Eq)]
pub struct HouseTable<'a> {
    names: Names<'a>,
    ghost checked: { accepted names.text.now names.rows.now ≡ true },
}

impl<'a> HouseTable<'a> {
    // A table of these rows; one that knows no option where the check declines them.
    pub fn new(text: &'a [u8], rows: &'a [Row]) -> HouseTable<'a>
        ensures { said result.names.text.now result.names.rows.now ≡ house text.now rows.now }
    {
        let names = Names { text, rows };
        match names.check() {
            Ok(()) => HouseTable { names },
            Err(_) => HouseTable::empty(),
        }
    }

    // A table of no rows.
    fn empty() -> HouseTable<'a>
        ensures { said result.names.text.now result.names.rows.now ≡ nothing }
    {
        HouseTable {
            names: Names {
                text: &[],
                rows: &[],
            },
        }
    }
}

impl Table for HouseTable<'_> {
    ghost means = { λ t. said t.names.text.now t.names.rows.now };

    ghost lawful = { λ t. said_lawful t.names.text.now t.names.rows.now t.checked };

    fn lookup_short(&self, byte: u8) -> Option<Code> {
        self.names.short_code(byte)
    }

    fn lookup_long(&self, name: &[u8]) -> Option<Code> {
        self.names.long_code(name)
    }
}
