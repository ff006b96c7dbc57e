// What a table of options is.
ghost use Rattle.std.specs.Prelude.{◌≡◌};
ghost use Rattle.tables.specs.Tables.{Options, Lawful, at_home, known, WaysAgree};

use flags::{Code, Kind};
use text::{Shape, shape_of};

pub trait Table {
    // what the options mean
    ghost means: { Self → Options };

    // The code of the short option with this byte.
    fn lookup_short(&self, byte: u8) -> Option<Code>
        ensures { result ≡ (means self.now).short byte };

    // The code of the long option with this name.
    fn lookup_long(&self, name: &[u8]) -> Option<Code>
        ensures { result ≡ (means self.now).long name.now };

    ghost lawful: { (t : Self) → Lawful (means t) };
}

// The code at the spelling in which a kind is written.
fn code_at_home<T: Table>(table: &T, kind: Kind) -> Option<Code>
    ensures { result ≡ at_home (T.Table.means table.now) kind }
{
    match shape_of(kind.home()) {
        Shape::Long(name) => table.lookup_long(name),
        Shape::Short([letter]) => table.lookup_short(*letter),
        _ => None,
    }
}

// Whether flags of a kind are in the table.
pub fn knows<T: Table>(table: &T, kind: Kind) -> bool
    ensures answer { result ≡ known (T.Table.means table.now) kind }
    ensures ways { WaysAgree (T.Table.means table.now) kind }
{
    code_at_home(table, kind) == Some(Code::Of(kind))
}
