// A look at the flags to come, which does not use them up.
ghost use Rattle.std.specs.Prelude.{◌≡◌};
ghost use Rattle.std.specs.Option.{option_map};
ghost use Rattle.flags.specs.Meaning.{meaning};
ghost use Rattle.reading.specs.Left.{first, after};
ghost use Rattle.reader.specs.Cursors.{left_of, Comes, StaysOnEdges};

use super::cursor::Cursor;
use flags::Flag;
use tables::Table;

// Holds the one reference to a reader, so nobody else reads on while it lives. Its end puts the reader back where it was, on every way out.
pub struct Look<'a> {
    cursor: &'a mut Cursor,
    kept: Cursor,
}

impl Drop for Look<'_> {
    fn drop(self)
        ensures { self.exit.0.now ≡ self.entry.kept }
    {
        *self.cursor = self.kept;
        let Look { cursor: _, kept: _ } = self;
    }
}

impl Cursor {
    // A look from where the reader stands.
    pub fn look(&mut self) -> Look<'_>
        ensures at { result.cursor.now ≡ self.old }
        ensures kept { result.kept ≡ self.old }
        ensures lends { result.cursor.ghost_name ≡ self.entry.ghost_name }
    {
        Look {
            kept: *self,
            cursor: self,
        }
    }

    // The next flag, which stays to come.
    pub fn peek<'t, T: Table>(&mut self, text: &'t [u8], table: &T) -> Option<Flag<'t>>
        ensures answer { option_map meaning result ≡ option_map (λ p. p.0) (first (T.Table.means table.now) (left_of self.old text.now)) }
        ensures stays { self.new ≡ self.old }
    {
        self.look().next(text, table)
    }
}

impl Look<'_> {
    // The next flag of the look, as the reader would give it.
    pub fn next<'t, T: Table>(&mut self, text: &'t [u8], table: &T) -> Option<Flag<'t>>
        ensures answer { option_map meaning result ≡ option_map (λ p. p.0) (first (T.Table.means table.now) (left_of self.old.cursor.now text.now)) }
        ensures left { left_of self.new.cursor.now text.now ≡ after (first (T.Table.means table.now) (left_of self.old.cursor.now text.now)) }
        ensures comes { Comes (T.Table.means table.now) (left_of self.old.cursor.now text.now) (option_map meaning result) (left_of self.new.cursor.now text.now) }
        ensures edges { StaysOnEdges text.now self.old.cursor.now self.new.cursor.now }
        ensures kept { self.new.kept ≡ self.old.kept }
        ensures lends { self.new.cursor.ghost_name ≡ self.old.cursor.ghost_name }
    {
        self.cursor.next(text, table)
    }
}
