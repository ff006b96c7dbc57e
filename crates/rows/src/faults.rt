// What may be wrong with rows, and the check of them.
ghost use Rattle.std.specs.Prelude.{◌≡◌, ◌&&◌, is_ok, nat_le};
ghost use Rattle.std.specs.List.{list_all};
ghost use Rattle.rows.specs.Good.{TellsGood};
ghost use Rattle.rows.specs.Rows.{name_byte, good_name, inside, good_row, in_order, names_twice, undashed, has_home, row_home, homes, verdict};

use super::rows::{Names, Row};
use flags::Kind;
use text::Refusal;

// The most rows that a table has.
pub const MOST_ROWS: usize = 256;

fn is_name_byte(byte: u8) -> bool
    ensures { result ≡ name_byte byte }
{
    byte.is_ascii_graphic() && byte != b'='
}

fn are_name_bytes(bytes: &[u8]) -> bool
    ensures { result ≡ list_all name_byte bytes.now }
{
    bytes.iter().all(|byte| is_name_byte(*byte))
}

fn is_name(name: &[u8]) -> bool
    ensures { result ≡ good_name name.now }
{
    !name.is_empty() && !name.starts_with(b"-") && are_name_bytes(name)
}

// A spelling without a dash in front.
fn undashed(spelling: &[u8]) -> &[u8]
    ensures { result.now ≡ undashed spelling.now }
{
    spelling.strip_prefix(b"-").unwrap_or(spelling)
}

impl Names<'_> {
    // Whether a row lies inside the text. A row may hold any numbers, so the sum may be past all of them.
    fn inside(&self, row: Row) -> bool
        ensures { result ≡ inside self.now.text.now row }
    {
        row.offset
            .checked_add(row.length)
            .is_some_and(|end| end <= self.text.len())
    }

    #[tactic(auto, using(crate::proofs::Coded::is_code))]
    fn is_good(&self, row: Row) -> bool
        ensures { result ≡ good_row self.now.text.now row }
    {
        self.inside(row) && is_name(self.name_of(row)) && row.known_code().is_some()
    }

    // Whether each row is good and begins at or behind the end of the one before it.
    // The place is carried along from row to row; a fold would carry a flag too.
    fn are_good(&self) -> bool
        ensures { result ≡ (in_order 0 self.now.rows.now && list_all (good_row self.now.text.now) self.now.rows.now) }
    {
        let mut place = 0;
        for row in self.rows {
            if row.offset < place || !self.is_good(*row) {
                return false;
            }
            place = row.offset + row.length;
        }
        true
    }

    // Whether a name stands twice: each row is held against those behind it, which the pattern lends.
    fn repeat(&self) -> bool
        ensures { result ≡ names_twice self.now.text.now self.now.rows.now }
    {
        let mut rows = self.rows;
        while let [row, later @ ..] = rows {
            let behind = Names {
                rows: later,
                ..*self
            };
            if behind.row_at(self.name_of(*row)).is_some() {
                return true;
            }
            rows = later;
        }
        false
    }

    // Whether the rows give a kind's home spelling the kind's own code.
    fn has_home(&self, kind: Kind) -> bool
        ensures { result ≡ has_home self.now.text.now self.now.rows.now kind }
    {
        self.row_at(undashed(undashed(kind.home())))
            .is_some_and(|row| row.code == kind.number())
    }

    // Whether the kind that a row's code makes has its home. A match, since the proof of `is_some_and` here did not close.
    fn row_home(&self, row: Row) -> bool
        ensures { result ≡ row_home self.now.text.now self.now.rows.now row }
    {
        match row.known_code() {
            Some(code) => self.has_home(code.kind()),
            None => false,
        }
    }

    fn homes(&self) -> bool
        ensures { result ≡ homes self.now.text.now self.now.rows.now }
    {
        self.rows.iter().all(|row| self.row_home(*row))
    }

    // The first of the three refusals that fits any of the rows.
    fn judge(&self) -> Result<(), Refusal>
        ensures { result ≡ verdict self.now.text.now self.now.rows.now }
    {
        if self.rows.len() > MOST_ROWS || !self.are_good() {
            return Err(Refusal::BadRow);
        }
        if self.repeat() {
            return Err(Refusal::NameTwice);
        }
        if !self.homes() {
            return Err(Refusal::HomeMissing);
        }
        Ok(())
    }

    // Whether the rows are good, or the first of these refusals that fits any of them: `BadRow`, `NameTwice`, `HomeMissing`.
    #[tactic(auto, using(crate::proofs::Judged::tells_verdict))]
    pub fn check(&self) -> Result<(), Refusal>
        ensures answer { result ≡ verdict self.now.text.now self.now.rows.now }
        ensures exact { TellsGood (is_ok result) self.now.text.now self.now.rows.now }
    {
        self.judge()
    }
}
