// Rows over a text of names: what they say. The definitions take the two lists, so that they read without the code.
ghost use Rattle.std.specs.Prelude.{◌≡◌};
ghost use Rattle.std.specs.Option.{option_map};
ghost use Rattle.flags.specs.Codes.{code_of};
ghost use Rattle.rows.specs.Rows.{name_of, row_at, code_at, short_code, long_code};

use flags::Code;

// A name in a text, and the number of its code. Rows come from outside and may hold any numbers, so that the code is no `Code` here.
#[derive(Clone, Copy, Debug, PartialEq, Eq)]
pub struct Row {
    pub offset: usize,
    pub length: usize,
    pub code: u8,
}

// Names of options, as rows over one text. Both are borrowed, and there is no heap: a look-up walks the rows once, and keeps no map.
#[derive(Clone, Copy, Debug, PartialEq, Eq)]
pub struct Names<'a> {
    pub text: &'a [u8],
    pub rows: &'a [Row],
}

impl Row {
    // The code with the row's number, if there is one.
    pub(crate) fn known_code(self) -> Option<Code>
        ensures { result ≡ code_of self.code }
    {
        Code::try_from(self.code).ok()
    }
}

impl<'a> Names<'a> {
    // A row's name, as far as the text has it.
    pub(crate) fn name_of(&self, row: Row) -> &'a [u8]
        ensures { result.now ≡ name_of self.now.text.now row }
    {
        let behind = &self.text[row.offset.min(self.text.len())..];
        &behind[..row.length.min(behind.len())]
    }

    // The first row with a name.
    pub(crate) fn row_at(&self, name: &[u8]) -> Option<&'a Row>
        ensures { option_map (λ row. row.now) result ≡ row_at self.now.text.now self.now.rows.now name.now }
    {
        self.rows.iter().find(|row| self.name_of(**row) == name)
    }

    fn code_at(&self, name: &[u8]) -> Option<Code>
        ensures { result ≡ code_at self.now.text.now self.now.rows.now name.now }
    {
        self.row_at(name)?.known_code()
    }

    // The code of the row with a name of one byte.
    pub fn short_code(&self, byte: u8) -> Option<Code>
        ensures { result ≡ short_code self.now.text.now self.now.rows.now byte }
    {
        self.code_at(&[byte])
    }

    // The code of the row with a longer name.
    pub fn long_code(&self, name: &[u8]) -> Option<Code>
        ensures { result ≡ long_code self.now.text.now self.now.rows.now name.now }
    {
        if name.len() < 2 {
            return None;
        }
        self.code_at(name)
    }
}
