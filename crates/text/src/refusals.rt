// Why a call is declined.
ghost use Rattle.std.specs.Prelude.{◌≡◌, Some};
ghost use Rattle.text.specs.Refusals.{number as number_of, said};

use std::error::Error;
use std::fmt;

#[derive(Clone, Copy, Debug, PartialEq, Eq, Hash)]
pub enum Refusal {
    // a flag whose kind the table does not know
    KindNotInTable = 1,
    // a text field that is not UTF-8
    FieldNotUtf8 = 2,
    // a byte in a field that would end the field when it is read back
    ForbiddenByte = 3,
    // an argument that the sink has no way to write
    CannotCarry = 4,
    // the sink is full
    NoSpace = 5,
    // a text of more than 65,535 bytes
    TextTooLong = 6,
    // a call on a sink that its open argument, or the want of one, does not allow
    OutOfTurn = 7,
    // rows of a table: count, order, overlap, place, name or code
    BadRow = 8,
    // rows of a table: two with the same name
    NameTwice = 9,
    // rows of a table: a home spelling is missing or has another code
    HomeMissing = 10,
}

impl Refusal {
    // The number that callers see. A method under the name that the documents use, and no `From`: `u8::from` would not say which number.
    pub fn number(self) -> u8
        ensures { result ≡ number_of self }
    {
        self as u8
    }
}

impl fmt::Display for Refusal {
    ghost output = { λ x. Some (said x) };

    fn fmt<W: fmt::Write>(&self, f: &mut fmt::Formatter<W>) -> fmt::Result {
        match self {
            Refusal::KindNotInTable => write!(f, "the table does not know the flag's kind"),
            Refusal::FieldNotUtf8 => write!(f, "a text field is not UTF-8"),
            Refusal::ForbiddenByte => write!(f, "a byte would end its field when it is read back"),
            Refusal::CannotCarry => write!(f, "the sink has no way to write the argument"),
            Refusal::NoSpace => write!(f, "the sink is full"),
            Refusal::TextTooLong => write!(f, "a text has at most 65,535 bytes"),
            Refusal::OutOfTurn => write!(f, "the sink does not allow this call now"),
            Refusal::BadRow => write!(f, "a row of the table is wrong"),
            Refusal::NameTwice => write!(f, "two rows of the table have the same name"),
            Refusal::HomeMissing => write!(f, "a home spelling is missing or has another code"),
        }
    }
}

impl Error for Refusal {}
