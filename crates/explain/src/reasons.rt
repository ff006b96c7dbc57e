// Why an argument gives no flag.
ghost use Rattle.std.specs.Prelude.{◌≡◌, Some};
ghost use Rattle.flags.specs.Codes.{about};
ghost use Rattle.explain.specs.Told.{words, needs, lacks};

use flags::{Code, Kind};
use std::fmt;
use utf8::is_utf8;

#[derive(Clone, Copy)]
pub(crate) enum Reason {
    UnknownOption,
    TakesNoArgument,
    NotUtf8,
    NoKnownWord,
    NotOfTheForm,
    NoOption,
    BehindTheEnd,
}

// What an argument that gives no flag lacks.
#[derive(Clone, Copy)]
enum Need {
    // a known word
    Word,
    // a known word, in a text
    WordInText,
    // a form, in any bytes
    Form,
    // text, perhaps of a form
    Text,
}

impl fmt::Display for Reason {
    ghost output = { λ it. Some (words it) };

    fn fmt<W: fmt::Write>(&self, f: &mut fmt::Formatter<W>) -> fmt::Result {
        f.write_str(match self {
            Reason::UnknownOption => "unknown option",
            Reason::TakesNoArgument => "takes no argument",
            Reason::NotUtf8 => "not UTF-8",
            Reason::NoKnownWord => "no known word",
            Reason::NotOfTheForm => "not of the option's form",
            Reason::NoOption => "no option",
            Reason::BehindTheEnd => "behind the end",
        })
    }
}

fn needs(kind: Kind) -> Need
    ensures { result ≡ needs kind }
{
    match kind {
        Kind::LibrarySearchPath => Need::Word,
        Kind::CrateType | Kind::Emit => Need::Word,
        Kind::CapLints | Kind::ErrorFormat | Kind::Color => Need::Word,
        Kind::Link => Need::WordInText,
        Kind::Edition | Kind::RemapPathPrefix => Need::Form,
        _ => Need::Text,
    }
}

// Why an option gives nothing of an argument, where it gives nothing.
pub(crate) fn what_lacks(code: Code, argument: &[u8]) -> Reason
    ensures { result ≡ lacks (needs (about code).makes) argument.now }
{
    match needs(code.kind()) {
        Need::Word => Reason::NoKnownWord,
        Need::WordInText if is_utf8(argument) => Reason::NoKnownWord,
        Need::Form => Reason::NotOfTheForm,
        Need::Text if is_utf8(argument) => Reason::NotOfTheForm,
        Need::WordInText | Need::Text => Reason::NotUtf8,
    }
}
