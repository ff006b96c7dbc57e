// The fields of a flag, each behind a space.
ghost use Rattle.std.specs.Prelude.{Some};
ghost use Rattle.std.specs.Option.{option_map};
ghost use Rattle.flags.specs.Meaning.{meaning, known_modifiers};
ghost use Rattle.show.specs.Shown.{quoted_or_dash, modifiers, fields};

use escape::{Escaped, Quoted};
use flags::{Flag, ModifierList};
use std::fmt;
use words::{Modifier, WordSet, known_words};

// Prints a text in quotes, and a dash for one that is missing.
#[derive(Clone, Copy)]
struct OrDash<'a>(Option<&'a [u8]>);

impl fmt::Display for OrDash<'_> {
    ghost output = { λ it. Some (quoted_or_dash (option_map (λ x. x.now) it.0)) };

    fn fmt<W: fmt::Write>(&self, f: &mut fmt::Formatter<W>) -> fmt::Result {
        match self.0 {
            Some(bytes) => write!(f, "{}", Quoted(bytes)),
            None => f.write_str("-"),
        }
    }
}

// Prints the known modifiers of a list, commas between them.
#[derive(Clone, Copy)]
struct Modifiers<'a>(ModifierList<'a>);

impl fmt::Display for Modifiers<'_> {
    ghost output = { λ it. Some (modifiers (known_modifiers it.0.text.now)) };

    fn fmt<W: fmt::Write>(&self, f: &mut fmt::Formatter<W>) -> fmt::Result {
        let mut separator = "";
        for modifier in known_words::<Modifier>(self.0.text) {
            write!(f, "{separator}{}", Escaped(modifier.spelling()))?;
            separator = ",";
        }
        Ok(())
    }
}

// Prints the fields of a flag.
#[derive(Clone, Copy)]
pub(crate) struct Fields<'a>(pub(crate) Flag<'a>);

impl fmt::Display for Fields<'_> {
    ghost output = { λ it. Some (fields (meaning it.0)) };

    fn fmt<W: fmt::Write>(&self, f: &mut fmt::Formatter<W>) -> fmt::Result {
        match self.0 {
            Flag::Help | Flag::Test | Flag::Version | Flag::Verbose => Ok(()),
            Flag::CrateName(text)
            | Flag::Print(text)
            | Flag::Out(text)
            | Flag::OutDir(text)
            | Flag::Explain(text)
            | Flag::Target(text)
            | Flag::Allow(text)
            | Flag::Warn(text)
            | Flag::ForceWarn(text)
            | Flag::Deny(text)
            | Flag::Forbid(text)
            | Flag::Sysroot(text)
            | Flag::Z(text)
            | Flag::Json(text) => write!(f, " {}", Quoted(text)),
            // Words of five types, so each has an arm. No `Display` of words: it would print what the escape of a spelling prints.
            Flag::CrateType(word) => write!(f, " {}", Escaped(word.spelling())),
            Flag::Emit(word) => write!(f, " {}", Escaped(word.spelling())),
            Flag::CapLints(word) => write!(f, " {}", Escaped(word.spelling())),
            Flag::ErrorFormat(word) => write!(f, " {}", Escaped(word.spelling())),
            Flag::Color(word) => write!(f, " {}", Escaped(word.spelling())),
            Flag::Edition(year) => write!(f, " {year}"),
            Flag::Cfg { name, value }
            | Flag::Codegen { opt: name, value }
            | Flag::Extern { name, path: value } => write!(
                f,
                " {} {}",
                Quoted(name),
                OrDash(value)
            ),
            Flag::ExternLocation { name, location } => {
                write!(f, " {} {}", Quoted(name), Quoted(location))
            }
            Flag::RemapPathPrefix { from, to } => write!(f, " {} {}", Quoted(from), Quoted(to)),
            Flag::LibrarySearchPath { kind, path } => {
                write!(f, " {} {}", Escaped(kind.spelling()), Quoted(path))
            }
            Flag::Link {
                kind,
                modifiers,
                name,
                rename,
            } => write!(
                f,
                " {} [{}] {} {}",
                Escaped(kind.spelling()),
                Modifiers(modifiers),
                Quoted(name),
                OrDash(rename)
            ),
        }
    }
}
