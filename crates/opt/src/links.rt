// `-l`: a library to link.
ghost use Rattle.std.specs.Prelude.{◌≡◌};
ghost use Rattle.std.specs.Option.{option_map};
ghost use Rattle.flags.specs.Meaning.{meaning};
ghost use Rattle.opt.specs.Opt.{held, link_kind_of, linked, link_of};

use super::parts::optional;
use flags::{Flag, ModifierList};
use text::{split_once, to_str};
use words::{LinkKind, read_word};

// A kind and its list of modifiers, which is empty if there is none.
fn kind_and_modifiers(bytes: &[u8]) -> Option<(LinkKind, &[u8])>
    ensures { option_map held result ≡ link_kind_of bytes.now }
{
    let (word, list) = optional(bytes, b':');
    Some((read_word(word)?, list.unwrap_or(&[])))
}

// The flag for a name that may have a rename behind it.
fn of_kind<'a>(named: &'a [u8], kind: LinkKind, modifiers: &'a [u8]) -> Flag<'a>
    ensures { meaning result ≡ linked named.now kind modifiers.now }
{
    let (name, rename) = optional(named, b':');
    Flag::Link {
        kind,
        modifiers: ModifierList { text: modifiers },
        name,
        rename,
    }
}

pub fn link(arg: &[u8]) -> Option<Flag<'_>>
    ensures { option_map meaning result ≡ link_of arg.now }
{
    let text = to_str(arg)?;
    match split_once(text, b'=') {
        Some((front, named)) => {
            let (kind, modifiers) = kind_and_modifiers(front)?;
            Some(of_kind(named, kind, modifiers))
        }
        None => Some(of_kind(text, LinkKind::Dylib, &[])),
    }
}
