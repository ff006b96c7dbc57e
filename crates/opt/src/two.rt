// Options whose argument has a byte that parts it.
ghost use Rattle.std.specs.Prelude.{◌≡◌};
ghost use Rattle.std.specs.Option.{option_map};
ghost use Rattle.flags.specs.Meaning.{meaning};
ghost use Rattle.opt.specs.Opt.{quoted, cfg_of, codegen_of, extern_of, extern_location_of, remap_path_prefix_of, library_search_path_of};

use super::parts::optional;
use flags::Flag;
use text::{rsplit_once, split_once, to_str};
use words::{LibraryKind, read_word};

// What stands in quotes: the next quote behind the first is the last byte. One byte alone is not closed: the original's early test, which the look for the
// second quote would cover.
fn unquoted(value: &[u8]) -> Option<&[u8]>
    ensures { option_map (λ x. x.now) result ≡ quoted value.now }
{
    if value.len() < 2 {
        return None;
    }
    let rest = value.strip_prefix(b"\"")?;
    let (inner, behind) = split_once(rest, b'"')?;
    behind.is_empty().then_some(inner)
}

pub fn cfg(arg: &[u8]) -> Option<Flag<'_>>
    ensures { option_map meaning result ≡ cfg_of arg.now }
{
    let (name, value) = optional(to_str(arg)?, b'=');
    match value {
        Some(value) => Some(Flag::Cfg {
            name,
            value: Some(unquoted(value)?),
        }),
        None => Some(Flag::Cfg { name, value: None }),
    }
}

pub fn library_search_path(arg: &[u8]) -> Option<Flag<'_>>
    ensures { option_map meaning result ≡ library_search_path_of arg.now }
{
    match split_once(arg, b'=') {
        Some((kind, path)) => Some(Flag::LibrarySearchPath {
            kind: read_word(kind)?,
            path,
        }),
        None => Some(Flag::LibrarySearchPath {
            kind: LibraryKind::All,
            path: arg,
        }),
    }
}

pub fn codegen(arg: &[u8]) -> Option<Flag<'_>>
    ensures { option_map meaning result ≡ codegen_of arg.now }
{
    let (opt, value) = optional(to_str(arg)?, b'=');
    Some(Flag::Codegen { opt, value })
}

pub fn extern_(arg: &[u8]) -> Option<Flag<'_>>
    ensures { option_map meaning result ≡ extern_of arg.now }
{
    let (name, path) = optional(arg, b'=');
    Some(Flag::Extern {
        name: to_str(name)?,
        path,
    })
}

pub fn extern_location(arg: &[u8]) -> Option<Flag<'_>>
    ensures { option_map meaning result ≡ extern_location_of arg.now }
{
    let (name, location) = split_once(arg, b'=')?;
    Some(Flag::ExternLocation {
        name: to_str(name)?,
        location,
    })
}

// A path may hold `=`, so the last one parts the two.
pub fn remap_path_prefix(arg: &[u8]) -> Option<Flag<'_>>
    ensures { option_map meaning result ≡ remap_path_prefix_of arg.now }
{
    let (from, to) = rsplit_once(arg, b'=')?;
    Some(Flag::RemapPathPrefix { from, to })
}
