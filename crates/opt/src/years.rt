// `--edition`: a year.
ghost use Rattle.std.specs.Prelude.{◌≡◌, true, None};
ghost use Rattle.std.specs.Option.{option_map};
ghost use Rattle.flags.specs.Meaning.{meaning};
ghost use Rattle.opt.specs.Opt.{unsigned, year_of, edition_of};

use flags::Flag;

fn without_plus(bytes: &[u8]) -> &[u8]
    ensures { result.now ≡ unsigned bytes.now }
{
    bytes.strip_prefix(b"+").unwrap_or(bytes)
}

// Whether there are more bytes behind the zeros in front than a year has digits. No byte behind the first of them is looked at: they may be many.
fn is_long(digits: &[u8]) -> bool
    ensures { result ≡ true → None ≡ year_of digits.now }
{
    match digits.iter().position(|byte| *byte != b'0') {
        Some(zeros) => digits.len() - zeros > 5,
        None => false,
    }
}

// The number that the bytes write: a `+` or nothing, and then digits.
fn year(bytes: &[u8]) -> Option<u16>
    ensures { result ≡ year_of (unsigned bytes.now) }
{
    // a sign and five digits are soon read
    if bytes.len() > 6 && is_long(without_plus(bytes)) {
        return None;
    }
    str::from_utf8(bytes).ok()?.parse().ok()
}

pub fn edition(arg: &[u8]) -> Option<Flag<'_>>
    ensures { option_map meaning result ≡ edition_of arg.now }
{
    Some(Flag::Edition(year(arg)?))
}
