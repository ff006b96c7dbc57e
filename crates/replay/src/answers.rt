// A line of the sample is the number of an option's code, a space, and an argument in hexadecimal digits. Its answer is
// one line too: the flags that the option gives of the argument.
ghost use Rattle.std.specs.Prelude.{◌≡◌, ◌<◌, ◌++◌, length, Some, None, string_bytes, IfSome, IfOk, OnOk};
ghost use Rattle.bridge.specs.Answered.{made_by, all_by};
ghost use Rattle.show.specs.Shown.{shown};

use bridge::first_of;
use flags::{Code, Takes};
use hexadecimal::{Fault, bytes_of};
use show::Shown;
use std::alloc::{AllocError, Global};

// The number and the argument of a line.
fn read_line(heap: Global, line: &str) -> Result<(u8, Vec<u8>), Fault> {
    let (number, digits) = line.split_once(' ').ok_or(Fault::NotOfTheForm)?;
    let number = number.parse().or(Err(Fault::NotOfTheForm))?;
    Ok((number, bytes_of(heap, digits.as_bytes())?))
}

// Adds the first flag that an option gives of an argument, behind a separator, and gives the bytes behind it where the
// option takes a list. The number goes on as a number: the bridge's calls are by it. These are functions and no `Display`, since what is left
// is handed on.
fn push_first<'a>(
    out: &mut String,
    separator: &str,
    number: u8,
    argument: &'a [u8],
) -> Result<Option<&'a [u8]>, AllocError>
    ensures answer { OnOk result (elim (made_by number argument.now)
        [ Some p ↦ string_bytes out.new ≡ string_bytes out.old ++ (separator.now ++ shown p.0) | None ↦ out.new ≡ out.old ]) }
    ensures fewer { IfOk result (λ rest. IfSome rest
        (λ bytes. length (all_by number bytes.now) < length (all_by number argument.now))) }
{
    let Some((flag, place)) = first_of(number, argument) else {
        return Ok(None);
    };
    write!(out, "{separator}{}", Shown(flag))?;
    match Code::try_from(number) {
        Ok(code) if code.takes() == Takes::List => Ok(argument.get(place..)),
        _ => Ok(None),
    }
}

// Adds the flags that an option gives of an argument.
fn push_flags(out: &mut String, number: u8, argument: &[u8]) -> Result<(), AllocError> {
    let mut separator = "";
    let mut rest = Some(argument);
    while let Some(bytes) = rest {
        rest = push_first(out, separator, number, bytes)?;
        separator = "; ";
    }
    Ok(())
}

fn push_answer(heap: Global, out: &mut String, line: &str) -> Result<(), AllocError> {
    let (number, argument) = match read_line(heap, line) {
        Ok(read) => read,
        Err(Fault::NotOfTheForm) => return out.push_str("unreadable"),
        Err(Fault::NoMemory(error)) => return Err(error),
    };
    if first_of(number, argument.as_slice()).is_none() {
        return out.push_str("none");
    }
    push_flags(out, number, argument.as_slice())
}

// The answers to the lines of a sample.
pub fn answers(heap: Global, sample: &str) -> Result<String, AllocError> {
    let mut out = String::new(heap);
    for line in sample.lines() {
        push_answer(heap, &mut out, line)?;
        out.push_str("\n")?;
    }
    Ok(out)
}
