// What is printed under an argument: the flags that it gives, and why it, or the rest of it, gives none.
// Functions and no `Display`: each also answers what is owed behind what it prints, and the next goes on from there.
ghost use Rattle.std.specs.Prelude.{◌≡◌, ◌<◌, ◌++◌, length, IfSome, IfOk, OnOk, string_bytes};
ghost use Rattle.construct.specs.Made.{all_made};
ghost use Rattle.flags.specs.Meaning.{meaning};
ghost use Rattle.reading.specs.Reading.{free, step, equipped, alone, long_step, taking_rest, cluster_step};
ghost use Rattle.explain.specs.Told.{flag_line, flag_lines, made_of, passed_over, awaits, told, made_told, equipped_told, alone_told, long_told, rest_told, cluster_told, end_told, state_of};

use super::reasons::{Reason, what_lacks};
use construct::make;
use flags::{Code, Flag, Takes};
use show::Shown;
use std::alloc::AllocError;
use tables::Table;
use text::{Shape, shape_of, split_once};

// What stands between two arguments: nothing, an option that lacks its argument, or the end of the options.
#[derive(Clone, Copy)]
pub(crate) enum Owed {
    Nothing,
    Long(Code),
    Short(Code),
    Ended,
}

fn push_flag(out: &mut String, flag: Flag<'_>) -> Result<(), AllocError>
    ensures { OnOk result (string_bytes out.new ≡ string_bytes out.old ++ flag_line (meaning flag.entry)) }
{
    writeln!(out, "   {}", Shown(flag))
}

fn push_reason(out: &mut String, reason: Reason) -> Result<(), AllocError>
    ensures { OnOk result (string_bytes out.new ≡ string_bytes out.old ++ passed_over reason) }
{
    writeln!(out, "   passed over: {reason}")
}

fn push_awaits(out: &mut String) -> Result<(), AllocError>
    ensures { OnOk result (string_bytes out.new ≡ string_bytes out.old ++ awaits) }
{
    writeln!(out, "   awaits its argument")
}

// Adds the first flag that an option gives of an argument, and gives what is left of a list behind it.
fn push_first<'a>(
    out: &mut String,
    code: Code,
    argument: &'a [u8],
) -> Result<Option<&'a [u8]>, AllocError>
    ensures lines { IfOk result (λ rest. string_bytes out.new ++ flag_lines (made_of code rest) ≡ string_bytes out.old ++ flag_lines (all_made code argument.now)) }
    ensures fewer { IfOk result (λ rest. IfSome rest (λ bytes. length (all_made code bytes.now) < length (all_made code argument.now))) }
{
    let Some((flag, place)) = make(code, argument) else {
        return Ok(None);
    };
    push_flag(out, flag)?;
    if code.takes() == Takes::List {
        Ok(Some(argument.get(place..).unwrap_or(&[])))
    } else {
        Ok(None)
    }
}

// Adds the flags that an option gives of an argument.
fn push_flags(out: &mut String, code: Code, argument: &[u8]) -> Result<(), AllocError>
    ensures { OnOk result (string_bytes out.new ≡ string_bytes out.old ++ flag_lines (all_made code argument.now)) }
{
    let mut rest = Some(argument);
    while let Some(bytes) = rest {
        rest = push_first(out, code, bytes)?;
    }
    Ok(())
}

// The same, and where there are none, why.
fn push_made(out: &mut String, code: Code, argument: &[u8]) -> Result<(), AllocError>
    ensures { OnOk result (string_bytes out.new ≡ string_bytes out.old ++ made_told code argument.now) }
{
    match make(code, argument) {
        Some(_) => push_flags(out, code, argument),
        None => push_reason(out, what_lacks(code, argument)),
    }
}

// `--name=argument`, by what the name stands for.
fn push_equipped(out: &mut String, code: Option<Code>, argument: &[u8]) -> Result<Owed, AllocError>
    ensures told { OnOk result (string_bytes out.new ≡ string_bytes out.old ++ equipped_told code argument.now) }
    ensures state { IfOk result (λ owed. state_of owed ≡ (equipped code argument.now).1) }
{
    match code {
        Some(code) => match code.bare_flag() {
            Some(_) => push_reason(out, Reason::TakesNoArgument)?,
            None => push_made(out, code, argument)?,
        },
        None => push_reason(out, Reason::UnknownOption)?,
    }
    Ok(Owed::Nothing)
}

// `--name`
fn push_alone(out: &mut String, code: Option<Code>) -> Result<Owed, AllocError>
    ensures told { OnOk result (string_bytes out.new ≡ string_bytes out.old ++ alone_told code) }
    ensures state { IfOk result (λ owed. state_of owed ≡ (alone code).1) }
{
    let Some(code) = code else {
        push_reason(out, Reason::UnknownOption)?;
        return Ok(Owed::Nothing);
    };
    match code.bare_flag() {
        Some(flag) => {
            push_flag(out, flag)?;
            Ok(Owed::Nothing)
        }
        None => {
            push_awaits(out)?;
            Ok(Owed::Long(code))
        }
    }
}

// A long option, behind its dashes.
fn push_long<T: Table>(out: &mut String, table: &T, body: &[u8]) -> Result<Owed, AllocError>
    ensures told { OnOk result (string_bytes out.new ≡ string_bytes out.old ++ long_told (T.Table.means table.now) body.now) }
    ensures state { IfOk result (λ owed. state_of owed ≡ (long_step (T.Table.means table.now) body.now).1) }
{
    match split_once(body, b'=') {
        Some((name, argument)) => push_equipped(out, table.lookup_long(name), argument),
        None => push_alone(out, table.lookup_long(body)),
    }
}

// An option in a cluster that takes an argument: the rest, or else the next one.
fn push_rest(out: &mut String, code: Code, rest: &[u8]) -> Result<Owed, AllocError>
    ensures told { OnOk result (string_bytes out.new ≡ string_bytes out.old ++ rest_told code rest.now) }
    ensures state { IfOk result (λ owed. state_of owed ≡ (taking_rest code rest.now).1) }
{
    if rest.is_empty() {
        push_awaits(out)?;
        Ok(Owed::Short(code))
    } else {
        push_made(out, code, rest)?;
        Ok(Owed::Nothing)
    }
}

// `-letters`, read in turn up to an unknown one or one that takes an argument.
fn push_cluster<T: Table>(out: &mut String, table: &T, letters: &[u8]) -> Result<Owed, AllocError>
    ensures told { OnOk result (string_bytes out.new ≡ string_bytes out.old ++ cluster_told (T.Table.means table.now) letters.now) }
    ensures state { IfOk result (λ owed. state_of owed ≡ (cluster_step (T.Table.means table.now) letters.now).1) }
{
    let mut left = letters;
    while let [letter, rest @ ..] = left {
        let Some(code) = table.lookup_short(*letter) else {
            push_reason(out, Reason::UnknownOption)?;
            return Ok(Owed::Nothing);
        };
        let Some(flag) = code.bare_flag() else {
            return push_rest(out, code, rest);
        };
        push_flag(out, flag)?;
        left = rest;
    }
    Ok(Owed::Nothing)
}

// An argument where nothing is owed.
fn push_free<T: Table>(out: &mut String, table: &T, argument: &[u8]) -> Result<Owed, AllocError>
    ensures told { OnOk result (string_bytes out.new ≡ string_bytes out.old ++ told (T.Table.means table.now) free argument.now) }
    ensures state { IfOk result (λ owed. state_of owed ≡ (step (T.Table.means table.now) free argument.now).1) }
{
    match shape_of(argument) {
        Shape::Long(body) => push_long(out, table, body),
        Shape::Short(letters) => push_cluster(out, table, letters),
        Shape::DoubleDash => Ok(Owed::Ended),
        Shape::Empty | Shape::Dash | Shape::Plain => {
            push_reason(out, Reason::NoOption)?;
            Ok(Owed::Nothing)
        }
    }
}

// Adds what an argument gives, and gives what is owed behind it.
pub(crate) fn push_told<T: Table>(
    out: &mut String,
    table: &T,
    owed: Owed,
    argument: &[u8],
) -> Result<Owed, AllocError>
    ensures told { OnOk result (string_bytes out.new ≡ string_bytes out.old ++ told (T.Table.means table.now) (state_of owed) argument.now) }
    ensures state { IfOk result (λ next. state_of next ≡ (step (T.Table.means table.now) (state_of owed) argument.now).1) }
{
    match owed {
        Owed::Nothing => push_free(out, table, argument),
        Owed::Long(code) | Owed::Short(code) => {
            push_made(out, code, argument)?;
            Ok(Owed::Nothing)
        }
        Owed::Ended => {
            push_reason(out, Reason::BehindTheEnd)?;
            Ok(Owed::Ended)
        }
    }
}

// Adds what becomes of an option that still lacks its argument behind the last one.
pub(crate) fn push_end(out: &mut String, owed: Owed) -> Result<(), AllocError>
    ensures { OnOk result (string_bytes out.new ≡ string_bytes out.old ++ end_told (state_of owed)) }
{
    match owed {
        Owed::Long(code) => {
            writeln!(out, "end: the empty argument")?;
            push_made(out, code, &[])
        }
        Owed::Short(_) => writeln!(out, "end: no argument left"),
        Owed::Nothing | Owed::Ended => Ok(()),
    }
}
