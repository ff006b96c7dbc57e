// Texts read call by call, under the options of rustc.
ghost use Rattle.std.specs.Prelude.{◌≡◌, [], ◌++◌, None, IfOk, OnOk, string_bytes};
ghost use Rattle.std.specs.Option.{option_map};
ghost use Rattle.bridge.specs.Calls.{counted, call_line, Told, Report};
ghost use Rattle.bridge.specs.Numbers.{told, Written};
ghost use Rattle.flags.specs.Meaning.{meaning};
ghost use Rattle.reader.specs.Cursors.{left_of, at_end};
ghost use Rattle.reading.specs.Left.{coming};
ghost use Rattle.tables.specs.Rustc.{rustc};

use super::making::put;
use flags::Flag;
use reader::Cursor;
use show::Shown;
use std::alloc::{AllocError, Global};
use tables::Rustc;
use text::Refusal;

// What callers in Rust and C read of a number, if there is one.
#[repr(C)]
#[derive(Clone, Copy)]
pub struct Number {
    pub given: bool,
    pub number: usize,
}

impl From<Option<usize>> for Number {
    ghost from_gives = { λ number it. it ≡ told number };

    fn from(number: Option<usize>) -> Number {
        Number {
            given: number.is_some(),
            number: number.unwrap_or(0),
        }
    }
}

// How many flags a text gives. Counted by a loop: a reader is no iterator, since text and table are lent to each call.
#[tactic(auto, using(crate::proofs::Lines::fewer))]
pub fn count(text: &[u8]) -> Result<usize, Refusal>
    ensures { result ≡ counted text.now }
{
    let mut cursor = Cursor::open(text)?;
    let mut flags = 0;
    while let Some(_) = cursor.next(text, &Rustc) {
        flags += 1;
    }
    Ok(flags)
}

// Adds the line of a call, and goes on from a reader, so no `Display`: whether the reader has ended behind it, and the flag that it gave.
fn push_call(out: &mut String, ended: bool, flag: Option<Flag<'_>>) -> Result<(), AllocError>
    ensures { OnOk result (string_bytes out.new ≡ string_bytes out.old ++ call_line ended (option_map meaning flag.entry)) }
{
    let mark = if ended { "ended " } else { "on " };
    match flag {
        Some(flag) => writeln!(out, "{mark}{}", Shown(flag)),
        None => writeln!(out, "{mark}-"),
    }
}

// Adds the line of a call of a reader to which no flag is to come. None comes then either.
fn push_no_flag(out: &mut String, cursor: &mut Cursor, text: &[u8]) -> Result<(), AllocError>
    requires { coming rustc (left_of cursor.old text.now) ≡ [] }
    ensures left { coming rustc (left_of cursor.new text.now) ≡ [] }
    ensures line { OnOk result (string_bytes out.new ≡ string_bytes out.old ++ call_line (at_end cursor.new text.now) None) }
{
    let flag = cursor.next(text, &Rustc);
    push_call(out, cursor.ended(text), flag)
}

// The calls of a reader until it gives no flag, and two more.
#[tactic(auto, using(crate::proofs::Lines::awaits_all, crate::proofs::Lines::awaits_rest, crate::proofs::Lines::awaits_none))]
fn push_calls(out: &mut String, mut cursor: Cursor, text: &[u8]) -> Result<(), AllocError>
    requires { string_bytes out.old ≡ [] }
    ensures { OnOk result (Told (coming rustc (left_of cursor text.now)) (string_bytes out.new)) }
{
    while let Some(flag) = cursor.next(text, &Rustc) {
        push_call(out, cursor.ended(text), Some(flag))?;
    }
    push_call(out, cursor.ended(text), None)?;
    push_no_flag(out, &mut cursor, text)?;
    push_no_flag(out, &mut cursor, text)
}

// What a reader tells of a text, call by call.
pub fn calls(heap: Global, text: &[u8]) -> Result<String, AllocError>
    ensures { IfOk result (λ report. Report text.now (string_bytes report)) }
{
    let mut out = String::new(heap);
    match Cursor::open(text) {
        Ok(cursor) => push_calls(&mut out, cursor, text)?,
        Err(refusal) => writeln!(out, "refused {}", refusal.number())?,
    }
    Ok(out)
}

// The same at the front of `report`: how long it is, or none where it finds no room or no memory.
pub fn write_calls(heap: Global, text: &[u8], report: &mut [u8]) -> Number
    ensures { Written text.now result report.old report.new }
{
    match calls(heap, text) {
        Ok(lines) => put(lines.as_bytes(), report).into(),
        Err(AllocError) => None.into(),
    }
}
