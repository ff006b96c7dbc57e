// The report, line by line.
ghost use Rattle.std.specs.Prelude.{◌≡◌, ◌++◌, IfOk, OnOk, string_bytes};
ghost use Rattle.utf8.specs.Utf8.{utf8};
ghost use Rattle.text.specs.Shapes.{form};
ghost use Rattle.explain.specs.Report.{shape_name, encoding_name, line, heading, accepted, refused, report};

use super::told::{Owed, push_end, push_told};
use escape::Escaped;
use std::alloc::{AllocError, Global};
use tables::Rustc;
use text::{Refusal, Shape, arguments_of, check_text, count, shape_of};
use utf8::is_utf8;

// Words of this report alone, so no Display of `Shape`.
fn name_of(shape: Shape<'_>) -> &'static str
    ensures { result.now ≡ shape_name (form shape.entry) }
{
    match shape {
        Shape::Empty => "empty",
        Shape::Dash => "lone dash",
        Shape::DoubleDash => "end",
        Shape::Long(_) => "long option",
        Shape::Short(_) => "short option",
        Shape::Plain => "no option",
    }
}

// Words of this report alone too.
fn encoding_of(argument: &[u8]) -> &'static str
    ensures { result.now ≡ encoding_name (utf8 argument.now) }
{
    if is_utf8(argument) {
        "UTF-8"
    } else {
        "not UTF-8"
    }
}

// Adds the line of one argument. A function and no `Display`: a type for it would be made in one place alone, to be printed there.
fn push_line(out: &mut String, number: usize, argument: &[u8]) -> Result<(), AllocError>
    ensures { OnOk result (string_bytes out.new ≡ string_bytes out.old ++ line number argument.now) }
{
    let bytes = Escaped(argument);
    let shape = name_of(shape_of(argument));
    let encoding = encoding_of(argument);
    writeln!(out, "{number}: {bytes} ({shape}, {encoding})")
}

// Heap and text are two parameters: the library's `format!` asks for the heap by itself, and a struct of both would be taken apart in each call.
fn heading(heap: Global, text: &[u8]) -> Result<String, AllocError>
    ensures { IfOk result (λ s. string_bytes s ≡ heading text.now) }
{
    let bytes = text.len();
    let arguments = count(text);
    format!(in heap; "{bytes} bytes, {arguments} arguments\n")
}

fn accepted(heap: Global, text: &[u8]) -> Result<String, AllocError>
    ensures { IfOk result (λ s. string_bytes s ≡ accepted text.now) }
{
    let mut out = heading(heap, text)?;
    let mut owed = Owed::Nothing;
    for (i, argument) in arguments_of(text).enumerate() {
        push_line(&mut out, i + 1, argument)?;
        owed = push_told(&mut out, &Rustc, owed, argument)?;
    }
    push_end(&mut out, owed)?;
    Ok(out)
}

fn refused(heap: Global, refusal: Refusal) -> Result<String, AllocError>
    ensures { IfOk result (λ s. string_bytes s ≡ refused refusal) }
{
    let number = refusal.number();
    format!(in heap; "refused {number}: {refusal}\n")
}

// What is printed of a text.
pub fn explained(heap: Global, text: &[u8]) -> Result<String, AllocError>
    ensures { IfOk result (λ s. string_bytes s ≡ report text.now) }
{
    match check_text(text) {
        Ok(()) => accepted(heap, text),
        Err(refusal) => refused(heap, refusal),
    }
}
