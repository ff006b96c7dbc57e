// A line of the sample is a text in hexadecimal digits. Its answer is what a reader of the text tells, a line for each call.
ghost use Rattle.std.specs.Prelude.{string_bytes, IfOk, OnOk};
ghost use Rattle.std.specs.Str.Lines.{lines};
ghost use Rattle.reread.specs.Answers.{Answered, AllAnswered};

use bridge::calls;
use hexadecimal::{Fault, bytes_of};
use std::alloc::{AllocError, Global};

// Adds the answer to a line.
fn push_answer(heap: Global, out: &mut String, line: &str) -> Result<(), AllocError>
    ensures { OnOk result (Answered line.now (string_bytes out.old) (string_bytes out.new)) }
{
    match bytes_of(heap, line.as_bytes()) {
        Ok(text) => out.push_str(calls(heap, text.as_slice())?.as_str()),
        Err(Fault::NotOfTheForm) => out.push_str("unreadable\n"),
        Err(Fault::NoMemory(error)) => Err(error),
    }
}

// The answers to the lines of a sample.
pub fn answers(heap: Global, sample: &str) -> Result<String, AllocError>
    ensures { IfOk result (λ out. AllAnswered (lines sample.now) (string_bytes out)) }
{
    let mut out = String::new(heap);
    for line in sample.lines() {
        push_answer(heap, &mut out, line)?;
    }
    Ok(out)
}
