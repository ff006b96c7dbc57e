// What the comparison calls, exported to Rust and C. An exported function stands in a static library, which no crate
// can use, so the types and the making of flags are those of `bridge`. Each export is one line over the library, because
// C can call only functions of these names and types; its contract says that it answers as the library does.
#![tactic(auto)]

ghost use Rattle.std.specs.Prelude.{◌≡◌, Some, None, MatchResult};
ghost use Rattle.utf8.specs.Utf8.{utf8};
ghost use Rattle.text.specs.Cuts.{begins, ends, first_place, cut_first};
ghost use Rattle.bridge.specs.Answered.{Answered, made_by};
ghost use Rattle.bridge.specs.Calls.{counted};
ghost use Rattle.bridge.specs.Numbers.{told, Written};
ghost use Rattle.bridge.specs.Places.{found, lengths};

use bridge::{Answer, Found, Lengths, Number, count, make_line, write_calls};
use std::alloc::Global;
use text::{ends_with, find, split_once, starts_with};
use utf8::is_utf8;

// Whether the bytes are well-formed UTF-8.
#[unsafe(no_mangle)]
pub extern "C" fn hakechrome_is_utf8(bytes: &[u8]) -> bool
    ensures { result ≡ utf8 bytes.now }
{
    is_utf8(bytes)
}

// The first flag that the option with this number gives of the argument: its line goes to the front of `line`.
#[unsafe(no_mangle)]
pub extern "C" fn hakechrome_make(
    heap: Global,
    number: u8,
    argument: &[u8],
    line: &mut [u8],
) -> Answer
    ensures { Answered (made_by number argument.now) result line.old line.new }
{
    make_line(heap, number, argument, line)
}

// What a reader tells of the text, call by call, goes to the front of `report`: how long it is.
#[unsafe(no_mangle)]
pub extern "C" fn hakechrome_calls(heap: Global, text: &[u8], report: &mut [u8]) -> Number
    ensures { Written text.now result report.old report.new }
{
    write_calls(heap, text, report)
}

// How many flags the text gives, where it is not too long.
#[unsafe(no_mangle)]
pub extern "C" fn hakechrome_count(text: &[u8]) -> Number
    ensures { MatchResult (counted text.now) (λ n. result ≡ told (Some n)) (λ refusal. result ≡ told None) }
{
    count(text).ok().into()
}

// The place of the first `byte`.
#[unsafe(no_mangle)]
pub extern "C" fn hakechrome_find(bytes: &[u8], byte: u8) -> Found
    ensures { result ≡ found (first_place byte bytes.now) }
{
    find(bytes, byte).into()
}

// How much stands before the first `byte`, and how much behind it.
#[unsafe(no_mangle)]
pub extern "C" fn hakechrome_split_once(bytes: &[u8], byte: u8) -> Lengths
    ensures { result ≡ lengths (cut_first byte bytes.now) }
{
    split_once(bytes, byte).into()
}

#[unsafe(no_mangle)]
pub extern "C" fn hakechrome_starts_with(bytes: &[u8], byte: u8) -> bool
    ensures { result ≡ begins byte bytes.now }
{
    starts_with(bytes, byte)
}

#[unsafe(no_mangle)]
pub extern "C" fn hakechrome_ends_with(bytes: &[u8], byte: u8) -> bool
    ensures { result ≡ ends byte bytes.now }
{
    ends_with(bytes, byte)
}
