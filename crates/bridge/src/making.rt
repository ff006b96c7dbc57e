// Flags made by the number of an option's code, and written as lines.
ghost use Rattle.std.specs.Prelude.{◌≡◌, ◌++◌, length, drop, IfSome, MatchOption};
ghost use Rattle.std.specs.Option.{option_map};
ghost use Rattle.bridge.specs.Answered.{made_by, Answered};
ghost use Rattle.construct.specs.Made.{all_made, from_first};
ghost use Rattle.flags.specs.Codes.{code_of};
ghost use Rattle.flags.specs.Meaning.{meaning};
ghost use Rattle.opt.specs.Opt.{placed};
ghost use Rattle.show.specs.Shown.{shown};

use construct::make;
use flags::{Code, Flag};
use show::Shown;
use std::alloc::Global;

// What callers in Rust and C read of a call, by number: status 0 is no flag, 1 a flag, and 2 that its line found no
// room or no memory.
#[repr(C)]
#[derive(Clone, Copy)]
pub struct Answer {
    pub status: u8,
    pub length: usize,
    pub place: usize,
}

const NO_FLAG: Answer = Answer {
    status: 0,
    length: 0,
    place: 0,
};

const NO_ROOM: Answer = Answer {
    status: 2,
    length: 0,
    place: 0,
};

// The first flag that the option with this number gives of an argument, and the place behind it; none where no option has the number.
pub fn first_of(number: u8, argument: &[u8]) -> Option<(Flag<'_>, usize)>
    ensures answer { option_map placed result ≡ made_by number argument.now }
    ensures all { IfSome (code_of number)
        (λ c. all_made c argument.now ≡ from_first c argument.now (option_map placed result)) }
{
    make(Code::try_from(number).ok()?, argument)
}

// Puts bytes at the front of a buffer, and says how many they are; none where they find no room.
pub(crate) fn put(bytes: &[u8], buffer: &mut [u8]) -> Option<usize>
    ensures { MatchOption result (buffer.new ≡ buffer.old)
        (λ n. (n ≡ length bytes.now) × (buffer.new ≡ bytes.now ++ drop n buffer.old)) }
{
    let length = bytes.len();
    if length > buffer.len() {
        return None;
    }
    buffer[..length].copy_from_slice(bytes);
    Some(length)
}

// Puts the flag's line at the front of `line`, and says how long it is; none where it finds no room or no memory.
fn put_flag(heap: Global, flag: Flag<'_>, line: &mut [u8]) -> Option<usize>
    ensures { MatchOption result (line.new ≡ line.old)
        (λ n. (n ≡ length (shown (meaning flag.entry))) × (line.new ≡ shown (meaning flag.entry) ++ drop n line.old)) }
{
    let text = Shown(flag).to_string(heap).ok()?;
    put(text.as_bytes(), line)
}

// The first flag that the option with this number gives of the argument: its line goes to the front of `line`.
pub fn make_line(heap: Global, number: u8, argument: &[u8], line: &mut [u8]) -> Answer
    ensures { Answered (made_by number argument.now) result line.old line.new }
{
    let Some((flag, place)) = first_of(number, argument) else {
        return NO_FLAG;
    };
    match put_flag(heap, flag, line) {
        Some(length) => Answer {
            status: 1,
            length,
            place,
        },
        None => NO_ROOM,
    }
}
