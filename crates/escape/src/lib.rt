// Bytes for a person to read: printable ASCII as it is, and an escape for each other byte.
#![tactic(auto)]

ghost use Rattle.std.specs.Prelude.{◌≡◌, ◌+◌, ◌*◌, ◌<◌, ◌≤◌, ◌++◌, length, take, Some};
ghost use Rattle.std.specs.Char.{digit_char};
ghost use Rattle.std.specs.Fmt.{WritesOnOk};
ghost use Rattle.std.specs.List.{flat_map};
ghost use Rattle.std.specs.Str.{IsAscii, IsUtf8};
ghost use Rattle.escape.specs.Escaped.{escaped_byte, escaped, quoted};

use std::fmt;

// So many bytes are escaped at a time, and their escapes are written at once: a call of the writer for each byte costs much more.
const PART: usize = 32;

// No escape is longer.
const LONGEST: usize = 4;

// The digit of a number below 16.
fn digit(n: u8) -> u8
    requires { n < 16 }
    ensures { result ≡ digit_char n }
{
    if n < 10 { b'0' + n } else { b'a' + (n - 10) }
}

// Puts the escape of a byte at a place, and gives the place behind it. `mark` is the byte that takes a backslash before it,
// as a backslash itself does: the quote inside quotes.
#[tactic(auto, using(crate::proofs::Ascii::ascii_escape))]
fn put_byte(room: &mut [u8], at: usize, mark: u8, byte: u8) -> usize
    requires { at + 4 ≤ length room.old }
    ensures text { take result room.new ≡ take at room.old ++ escaped_byte mark byte }
    ensures within { result ≤ at + 4 }
    ensures size { length room.new ≡ length room.old }
    ensures ascii { mark < 128 → IsAscii (escaped_byte mark byte) }
{
    if byte == b'\\' || byte == mark {
        room[at] = b'\\';
        room[at + 1] = byte;
        at + 2
    } else if byte >= b' ' && byte <= b'~' {
        room[at] = byte;
        at + 1
    } else {
        room[at] = b'\\';
        room[at + 1] = b'x';
        room[at + 2] = digit(byte / 16);
        room[at + 3] = digit(byte % 16);
        at + 4
    }
}

// Puts the escapes of bytes at the front, and gives the place behind them.
fn put_bytes(room: &mut [u8], mark: u8, bytes: &[u8]) -> usize
    requires { 4 * length bytes.now ≤ length room.old }
    ensures text { take result room.new ≡ flat_map (escaped_byte mark) bytes.now }
    ensures within { result ≤ length room.new }
    ensures ascii { mark < 128 → IsUtf8 (take result room.new) }
{
    let mut at = 0;
    for byte in bytes {
        at = put_byte(room, at, mark, *byte);
    }
    at
}

// Prints a few bytes. The mark is ASCII, so that their escapes are text.
fn write_part<W: fmt::Write>(f: &mut fmt::Formatter<W>, mark: u8, bytes: &[u8]) -> fmt::Result
    requires { (mark < 128) × (length bytes.now ≤ 32) }
    ensures { WritesOnOk W.write_str_gives f.old result (flat_map (escaped_byte mark) bytes.now) f.new }
{
    let mut room = [0; LONGEST * PART];
    let end = put_bytes(&mut room, mark, bytes);
    match str::from_utf8(&room[..end]) {
        Ok(text) => f.write_str(text),
        Err(_) => unreachable!(),
    }
}

// Prints each byte, with the same mark.
fn write_marked<W: fmt::Write>(f: &mut fmt::Formatter<W>, mark: u8, bytes: &[u8]) -> fmt::Result
    requires { mark < 128 }
    ensures { WritesOnOk W.write_str_gives f.old result (flat_map (escaped_byte mark) bytes.now) f.new }
{
    let mut rest = bytes;
    while !rest.is_empty() {
        let (part, later) = rest.split_at(rest.len().min(PART));
        write_part(f, mark, part)?;
        rest = later;
    }
    Ok(())
}

// Prints its bytes, a backslash written twice.
#[derive(Clone, Copy)]
pub struct Escaped<'a>(pub &'a [u8]);

impl fmt::Display for Escaped<'_> {
    ghost output = { λ it. Some (escaped it.0.now) };

    fn fmt<W: fmt::Write>(&self, f: &mut fmt::Formatter<W>) -> fmt::Result {
        write_marked(f, b'\\', self.0)
    }
}

// Prints its bytes in double quotes, with a backslash before each quote and backslash inside.
#[derive(Clone, Copy)]
pub struct Quoted<'a>(pub &'a [u8]);

impl fmt::Display for Quoted<'_> {
    ghost output = { λ it. Some (quoted it.0.now) };

    fn fmt<W: fmt::Write>(&self, f: &mut fmt::Formatter<W>) -> fmt::Result {
        f.write_str("\"")?;
        write_marked(f, b'"', self.0)?;
        f.write_str("\"")
    }
}
