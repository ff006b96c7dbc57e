// Places in a text, and what stands there.
ghost use Rattle.std.specs.Prelude.{◌≡◌, ◌+◌, ◌<◌, ◌≤◌, length, take, drop, slice_index};

use text::{SEPARATOR, piece_at};

// A place in a text.
#[derive(Clone, Copy)]
pub(crate) struct Place<'a> {
    pub(crate) text: &'a [u8],
    pub(crate) at: usize,
    ghost within: { at ≤ length text.now },
}

// An argument or the last bytes of one, the place where they end, and the place where reading goes on behind them.
#[derive(Clone, Copy)]
pub(crate) struct Argument<'a> {
    pub(crate) bytes: &'a [u8],
    pub(crate) end: usize,
    pub(crate) behind: Place<'a>,
    ghost long: { length bytes.now ≤ end },
}

impl<'a> Place<'a> {
    ghost use Rattle.text.specs.Arguments.{separator, piece_at, place_behind};
    ghost use Rattle.reader.specs.Cursors.{args_behind, AtEdge};
    ghost use Rattle.reader.specs.Turns.{ArgumentAt, ArgumentFrom, PartAt, ToldByte};

    // The byte there, if the text goes on.
    pub(crate) fn byte(self) -> Option<u8>
        ensures { ToldByte self.entry.text.now self.entry.at result }
    {
        self.text.get(self.at).copied()
    }

    // The place behind the byte there, which is ASCII: so that place is an edge.
    pub(crate) fn next(self) -> Place<'a>
        requires inside { self.at < length self.text.now }
        requires ascii { slice_index self.text.now self.at < 128 }
        ensures text { result.text.now ≡ self.entry.text.now }
        ensures at { result.at ≡ self.entry.at + 1 }
        ensures edge { AtEdge self.entry.text.now result.at }
    {
        Place {
            text: self.text,
            at: self.at + 1,
        }
    }

    // The argument from there on.
    pub(crate) fn argument(self) -> Argument<'a>
        ensures piece { result.bytes.now ≡ piece_at separator self.entry.text.now self.entry.at }
        ensures behind { result.behind.at ≡ place_behind separator self.entry.text.now self.entry.at }
        ensures there { ArgumentAt self.entry.text.now result (args_behind self.entry.text.now self.entry.at) }
        ensures edges { ArgumentFrom self.entry result }
    {
        let (bytes, behind) = piece_at(self.text, SEPARATOR, self.at);
        Argument {
            bytes,
            end: self.at + bytes.len(),
            behind: Place {
                text: self.text,
                at: behind,
            },
        }
    }

    // So many bytes from there on, or all that there are. Reading goes on at their end.
    pub(crate) fn part(self, most: usize) -> Argument<'a>
        ensures bytes { result.bytes.now ≡ take most (drop self.entry.at self.entry.text.now) }
        ensures end { drop result.end self.entry.text.now ≡ drop (self.entry.at + most) self.entry.text.now }
        ensures behind { result.behind.at ≡ result.end }
        ensures later { self.entry.at ≤ result.end }
        ensures there { PartAt self.entry.text.now result }
        ensures edges { AtEdge self.entry.text.now (self.entry.at + most) → ArgumentFrom self.entry result }
    {
        let rest = &self.text[self.at..];
        let bytes = &rest[..most.min(rest.len())];
        let behind = Place {
            text: self.text,
            at: self.at + bytes.len(),
        };
        Argument {
            bytes,
            end: behind.at,
            behind,
        }
    }
}

impl<'a> Argument<'a> {
    // Its last bytes.
    pub(crate) fn last(self, bytes: &'a [u8]) -> Argument<'a>
        requires { length bytes.now ≤ length self.bytes.now }
        ensures bytes { result.bytes.now ≡ bytes.now }
        ensures end { result.end ≡ self.entry.end }
        ensures behind { result.behind ≡ self.entry.behind }
    {
        Argument {
            bytes,
            end: self.end,
            behind: self.behind,
        }
    }
}
