// Where a reader stands.
use flags::Code;

#[derive(Clone, Copy, Debug, PartialEq, Eq)]
pub(crate) enum State {
    // at the start of an argument
    Between,
    // at a letter of `-letters`
    Cluster,
    // in a list: its option, and how many of its bytes are left
    List(Code, usize),
    Ended,
}

// A place in a text, and what is to be read there.
#[derive(Clone, Copy, Debug, PartialEq, Eq)]
pub struct Cursor {
    pub(crate) at: usize,
    pub(crate) state: State,
}

impl Cursor {
    ghost use Rattle.std.specs.Prelude.{◌≡◌};
    ghost use Rattle.reader.specs.Cursors.{cursor_between};

    // At the start of an argument.
    pub(crate) fn between(at: usize) -> Cursor
        ensures { result ≡ cursor_between at }
    {
        Cursor {
            at,
            state: State::Between,
        }
    }
}
