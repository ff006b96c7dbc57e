// The reader: one flag after the other.
ghost use Rattle.std.specs.Prelude.{◌≡◌, ◌≤◌, ◌++◌, length, IfOk};
ghost use Rattle.std.specs.Option.{option_map, option_to_list};
ghost use Rattle.flags.specs.Meaning.{meaning};
ghost use Rattle.reading.specs.Left.{first, after, coming};
ghost use Rattle.reader.specs.Cursors.{left_of, opened, AllComing, at_end, Comes, OnEdges, StaysOnEdges};

use super::cursor::{Cursor, State};
use super::turns::{Turn, one_turn};
use flags::Flag;
use tables::Table;
use text::{Refusal, check_text};

impl Cursor {
    // A reader at the start of a text that is not too long. What is to come there are the flags of its arguments.
    pub fn open(text: &[u8]) -> Result<Cursor, Refusal>
        ensures answer { result ≡ opened text.now }
        ensures all { AllComing text.now }
        ensures edges { IfOk result (λ c. OnEdges c text.now) }
    {
        check_text(text)?;
        Ok(Cursor::between(0))
    }

    // The next flag of a text under a table, or none.
    #[tactic(auto, using(crate::proofs::Comings::gives_comes, crate::proofs::Comings::ends_comes, crate::proofs::TurnEdges::gives_stays, crate::proofs::TurnEdges::passes_stays))]
    pub fn next<'a, T: Table>(&mut self, text: &'a [u8], table: &T) -> Option<Flag<'a>>
        ensures answer { option_map meaning result ≡ option_map (λ p. p.0) (first (T.Table.means table.now) (left_of self.old text.now)) }
        ensures left { left_of self.new text.now ≡ after (first (T.Table.means table.now) (left_of self.old text.now)) }
        ensures within { self.new.at ≤ length text.now }
        ensures comes { Comes (T.Table.means table.now) (left_of self.old text.now) (option_map meaning result) (left_of self.new text.now) }
        ensures edges { StaysOnEdges text.now self.old self.new }
    {
        loop {
            match one_turn(table, *self, text) {
                Turn::Gives(flag, behind) => {
                    *self = behind;
                    return Some(flag);
                }
                Turn::Passes(on) => *self = on,
                Turn::Ends => {
                    *self = Cursor {
                        at: text.len(),
                        state: State::Ended,
                    };
                    return None;
                }
            }
        }
    }

    // Whether the text is read to its end.
    pub fn ended(&self, text: &[u8]) -> bool
        ensures { result ≡ at_end self.now text.now }
    {
        self.at >= text.len()
    }
}
