// A text as a list of arguments with 0x1f between them.
ghost use Rattle.std.specs.Prelude.{◌≡◌, ◌+◌, ◌<◌, ◌≤◌, true, false, map, length, if◌then◌else◌, Ok, Err, Decides, nat_le};
ghost use Rattle.std.specs.Iterator.{YieldsFirstRef, item_count};
ghost use Rattle.text.specs.Arguments.{separator, longest_text, arguments, piece_at, place_behind, CutAtEdges, ArgumentsAtEdges, left, Carried, JoinsBack, CutsBack};
ghost use Rattle.text.specs.Cuts.{occurrences};

use super::refusals::Refusal;
use super::string::{contains, piece_at, split_once};

pub const SEPARATOR: u8 = 0x1f;

pub const LONGEST_TEXT: usize = 65_535;

// Declines a text that is too long.
pub fn check_text(text: &[u8]) -> Result<(), Refusal>
    ensures { result ≡ (if nat_le (length text.now) longest_text then Ok tt else Err Refusal.TextTooLong) }
{
    if text.len() <= LONGEST_TEXT {
        Ok(())
    } else {
        Err(Refusal::TextTooLong)
    }
}

// How many arguments the text has.
#[tactic(auto, using(crate::proofs::Joining::separators_counted, crate::proofs::Joining::arguments_counted, crate::proofs::Joining::joins_back))]
pub fn count(text: &[u8]) -> usize
    ensures answer { result ≡ length (arguments text.now) }
    ensures one_more_than_separators { 0 < length text.now → result ≡ occurrences separator text.now + 1 }
    ensures joins_back { JoinsBack text.now }
{
    if text.is_empty() {
        return 0;
    }
    text.iter().filter(|b| **b == SEPARATOR).count() + 1
}

// The argument that begins at a place, and the place behind it and its separator.
pub fn argument_at(text: &[u8], at: usize) -> (&[u8], usize)
    ensures argument { result.0.now ≡ piece_at separator text.now at }
    ensures behind { result.1 ≡ place_behind separator text.now at }
    ensures edges { CutAtEdges separator text.now at }
{
    piece_at(text, SEPARATOR, at)
}

// The arguments of a text, one behind the other.
#[derive(Clone, Copy)]
pub struct Arguments<'a> {
    // the text from the next argument on, until the last is given
    rest: Option<&'a [u8]>,
}

impl<'a> Iterator for Arguments<'a> {
    type Item = &'a [u8];

    ghost next_gives = { YieldsFirstRef left };

    ghost remaining = { item_count left };

    fn next(&mut self) -> Option<&'a [u8]> {
        let rest = self.rest.take()?;
        let Some((argument, behind)) = split_once(rest, SEPARATOR) else {
            return Some(rest);
        };
        self.rest = Some(behind);
        Some(argument)
    }
}

pub fn arguments_of(text: &[u8]) -> Arguments<'_>
    ensures items { left result ≡ arguments text.now }
    ensures few { length (left result) ≤ length text.now + 1 }
    ensures edges { ArgumentsAtEdges text.now 0 (left result) }
{
    Arguments {
        rest: (!text.is_empty()).then_some(text),
    }
}

// Whether cutting the joined text gives these arguments back: none holds a separator, and they are not one empty argument.
pub fn can_join(list: &[&[u8]]) -> bool
    ensures carried { Decides result (Carried (map (λ x. x.now) list.now)) }
    ensures back { Decides result (CutsBack (map (λ x. x.now) list.now)) }
{
    let lone_empty = matches!(list, [[]]);
    !lone_empty && list.iter().all(|argument| !contains(argument, SEPARATOR))
}
