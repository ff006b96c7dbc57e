// One turn of a reader: a flag, something passed over, or the end.
// The table stands beside the place: a struct of both would ask `T: Table` of the turns that use no table.
// The clause `edges` ties a turn to the place that it is of, so no type can carry it.
ghost use Rattle.std.specs.Prelude.{◌≡◌, ℕ, ◌+◌, ◌-◌, ◌≤◌, List, length, drop};
ghost use Rattle.flags.specs.Meaning.{Bytes};
ghost use Rattle.text.specs.Arguments.{separator, pieces, place_behind};
ghost use Rattle.text.specs.Shapes.{dash};
ghost use Rattle.reading.specs.Left.{behind as behind_of, first_from, first_long, first_alone, first_equipped, first};
ghost use Rattle.reading.specs.Reading.{free};
ghost use Rattle.reader.specs.Cursors.{args_behind, left_in, left_of};
ghost use Rattle.reader.specs.Turns.{Tells, TellsFrom, TellsAt, TellsIn, weight, weight_in, TellsMade, ArgumentAt, ByteAt, EdgesFrom, EdgesOf, EdgesBehind, EdgesIn};
ghost use Rattle.reader.specs.Turns.{first_taken_at, first_rest_at, first_letter_at};
ghost use Rattle.tables.specs.Tables.{Options};

use super::cursor::{Cursor, State};
use super::place::{Argument, Place};
use construct::make;
use flags::{Code, Flag};
use tables::Table;
use text::{SEPARATOR, Shape, shape_of, split_once};

// Three cases, each with what it needs: neither an Option nor a Result has so many.
#[derive(Clone, Copy)]
pub(crate) enum Turn<'a> {
    Gives(Flag<'a>, Cursor),
    Passes(Cursor),
    Ends,
}

// An option takes an argument, or what is left of its list.
#[tactic(auto, using(crate::proofs::Taking::rest_tells, crate::proofs::TurnEdges::gives_rest, crate::proofs::TurnEdges::gives_behind, crate::proofs::TurnEdges::passes_behind))]
fn taken(code: Code, argument: Argument<'_>) -> Turn<'_>
    ensures tells { TellsMade code argument.entry result }
    ensures edges { EdgesOf argument.entry result }
{
    match make(code, argument.bytes) {
        Some((flag, place)) if place < argument.bytes.len() => {
            let left = argument.bytes.len() - place;
            let rest = Cursor {
                at: argument.end - left,
                state: State::List(code, left),
            };
            Turn::Gives(flag, rest)
        }
        Some((flag, _)) => Turn::Gives(flag, Cursor::between(argument.behind.at)),
        None => Turn::Passes(Cursor::between(argument.behind.at)),
    }
}

// An option takes the whole argument at a place.
// Code and place are two parameters: the code is from the table, the place from the text, and a turn puts another of them with the other.
fn takes_next(code: Code, here: Place<'_>) -> Turn<'_>
    ensures tells { (o : Options) → TellsAt o here.entry (first_taken_at o code) result }
    ensures edges { EdgesFrom here.entry result }
{
    taken(code, here.argument())
}

// `--name`, with what stands behind it.
#[tactic(auto, using(crate::proofs::TurnEdges::gives_here, crate::proofs::TurnEdges::passes_here))]
fn alone<'a, T: Table>(table: &T, name: &[u8], behind: Place<'a>) -> Turn<'a>
    ensures tells { let o = T.Table.means table.now in let text = behind.entry.text.now in let at = behind.entry.at in (args : List Bytes) → pieces separator (drop at text) ≡ behind_of args → TellsFrom o text at (first_alone args (λ t. first_from o t args) (o.long name.now)) result }
    ensures edges { EdgesFrom behind.entry result }
{
    let go_on = Cursor::between(behind.at);
    match table.lookup_long(name) {
        Some(code) => match code.bare_flag() {
            Some(flag) => Turn::Gives(flag, go_on),
            None => takes_next(code, behind),
        },
        None => Turn::Passes(go_on),
    }
}

// `--name=argument`.
#[tactic(auto, using(crate::proofs::TurnEdges::passes_behind))]
fn equipped<'a, T: Table>(table: &T, name: &[u8], argument: Argument<'a>) -> Turn<'a>
    ensures tells { let o = T.Table.means table.now in (text : Bytes) (args : List Bytes) → ArgumentAt text argument.entry args → TellsFrom o text argument.entry.behind.at (first_equipped args (λ t. first_from o t args) (o.long name.now) argument.entry.bytes.now) result }
    ensures edges { EdgesOf argument.entry result }
{
    let go_on = Cursor::between(argument.behind.at);
    match table.lookup_long(name) {
        Some(code) => match code.bare_flag() {
            Some(_) => Turn::Passes(go_on),
            None => taken(code, argument),
        },
        None => Turn::Passes(go_on),
    }
}

// A long option, behind its dashes.
fn long_turn<'a, T: Table>(table: &T, body: Argument<'a>) -> Turn<'a>
    ensures tells { let o = T.Table.means table.now in (text : Bytes) (args : List Bytes) → ArgumentAt text body.entry args → TellsFrom o text body.entry.behind.at (first_long args (λ t. first_from o t args) o body.entry.bytes.now) result }
    ensures edges { EdgesOf body.entry result }
{
    match split_once(body.bytes, b'=') {
        Some((name, bytes)) => equipped(table, name, body.last(bytes)),
        None => alone(table, body.bytes, body.behind),
    }
}

// An option in a cluster takes the rest of its argument at a place, or else the next argument.
fn takes_rest(code: Code, here: Place<'_>) -> Turn<'_>
    ensures tells { (o : Options) → TellsAt o here.entry (first_rest_at o code) result }
    ensures edges { EdgesFrom here.entry result }
{
    match here.byte() {
        Some(SEPARATOR) => takes_next(code, here.next()),
        Some(_) => takes_next(code, here),
        None => Turn::Ends,
    }
}

// A letter of a cluster, which stands before a place.
fn letter_turn<'a, T: Table>(table: &T, letter: u8, here: Place<'a>) -> Turn<'a>
    ensures tells { let o = T.Table.means table.now in TellsAt o here.entry (first_letter_at o letter) result }
    ensures edges { EdgesFrom here.entry result }
{
    match table.lookup_short(letter) {
        Some(code) => match code.bare_flag() {
            Some(flag) => {
                let next = Cursor {
                    at: here.at,
                    state: State::Cluster,
                };
                Turn::Gives(flag, next)
            }
            None => takes_rest(code, here),
        },
        None => skipped(here),
    }
}

// The rest of the argument at a place is passed over.
#[tactic(auto, using(crate::proofs::TurnEdges::passes_over))]
fn skipped(here: Place<'_>) -> Turn<'_>
    ensures tells { let text = here.entry.text.now in let at = here.entry.at in (o : Options) → TellsFrom o text (place_behind separator text at) (first_from o free (args_behind text at)) result }
    ensures edges { EdgesFrom here.entry result }
{
    Turn::Passes(Cursor::between(here.argument().behind.at))
}

// What is left of a list.
fn list_turn(code: Code, left: usize, here: Place<'_>) -> Turn<'_>
    ensures tells { let text = here.entry.text.now in let at = here.entry.at in (o : Options) (w : ℕ) → weight_in (State.List code left) (length text - at) ≤ w → Tells o text w (first o (left_in (State.List code left) text at)) result }
    ensures edges { EdgesIn (State.List code left) here.entry result }
{
    taken(code, here.part(left))
}

// An argument that begins with a dash.
#[tactic(auto, using(crate::proofs::TurnEdges::passes_over))]
fn option_turn<'a, T: Table>(table: &T, here: Place<'a>) -> Turn<'a>
    requires { ByteAt here.text.now here.at dash }
    ensures tells { TellsIn (T.Table.means table.now) State.Between here.entry result }
    ensures edges { EdgesFrom here.entry result }
{
    let argument = here.argument();
    match shape_of(argument.bytes) {
        Shape::Long(bytes) => long_turn(table, argument.last(bytes)),
        Shape::Short(_) => Turn::Passes(Cursor {
            at: here.at + 1,
            state: State::Cluster,
        }),
        Shape::DoubleDash => Turn::Ends,
        Shape::Empty | Shape::Dash | Shape::Plain => {
            Turn::Passes(Cursor::between(argument.behind.at))
        }
    }
}

// A turn at a place: a match on state and next byte together, which is the project's form.
#[tactic(auto, using(crate::proofs::TurnEdges::turns_here))]
fn turn_at<'a, T: Table>(table: &T, state: State, here: Place<'a>) -> Turn<'a>
    ensures tells { TellsIn (T.Table.means table.now) state here.entry result }
    ensures edges { EdgesIn state here.entry result }
{
    match (state, here.byte()) {
        (State::Between, Some(b'-')) => option_turn(table, here),
        (State::Between, Some(_)) => skipped(here),
        (State::Cluster, Some(SEPARATOR)) => Turn::Passes(Cursor::between(here.at + 1)),
        // no letter: the argument is passed over from the byte on, not from behind it, where there may be no edge
        (State::Cluster, Some(0x80..)) => skipped(here),
        (State::Cluster, Some(letter)) => letter_turn(table, letter, here.next()),
        (State::List(code, left), _) => list_turn(code, left, here),
        (State::Ended, _) => Turn::Ends,
        (_, None) => Turn::Ends,
    }
}

// A turn of a cursor. A place past the text is its end.
pub(crate) fn one_turn<'a, T: Table>(table: &T, cursor: Cursor, text: &'a [u8]) -> Turn<'a>
    ensures tells { let o = T.Table.means table.now in Tells o text.now (weight text.now cursor) (first o (left_of cursor text.now)) result }
    ensures edges { EdgesBehind text.now cursor result }
{
    let here = Place {
        text,
        at: cursor.at.min(text.len()),
    };
    turn_at(table, cursor.state, here)
}
