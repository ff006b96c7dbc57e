// Options whose argument is a list of words with commas. Two lines each: a function over both would have to be handed the flag as a function.
// A flag and a place are a pair, which is the project's form of it: a caller takes it apart at once.
ghost use Rattle.std.specs.Prelude.{◌≡◌, ◌<◌, ◌≤◌, length, IfSome};
ghost use Rattle.std.specs.Option.{option_map};
ghost use Rattle.opt.specs.Opt.{placed, onward, crate_type_of, crate_types_of, emit_of, emits_of};

use flags::Flag;
use words::next_word;

// The flag of the first known word, and the place behind it and its comma.
pub fn crate_type(list: &[u8]) -> Option<(Flag<'_>, usize)>
    ensures answer { option_map placed result ≡ crate_type_of list.now }
    ensures within { IfSome result (λ p. (0 < p.1) × (p.1 ≤ length list.now)) }
    ensures whole { crate_types_of list.now ≡ onward crate_types_of list.now (option_map placed result) }
{
    let (word, behind) = next_word(list)?;
    Some((Flag::CrateType(word), behind))
}

// The flag of the first known word, and the place behind it and its comma.
pub fn emit(list: &[u8]) -> Option<(Flag<'_>, usize)>
    ensures answer { option_map placed result ≡ emit_of list.now }
    ensures within { IfSome result (λ p. (0 < p.1) × (p.1 ≤ length list.now)) }
    ensures whole { emits_of list.now ≡ onward emits_of list.now (option_map placed result) }
{
    let (word, behind) = next_word(list)?;
    Some((Flag::Emit(word), behind))
}
