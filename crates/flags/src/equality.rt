// Equality of flags: by what they mean, not by how a link's modifiers were written.
ghost use Rattle.flags.specs.Meaning.{meaning, TellsEqual};

use super::flag::Flag;

// `==`, with a clause that says what it tells: whether two flags mean the same.
// They do when they have the same kind and fields, byte for byte, and of links the same known modifiers.
#[tactic(auto, using(crate::proofs::Same::told_by))]
pub fn equal(a: Flag<'_>, b: Flag<'_>) -> bool
    ensures { TellsEqual result (meaning a.entry) (meaning b.entry) }
{
    a == b
}
