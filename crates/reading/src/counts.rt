// How many flags a text can give.
ghost use Rattle.std.specs.Prelude.{◌≡◌, length};
ghost use Rattle.reading.specs.Counts.{AtMost};
ghost use Rattle.reading.specs.Parts.{InParts};
ghost use Rattle.reading.specs.Rules.{ByRules};

// A text gives at most as many flags as it has bytes, under any table.
// `parts` says how the reading goes on from one argument to the next, and `rules` that it is what the rules give.
#[tactic(auto, using(crate::proofs::Counting::at_most, crate::proofs::Parted::in_parts, crate::proofs::Parted::by_rules))]
pub fn most_flags(text: &[u8]) -> usize
    ensures answer { result ≡ length text.now }
    ensures enough { AtMost result text.now }
    ensures parts { InParts }
    ensures rules { ByRules }
{
    text.len()
}
