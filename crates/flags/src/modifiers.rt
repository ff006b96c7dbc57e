// The modifiers of a link.
ghost use Rattle.std.proofs.Common.{rules};
ghost use Rattle.std.specs.Cmp.Lexicographic.{pointwise};
ghost use Rattle.std.specs.Cmp.Rules.{comparing};
ghost use Rattle.std.specs.Ordering.{on};
ghost use Rattle.words.specs.contracts.link.ModifierEq.TheImpl.Laws.{laws-law};
ghost use Rattle.words.specs.contracts.link.ModifierPartialEq.TheImpl as modifier;
ghost use Rattle.flags.specs.Meaning.{known_modifiers};

use words::{Modifier, known_words};

// Modifiers as the comma list that they came in.
#[derive(Clone, Copy)]
pub struct ModifierList<'a> {
    pub text: &'a [u8],
}

// Lists are equal if they have the same known modifiers in the same order.
impl PartialEq for ModifierList<'_> {
    ghost eq = { on (λ l. known_modifiers l.text.now) (pointwise (modifier.ghosts).eq) };

    ghost laws = { Prim.search (laws-law, comparing, rules) };

    fn eq(&self, other: &Self) -> bool {
        known_words::<Modifier>(self.text) == known_words::<Modifier>(other.text)
    }
}

impl Eq for ModifierList<'_> {
    ghost laws = { Prim.search (laws-law, comparing, rules) };
}
