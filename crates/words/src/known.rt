// The words of a comma list, one after the other.
ghost use Rattle.std.specs.Prelude.{◌≡◌};
ghost use Rattle.std.specs.Cmp.{on_per};
ghost use Rattle.std.specs.Cmp.Lexicographic.{pointwise, lists_per};
ghost use Rattle.std.specs.Iterator.{YieldsFirst, item_count};
ghost use Rattle.std.specs.Ordering.{on};
ghost use Rattle.words.specs.Lists.{known, words_left};
ghost use Rattle.words.specs.Reading.{read};

use super::reading::next_word;
use super::set::WordSet;
use std::marker::PhantomData;

// The known words of what is left of a comma list.
#[derive(Clone, Copy)]
pub struct KnownWords<'a, W> {
    rest: &'a [u8],
    of: PhantomData<W>,
}

// The known words of a comma list, in their order.
pub fn known_words<W: WordSet>(list: &[u8]) -> KnownWords<'_, W>
    ensures { words_left (read W.words W.spelled) result ≡ known (read W.words W.spelled) list.now }
{
    KnownWords {
        rest: list,
        of: PhantomData,
    }
}

impl<W: WordSet> Iterator for KnownWords<'_, W> {
    type Item = W;

    ghost next_gives = { YieldsFirst (words_left (read W.words W.spelled)) };

    ghost remaining = { item_count (words_left (read W.words W.spelled)) };

    fn next(&mut self) -> Option<W> {
        let (word, behind) = next_word(self.rest)?;
        self.rest = &self.rest[behind..];
        Some(word)
    }
}

// Whether the same words are left, in the same order. `==` is written by hand: a derive would compare the text that is left, and not its words.
// `Iterator::eq` says this only through a proof, which stands here once.
fn same_words<W: WordSet + PartialEq>(a: KnownWords<'_, W>, b: KnownWords<'_, W>) -> bool
    ensures { result ≡ on (words_left (read W.words W.spelled)) (pointwise W.eq) a.entry b.entry }
{
    a.eq(b)
}

impl<W: WordSet + PartialEq> PartialEq for KnownWords<'_, W> {
    ghost eq = { on (words_left (read W.words W.spelled)) (pointwise W.eq) };

    ghost laws = { on_per (words_left (read W.words W.spelled)) (lists_per W.PartialEq.laws) };

    fn eq(&self, other: &Self) -> bool {
        same_words(*self, *other)
    }
}
