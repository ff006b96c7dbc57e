// What a set of words is.
// Each set looks into a list of its own in `at`. One `at` over a list that the trait lends was tried: it wants `Self: 'static`, and with this bound
// the iterator of known words is not proved, since its provided methods ask for the bound anew.
ghost use Rattle.std.specs.Prelude.{◌≡◌, ℕ, true, List, length, Some};
ghost use Rattle.std.specs.List.{slice_get};
ghost use Rattle.words.specs.Reading.{read, longest, clean};

pub trait WordSet: Copy {
    // how many words there are
    const COUNT: usize;

    // the length of the longest spelling
    const LONGEST: usize;

    // both constants, as clauses name them
    ghost COUNT: { ℕ };

    ghost LONGEST: { ℕ };

    // the words in their order
    ghost words: { List Self };

    // the bytes that a word is written as
    ghost spelled: { Self → List ℕ };

    // The word at a place in the set's order.
    fn at(place: usize) -> Option<Self>
        ensures { result ≡ slice_get words place };

    fn spelling(self) -> &'static [u8]
        ensures { result.now ≡ spelled self };

    ghost counted: { COUNT ≡ length words };

    ghost bounded: { LONGEST ≡ longest words spelled };

    // A spelling reads as its word, and as no other.
    ghost reads: { (w : Self) → read words spelled (spelled w) ≡ Some w };

    // No spelling is empty or holds a byte that ends a field.
    ghost cleans: { (w : Self) → clean (spelled w) ≡ true };
}
