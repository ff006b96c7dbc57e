// Words read from bytes and from comma lists.
ghost use Rattle.std.specs.Prelude.{◌≡◌, ◌+◌, ◌<◌, ◌≤◌, length, drop, Some, None, IfSome};
ghost use Rattle.words.specs.Lists.{known, first_known, from_first, ListsReadBack, Ended, Part};
ghost use Rattle.words.specs.Reading.{read, ReadsExactly};

use super::set::WordSet;
use text::piece_at;

// How many words to try: none for bytes longer than each spelling.
fn tries<W: WordSet>(bytes: &[u8]) -> usize
    ensures end { read (drop result W.words) W.spelled bytes.now ≡ None }
    ensures exactly { ReadsExactly W.words W.spelled bytes.now }
{
    if bytes.len() <= W::LONGEST {
        W::COUNT
    } else {
        0
    }
}

// The word at a place, if these bytes spell it.
fn spelled_at<W: WordSet>(place: usize, bytes: &[u8]) -> Option<W>
    ensures { elim result [ Some w ↦ read (drop place W.words) W.spelled bytes.now ≡ Some w | None ↦ read (drop place W.words) W.spelled bytes.now ≡ read (drop (place + 1) W.words) W.spelled bytes.now ] }
{
    W::at(place).filter(|word| word.spelling() == bytes)
}

// The word that these bytes spell. A loop: `find_map` over the places was tried, and the proof did not close, for std has no lemma that says what a run of a
// range gives.
pub fn read_word<W: WordSet>(bytes: &[u8]) -> Option<W>
    ensures answer { result ≡ read W.words W.spelled bytes.now }
    ensures exactly { ReadsExactly W.words W.spelled bytes.now }
{
    for place in 0..tries::<W>(bytes) {
        if let Some(word) = spelled_at(place, bytes) {
            return Some(word);
        }
    }
    None
}

// The part that begins at a place, and the place behind it and its comma.
fn part_at<W: WordSet>(list: &[u8], at: usize) -> Option<(&[u8], usize)>
    ensures told { elim result [ Some p ↦ Part (read W.words W.spelled) list.now at p.0.now p.1 | None ↦ Ended (read W.words W.spelled) list.now at ] }
    ensures back { ListsReadBack (read W.words W.spelled) W.spelled }
{
    if at < list.len() {
        Some(piece_at(list, b',', at))
    } else {
        None
    }
}

// The first part of a comma list that is a word of the set, and the place behind it and its comma: a pair, which is the project's form of it.
// One nested loop over parts and words, left by its label: a form of the project too.
pub fn next_word<W: WordSet>(list: &[u8]) -> Option<(W, usize)>
    ensures answer { result ≡ first_known (read W.words W.spelled) list.now }
    ensures within { IfSome result (λ p. (0 < p.1) × (p.1 ≤ length list.now)) }
    ensures whole { known (read W.words W.spelled) list.now ≡ from_first (read W.words W.spelled) list.now result }
    ensures back { ListsReadBack (read W.words W.spelled) W.spelled }
{
    let mut at = 0;
    'parts: loop {
        let (part, behind) = part_at::<W>(list, at)?;
        for place in 0..tries::<W>(part) {
            if let Some(word) = spelled_at(place, part) {
                break 'parts Some((word, behind));
            }
        }
        at = behind;
    }
}
