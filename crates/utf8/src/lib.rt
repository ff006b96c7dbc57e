// UTF-8 by a table of byte classes.
#![tactic(auto)]

ghost use Rattle.std.specs.Prelude.{◌≡◌, true, ◌&&◌, leb, [], if◌then◌else◌, Some, None, IsUtf8, Decides, nat_le};
ghost use Rattle.std.specs.Option.{option_map};
ghost use Rattle.utf8.specs.States.{classed, lists, ranges};
ghost use Rattle.utf8.specs.Utf8.{behind, utf8, utf8_from, Characters};

// The classes of bytes, in the order of the bytes. They are numbers and no enum: the table of 256 numbers below is a form
// of this project, and one rule that is computed holds all of it; and several classes in a row are told by two bounds, the
// first and the last. Classes 4 and 13, which have no name here, are of the bytes that no text has: C0, C1, and F5 to FF.
const ASCII: u8 = 0;

// 80 to 8F, 90 to 9F and A0 to BF continue a character
const LOW: u8 = 1;

const MIDDLE: u8 = 2;

const HIGH: u8 = 3;

const C2_TO_DF: u8 = 5;

const E0: u8 = 6;

const E1_TO_EC: u8 = 7;

const ED: u8 = 8;

const EE_TO_EF: u8 = 9;

const F0: u8 = 10;

const F1_TO_F3: u8 = 11;

const F4: u8 = 12;

// The class of each byte; comments name the bytes where a class begins, and C1.
const CLASSES: [u8; 256] = [
    0, // 00
    0, 0, 0, 0, 0, 0, 0, 0, 0, 0, 0, 0, 0, 0, 0, 0, 0, 0, 0, 0, 0, 0, 0, 0, 0, 0, 0, 0, 0, 0, 0, 0,
    0, 0, 0, 0, 0, 0, 0, 0, 0, 0, 0, 0, 0, 0, 0, 0, 0, 0, 0, 0, 0, 0, 0, 0, 0, 0, 0, 0, 0, 0, 0, 0,
    0, 0, 0, 0, 0, 0, 0, 0, 0, 0, 0, 0, 0, 0, 0, 0, 0, 0, 0, 0, 0, 0, 0, 0, 0, 0, 0, 0, 0, 0, 0, 0,
    0, 0, 0, 0, 0, 0, 0, 0, 0, 0, 0, 0, 0, 0, 0, 0, 0, 0, 0, 0, 0, 0, 0, 0, 0, 0, 0, 0, 0, 0, 0, 1, // 80
    1, 1, 1, 1, 1, 1, 1, 1, 1, 1, 1, 1, 1, 1, 1, 2, // 90
    2, 2, 2, 2, 2, 2, 2, 2, 2, 2, 2, 2, 2, 2, 2, 3, // A0
    3, 3, 3, 3, 3, 3, 3, 3, 3, 3, 3, 3, 3, 3, 3, 3, 3, 3, 3, 3, 3, 3, 3, 3, 3, 3, 3, 3, 3, 3, 3, 4, // C0
    4, // C1
    5, // C2
    5, 5, 5, 5, 5, 5, 5, 5, 5, 5, 5, 5, 5, 5, 5, 5, 5, 5, 5, 5, 5, 5, 5, 5, 5, 5, 5, 5, 5, 6, // E0
    7, // E1
    7, 7, 7, 7, 7, 7, 7, 7, 7, 7, 7, 8, // ED
    9, // EE
    9, 10, // F0
    11, // F1
    11, 11, 12, // F4
    13, // F5
    13, 13, 13, 13, 13, 13, 13, 13, 13, 13,
];

// What the character that is being read still lacks: so many bytes, or two or three of which the next has a narrower range.
#[derive(Clone, Copy)]
enum Owed {
    Nothing,
    One,
    Two,
    Three,
    TwoAfterE0,
    TwoAfterEd,
    ThreeAfterF0,
    ThreeAfterF4,
}

// The table. Its contract says that each entry is the class that the rule gives of its byte, so that `class_of` only has
// to look one up.
fn classes() -> &'static [u8; 256]
    ensures { lists classed result.now ≡ true }
{
    &CLASSES
}

fn class_of(byte: u8) -> u8
    ensures { result ≡ classed byte }
{
    classes()[byte as usize]
}

// After the first byte of a character.
fn begin(byte: u8) -> Option<Owed>
    ensures { option_map ranges result ≡ behind (ranges Owed.Nothing) byte }
{
    match class_of(byte) {
        ASCII => Some(Owed::Nothing),
        C2_TO_DF => Some(Owed::One),
        E0 => Some(Owed::TwoAfterE0),
        E1_TO_EC | EE_TO_EF => Some(Owed::Two),
        ED => Some(Owed::TwoAfterEd),
        F0 => Some(Owed::ThreeAfterF0),
        F1_TO_F3 => Some(Owed::Three),
        F4 => Some(Owed::ThreeAfterF4),
        _ => None,
    }
}

// After a later byte, whose class is to lie from `first` to `last`.
fn follow(class: u8, first: u8, last: u8, next: Owed) -> Option<Owed>
    ensures { result ≡ (if leb first class && nat_le class last then Some next else None) }
{
    (first <= class && class <= last).then_some(next)
}

// After one more byte; None where the byte cannot stand there.
fn step(owed: Owed, byte: u8) -> Option<Owed>
    ensures { option_map ranges result ≡ behind (ranges owed) byte }
{
    match owed {
        Owed::Nothing => begin(byte),
        Owed::One => follow(class_of(byte), LOW, HIGH, Owed::Nothing),
        Owed::Two => follow(class_of(byte), LOW, HIGH, Owed::One),
        Owed::Three => follow(class_of(byte), LOW, HIGH, Owed::Two),
        Owed::TwoAfterE0 => follow(class_of(byte), HIGH, HIGH, Owed::One),
        Owed::TwoAfterEd => follow(class_of(byte), LOW, MIDDLE, Owed::One),
        Owed::ThreeAfterF0 => follow(class_of(byte), MIDDLE, HIGH, Owed::Two),
        Owed::ThreeAfterF4 => follow(class_of(byte), LOW, LOW, Owed::Two),
    }
}

// Whether a text may end there.
fn is_whole(owed: Owed) -> bool
    ensures { result ≡ utf8_from (Some (ranges owed)) [] }
{
    matches!(owed, Owed::Nothing)
}

// Whether the bytes are well-formed UTF-8.
pub fn is_utf8(bytes: &[u8]) -> bool
    ensures answer { result ≡ utf8 bytes.now }
    ensures characters { Decides result (Characters bytes.now) }
    ensures kit_text { Decides result (IsUtf8 bytes.now) }
{
    let mut owed = Owed::Nothing;
    for b in bytes {
        let Some(next) = step(owed, *b) else {
            return false;
        };
        owed = next;
    }
    is_whole(owed)
}

#[cfg(test)]
mod tests;
