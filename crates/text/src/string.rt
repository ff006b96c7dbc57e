// Bytes of a text: where a byte stands, and the parts on its sides.
// A search from the front and one from the back are two functions each, as in the library: they differ only in which of its methods they call.
// Bytes and a byte are two parameters, as of the library's `contains`: a struct of both would be made for one call and taken apart in it.
ghost use Rattle.std.specs.Prelude.{◌≡◌, ◌<◌, length, IfSome};
ghost use Rattle.std.specs.Option.{option_map};
ghost use Rattle.text.specs.Arguments.{piece_at, place_behind, CutAtEdges};
ghost use Rattle.text.specs.Cuts.{holds, begins, ends, first_place, last_place, sides, both, cut_first, cut_last};
ghost use Rattle.text.specs.Edges.{AtEdges};
ghost use Rattle.text.specs.Texts.{text_of};

use utf8::is_utf8;

// The bytes, if they are a text. They stay bytes and become no `&str`: the fields of a flag are bytes, texts and paths alike.
pub fn to_str(bytes: &[u8]) -> Option<&[u8]>
    ensures { option_map (λ x. x.now) result ≡ text_of bytes.now }
{
    is_utf8(bytes).then_some(bytes)
}

pub fn starts_with(bytes: &[u8], byte: u8) -> bool
    ensures { result ≡ begins byte bytes.now }
{
    bytes.first() == Some(&byte)
}

pub fn ends_with(bytes: &[u8], byte: u8) -> bool
    ensures { result ≡ ends byte bytes.now }
{
    bytes.last() == Some(&byte)
}

pub fn contains(bytes: &[u8], byte: u8) -> bool
    ensures { result ≡ holds byte bytes.now }
{
    bytes.contains(&byte)
}

// As `find`, and that the place is inside, which the cut asks for.
fn position(bytes: &[u8], byte: u8) -> Option<usize>
    ensures place { result ≡ first_place byte bytes.now }
    ensures within { IfSome result (λ at. at < length bytes.now) }
{
    bytes.iter().position(|b| *b == byte)
}

// As `rfind`, and that the place is inside, which the cut asks for.
fn last_position(bytes: &[u8], byte: u8) -> Option<usize>
    ensures place { result ≡ last_place byte bytes.now }
    ensures within { IfSome result (λ at. at < length bytes.now) }
{
    bytes.iter().rposition(|b| *b == byte)
}

// The place of the first `byte`.
pub fn find(bytes: &[u8], byte: u8) -> Option<usize>
    ensures { result ≡ first_place byte bytes.now }
{
    position(bytes, byte)
}

// The place of the last `byte`.
pub fn rfind(bytes: &[u8], byte: u8) -> Option<usize>
    ensures { result ≡ last_place byte bytes.now }
{
    last_position(bytes, byte)
}

// The parts on the sides of a place, if there is one.
fn cut(bytes: &[u8], place: Option<usize>) -> Option<(&[u8], &[u8])>
    requires { IfSome place (λ at. at < length bytes.now) }
    ensures { option_map both result ≡ option_map (sides bytes.now) place }
{
    let at = place?;
    Some((&bytes[..at], &bytes[at + 1..]))
}

// What stands before the first `byte`, and what stands behind it.
#[tactic(auto, using(crate::proofs::Cutting::cut_first_by, crate::proofs::Edging::first_edges))]
pub fn split_once(bytes: &[u8], byte: u8) -> Option<(&[u8], &[u8])>
    ensures halves { option_map both result ≡ cut_first byte bytes.now }
    ensures edges { byte < 128 → AtEdges bytes.now (cut_first byte bytes.now) }
{
    cut(bytes, position(bytes, byte))
}

// What stands before the last `byte`, and what stands behind it.
#[tactic(auto, using(crate::proofs::Cutting::cut_last_by, crate::proofs::Edging::last_edges))]
pub fn rsplit_once(bytes: &[u8], byte: u8) -> Option<(&[u8], &[u8])>
    ensures halves { option_map both result ≡ cut_last byte bytes.now }
    ensures edges { byte < 128 → AtEdges bytes.now (cut_last byte bytes.now) }
{
    cut(bytes, last_position(bytes, byte))
}

// The piece that begins at a place, up to the next `byte`, and the place behind that byte; a place past the bytes is their end.
pub fn piece_at(bytes: &[u8], byte: u8, at: usize) -> (&[u8], usize)
    ensures piece { result.0.now ≡ piece_at byte bytes.now at }
    ensures behind { result.1 ≡ place_behind byte bytes.now at }
    ensures edges { byte < 128 → CutAtEdges byte bytes.now at }
{
    let rest = &bytes[at.min(bytes.len())..];
    match split_once(rest, byte) {
        Some((piece, _)) => (piece, at + piece.len() + 1),
        None => (rest, bytes.len()),
    }
}
