// The parts of an argument.
ghost use Rattle.std.specs.Prelude.{◌≡◌};
ghost use Rattle.opt.specs.Opt.{optional_part, parts};

use text::split_once;

// What stands before the first `byte` and, if there is one, what stands behind it.
pub(crate) fn optional(bytes: &[u8], byte: u8) -> (&[u8], Option<&[u8]>)
    ensures { parts result ≡ optional_part byte bytes.now }
{
    match split_once(bytes, byte) {
        Some((front, back)) => (front, Some(back)),
        None => (bytes, None),
    }
}
