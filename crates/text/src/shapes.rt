// An argument told apart by its first two bytes and the rest.
ghost use Rattle.std.specs.Prelude.{◌≡◌};
ghost use Rattle.text.specs.Shapes.{form, form_of, BeginsAtEdge};

#[derive(Clone, Copy, Debug, PartialEq, Eq)]
pub enum Shape<'a> {
    Empty,
    // `-`
    Dash,
    // `--`
    DoubleDash,
    // `--name` or `--name=arg`, without the dashes
    Long(&'a [u8]),
    // `-letters`, without the dash
    Short(&'a [u8]),
    // anything else
    Plain,
}

pub fn shape_of(argument: &[u8]) -> Shape<'_>
    ensures shape { form result ≡ form_of argument.now }
    ensures edge { BeginsAtEdge argument.now (form result) }
{
    match argument {
        [] => Shape::Empty,
        [b'-'] => Shape::Dash,
        [b'-', b'-'] => Shape::DoubleDash,
        [b'-', b'-', name @ ..] => Shape::Long(name),
        [b'-', letters @ ..] => Shape::Short(letters),
        _ => Shape::Plain,
    }
}
