// What callers in Rust and C read of places and cuts: they know no Option, so a flag stands beside each value.
ghost use Rattle.std.specs.Prelude.{◌≡◌};
ghost use Rattle.std.specs.Option.{option_map};
ghost use Rattle.bridge.specs.Places.{found, lengths};
ghost use Rattle.text.specs.Cuts.{both};

// A place, if there is one.
#[repr(C)]
#[derive(Clone, Copy)]
pub struct Found {
    pub found: bool,
    pub place: usize,
}

impl From<Option<usize>> for Found {
    ghost from_gives = { λ place it. it ≡ found place };

    fn from(place: Option<usize>) -> Found {
        Found {
            found: place.is_some(),
            place: place.unwrap_or(0),
        }
    }
}

// The lengths of two parts, if there are any.
#[repr(C)]
#[derive(Clone, Copy)]
pub struct Lengths {
    pub found: bool,
    pub front: usize,
    pub back: usize,
}

impl From<Option<(&[u8], &[u8])>> for Lengths {
    ghost from_gives = { λ parts it. it ≡ lengths (option_map both parts) };

    fn from(parts: Option<(&[u8], &[u8])>) -> Lengths {
        let (front, back) = parts.unwrap_or((&[], &[]));
        Lengths {
            found: parts.is_some(),
            front: front.len(),
            back: back.len(),
        }
    }
}
