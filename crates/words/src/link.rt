// The words of `-L` and `-l`.
ghost use Rattle.words.specs.Spellings.{library_kinds, library_kind, link_kinds, link_kind, signs, sign, link_modifiers, link_modifier, modifiers, modifier};
ghost use Rattle.std.specs.Prelude.{length};
ghost use Rattle.words.specs.Reading.{longest};
ghost use Rattle.std.proofs.Common.{rules};

use super::set::WordSet;

// What a path of `-L` is for.
#[derive(Clone, Copy, Debug, PartialEq, Eq)]
pub enum LibraryKind {
    Dependency,
    Crate,
    Native,
    Framework,
    All,
}

const LIBRARY_KINDS: &[LibraryKind] = &[
    LibraryKind::Dependency,
    LibraryKind::Crate,
    LibraryKind::Native,
    LibraryKind::Framework,
    LibraryKind::All,
];

impl WordSet for LibraryKind {
    const COUNT: usize = LIBRARY_KINDS.len();

    const LONGEST: usize = b"dependency".len();

    ghost COUNT = { length library_kinds };

    ghost LONGEST = { longest library_kinds library_kind };

    ghost words = { library_kinds };

    ghost spelled = { library_kind };

    ghost counted = { Prim.search rules };

    ghost bounded = { Prim.search rules };

    ghost reads = { Prim.search rules };

    ghost cleans = { Prim.search rules };

    fn at(place: usize) -> Option<Self> {
        LIBRARY_KINDS.get(place).copied()
    }

    fn spelling(self) -> &'static [u8] {
        match self {
            LibraryKind::Dependency => b"dependency",
            LibraryKind::Crate => b"crate",
            LibraryKind::Native => b"native",
            LibraryKind::Framework => b"framework",
            LibraryKind::All => b"all",
        }
    }
}

// The kind of a library, of `-l`.
#[derive(Clone, Copy, Debug, PartialEq, Eq)]
pub enum LinkKind {
    Static,
    Framework,
    Dylib,
}

const LINK_KINDS: &[LinkKind] = &[LinkKind::Static, LinkKind::Framework, LinkKind::Dylib];

impl WordSet for LinkKind {
    const COUNT: usize = LINK_KINDS.len();

    const LONGEST: usize = b"framework".len();

    ghost COUNT = { length link_kinds };

    ghost LONGEST = { longest link_kinds link_kind };

    ghost words = { link_kinds };

    ghost spelled = { link_kind };

    ghost counted = { Prim.search rules };

    ghost bounded = { Prim.search rules };

    ghost reads = { Prim.search rules };

    ghost cleans = { Prim.search rules };

    fn at(place: usize) -> Option<Self> {
        LINK_KINDS.get(place).copied()
    }

    fn spelling(self) -> &'static [u8] {
        match self {
            LinkKind::Static => b"static",
            LinkKind::Framework => b"framework",
            LinkKind::Dylib => b"dylib",
        }
    }
}

// Whether a modifier is on or off.
#[derive(Clone, Copy, Debug, PartialEq, Eq)]
pub enum Sign {
    Enable,
    Disable,
}

const SIGNS: &[Sign] = &[Sign::Enable, Sign::Disable];

impl WordSet for Sign {
    const COUNT: usize = SIGNS.len();

    const LONGEST: usize = b"+".len();

    ghost COUNT = { length signs };

    ghost LONGEST = { longest signs sign };

    ghost words = { signs };

    ghost spelled = { sign };

    ghost counted = { Prim.search rules };

    ghost bounded = { Prim.search rules };

    ghost reads = { Prim.search rules };

    ghost cleans = { Prim.search rules };

    fn at(place: usize) -> Option<Self> {
        SIGNS.get(place).copied()
    }

    fn spelling(self) -> &'static [u8] {
        match self {
            Sign::Enable => b"+",
            Sign::Disable => b"-",
        }
    }
}

// What a modifier of `-l` turns on or off.
#[derive(Clone, Copy, Debug, PartialEq, Eq)]
pub enum LinkModifier {
    Bundle,
    Verbatim,
    WholeArchive,
    AsNeeded,
}

const LINK_MODIFIERS: &[LinkModifier] = &[
    LinkModifier::Bundle,
    LinkModifier::Verbatim,
    LinkModifier::WholeArchive,
    LinkModifier::AsNeeded,
];

impl WordSet for LinkModifier {
    const COUNT: usize = LINK_MODIFIERS.len();

    const LONGEST: usize = b"whole-archive".len();

    ghost COUNT = { length link_modifiers };

    ghost LONGEST = { longest link_modifiers link_modifier };

    ghost words = { link_modifiers };

    ghost spelled = { link_modifier };

    ghost counted = { Prim.search rules };

    ghost bounded = { Prim.search rules };

    ghost reads = { Prim.search rules };

    ghost cleans = { Prim.search rules };

    fn at(place: usize) -> Option<Self> {
        LINK_MODIFIERS.get(place).copied()
    }

    fn spelling(self) -> &'static [u8] {
        match self {
            LinkModifier::Bundle => b"bundle",
            LinkModifier::Verbatim => b"verbatim",
            LinkModifier::WholeArchive => b"whole-archive",
            LinkModifier::AsNeeded => b"as-needed",
        }
    }
}

// A modifier of `-l`: a sign and then a word.
#[derive(Clone, Copy, Debug, PartialEq, Eq)]
pub struct Modifier {
    pub sign: Sign,
    pub word: LinkModifier,
}

impl WordSet for Modifier {
    const COUNT: usize = Sign::COUNT * LinkModifier::COUNT;

    const LONGEST: usize = b"+whole-archive".len();

    ghost COUNT = { length modifiers };

    ghost LONGEST = { longest modifiers modifier };

    ghost words = { modifiers };

    ghost spelled = { modifier };

    ghost counted = { Prim.search rules };

    ghost bounded = { Prim.search rules };

    ghost reads = { Prim.search rules };

    ghost cleans = { Prim.search rules };

    fn at(place: usize) -> Option<Self> {
        let sign = Sign::at(place / LinkModifier::COUNT)?;
        let word = LinkModifier::at(place % LinkModifier::COUNT)?;
        Some(Modifier { sign, word })
    }

    fn spelling(self) -> &'static [u8] {
        match (self.sign, self.word) {
            (Sign::Enable, LinkModifier::Bundle) => b"+bundle",
            (Sign::Enable, LinkModifier::Verbatim) => b"+verbatim",
            (Sign::Enable, LinkModifier::WholeArchive) => b"+whole-archive",
            (Sign::Enable, LinkModifier::AsNeeded) => b"+as-needed",
            (Sign::Disable, LinkModifier::Bundle) => b"-bundle",
            (Sign::Disable, LinkModifier::Verbatim) => b"-verbatim",
            (Sign::Disable, LinkModifier::WholeArchive) => b"-whole-archive",
            (Sign::Disable, LinkModifier::AsNeeded) => b"-as-needed",
        }
    }
}
