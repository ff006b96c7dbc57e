// The kinds of flags and the codes of options.
ghost use Rattle.std.specs.Prelude.{◌≡◌};
ghost use Rattle.std.specs.Option.{option_map};
ghost use Rattle.flags.specs.Codes.{about, code_of, Decodes, home as home_of, kind_of};
ghost use Rattle.flags.specs.Meaning.{meaning};

use super::flag::Flag;
use std::error::Error;
use std::fmt;

// The kinds, in the order of `Flag`.
#[derive(Clone, Copy, Debug, PartialEq, Eq, Hash)]
pub enum Kind {
    Help,
    Cfg,
    LibrarySearchPath,
    Link,
    CrateType,
    CrateName,
    Edition,
    Emit,
    Print,
    Out,
    OutDir,
    Explain,
    Test,
    Target,
    Allow,
    Warn,
    ForceWarn,
    Deny,
    Forbid,
    CapLints,
    Codegen,
    Version,
    Verbose,
    Extern,
    ExternLocation,
    Sysroot,
    Z,
    ErrorFormat,
    Json,
    Color,
    RemapPathPrefix,
}

// What an option makes: flags of a kind, or one codegen option that has a letter of its own.
#[derive(Clone, Copy, Debug, PartialEq, Eq, Hash)]
pub enum Code {
    Of(Kind),
    // `-g`
    Debuginfo,
    // `-O`
    Optimize,
}

// A number that no code has.
#[derive(Clone, Copy, Debug, PartialEq, Eq, Hash)]
pub struct UnknownCode(pub u8);

// What an option takes behind its name.
#[derive(Clone, Copy, Debug, PartialEq, Eq, Hash)]
pub enum Takes {
    Nothing,
    List,
    One,
}

impl Kind {
    // The number of the kind's own code. A method under the name that the documents use, and no `From`: `u8::from` would not say which number.
    pub fn number(self) -> u8
        ensures { result ≡ (about (Code.Of self)).number }
    {
        self as u8
    }

    // The spelling in which a flag of this kind is written.
    pub fn home(self) -> &'static [u8]
        ensures { result.now ≡ home_of self }
    {
        match self {
            Kind::Help => b"--help",
            Kind::Cfg => b"--cfg",
            Kind::LibrarySearchPath => b"-L",
            Kind::Link => b"-l",
            Kind::CrateType => b"--crate-type",
            Kind::CrateName => b"--crate-name",
            Kind::Edition => b"--edition",
            Kind::Emit => b"--emit",
            Kind::Print => b"--print",
            Kind::Out => b"-o",
            Kind::OutDir => b"--out-dir",
            Kind::Explain => b"--explain",
            Kind::Test => b"--test",
            Kind::Target => b"--target",
            Kind::Allow => b"--allow",
            Kind::Warn => b"--warn",
            Kind::ForceWarn => b"--force-warn",
            Kind::Deny => b"--deny",
            Kind::Forbid => b"--forbid",
            Kind::CapLints => b"--cap-lints",
            Kind::Codegen => b"-C",
            Kind::Version => b"--version",
            Kind::Verbose => b"--verbose",
            Kind::Extern => b"--extern",
            Kind::ExternLocation => b"--extern-location",
            Kind::Sysroot => b"--sysroot",
            Kind::Z => b"-Z",
            Kind::ErrorFormat => b"--error-format",
            Kind::Json => b"--json",
            Kind::Color => b"--color",
            Kind::RemapPathPrefix => b"--remap-path-prefix",
        }
    }
}

impl Code {
    // The codes in the order of their numbers.
    const ALL: [Code; 33] = [
        Code::Of(Kind::Help),
        Code::Of(Kind::Cfg),
        Code::Of(Kind::LibrarySearchPath),
        Code::Of(Kind::Link),
        Code::Of(Kind::CrateType),
        Code::Of(Kind::CrateName),
        Code::Of(Kind::Edition),
        Code::Of(Kind::Emit),
        Code::Of(Kind::Print),
        Code::Of(Kind::Out),
        Code::Of(Kind::OutDir),
        Code::Of(Kind::Explain),
        Code::Of(Kind::Test),
        Code::Of(Kind::Target),
        Code::Of(Kind::Allow),
        Code::Of(Kind::Warn),
        Code::Of(Kind::ForceWarn),
        Code::Of(Kind::Deny),
        Code::Of(Kind::Forbid),
        Code::Of(Kind::CapLints),
        Code::Of(Kind::Codegen),
        Code::Of(Kind::Version),
        Code::Of(Kind::Verbose),
        Code::Of(Kind::Extern),
        Code::Of(Kind::ExternLocation),
        Code::Of(Kind::Sysroot),
        Code::Of(Kind::Z),
        Code::Of(Kind::ErrorFormat),
        Code::Of(Kind::Json),
        Code::Of(Kind::Color),
        Code::Of(Kind::RemapPathPrefix),
        Code::Debuginfo,
        Code::Optimize,
    ];

    // The code at a place in the order of numbers.
    fn at(place: usize) -> Option<Code>
        ensures { result ≡ code_of place }
    {
        Code::ALL.get(place).copied()
    }

    // A method too.
    pub fn number(self) -> u8
        ensures { result ≡ (about self).number }
    {
        match self {
            Code::Of(kind) => kind.number(),
            Code::Debuginfo => 31,
            Code::Optimize => 32,
        }
    }

    // The kind of the flags that it makes.
    pub fn kind(self) -> Kind
        ensures { result ≡ (about self).makes }
    {
        match self {
            Code::Of(kind) => kind,
            Code::Debuginfo => Kind::Codegen,
            Code::Optimize => Kind::Codegen,
        }
    }

    pub fn takes(self) -> Takes
        ensures { result ≡ (about self).takes }
    {
        match self {
            Code::Debuginfo | Code::Optimize => Takes::Nothing,
            Code::Of(Kind::Help | Kind::Test | Kind::Version | Kind::Verbose) => Takes::Nothing,
            Code::Of(Kind::CrateType | Kind::Emit) => Takes::List,
            Code::Of(_) => Takes::One,
        }
    }

    // The flag of an option that takes nothing.
    pub fn bare_flag(self) -> Option<Flag<'static>>
        ensures { option_map meaning result ≡ (about self).flag }
    {
        match self {
            Code::Of(Kind::Help) => Some(Flag::Help),
            Code::Of(Kind::Test) => Some(Flag::Test),
            Code::Of(Kind::Version) => Some(Flag::Version),
            Code::Of(Kind::Verbose) => Some(Flag::Verbose),
            Code::Debuginfo => Some(Flag::Codegen {
                opt: b"debuginfo",
                value: Some(b"2"),
            }),
            Code::Optimize => Some(Flag::Codegen {
                opt: b"opt-level",
                value: Some(b"2"),
            }),
            Code::Of(_) => None,
        }
    }
}

// The code that has a number.
impl TryFrom<u8> for Code {
    type Error = UnknownCode;

    ghost try_from_gives = { Decodes };

    #[tactic(auto, using(crate::proofs::Numbered::tells_code))]
    fn try_from(number: u8) -> Result<Self, UnknownCode> {
        Code::at(usize::from(number)).ok_or(UnknownCode(number))
    }
}

impl fmt::Display for UnknownCode {
    fn fmt<W: fmt::Write>(&self, f: &mut fmt::Formatter<W>) -> fmt::Result {
        write!(f, "no code has number {}", self.0)
    }
}

impl Error for UnknownCode {}

impl Flag<'_> {
    pub fn kind(self) -> Kind
        ensures { result ≡ kind_of (meaning self.entry) }
    {
        match self {
            Flag::Help => Kind::Help,
            Flag::Cfg { .. } => Kind::Cfg,
            Flag::LibrarySearchPath { .. } => Kind::LibrarySearchPath,
            Flag::Link { .. } => Kind::Link,
            Flag::CrateType(_) => Kind::CrateType,
            Flag::CrateName(_) => Kind::CrateName,
            Flag::Edition(_) => Kind::Edition,
            Flag::Emit(_) => Kind::Emit,
            Flag::Print(_) => Kind::Print,
            Flag::Out(_) => Kind::Out,
            Flag::OutDir(_) => Kind::OutDir,
            Flag::Explain(_) => Kind::Explain,
            Flag::Test => Kind::Test,
            Flag::Target(_) => Kind::Target,
            Flag::Allow(_) => Kind::Allow,
            Flag::Warn(_) => Kind::Warn,
            Flag::ForceWarn(_) => Kind::ForceWarn,
            Flag::Deny(_) => Kind::Deny,
            Flag::Forbid(_) => Kind::Forbid,
            Flag::CapLints(_) => Kind::CapLints,
            Flag::Codegen { .. } => Kind::Codegen,
            Flag::Version => Kind::Version,
            Flag::Verbose => Kind::Verbose,
            Flag::Extern { .. } => Kind::Extern,
            Flag::ExternLocation { .. } => Kind::ExternLocation,
            Flag::Sysroot(_) => Kind::Sysroot,
            Flag::Z(_) => Kind::Z,
            Flag::ErrorFormat(_) => Kind::ErrorFormat,
            Flag::Json(_) => Kind::Json,
            Flag::Color(_) => Kind::Color,
            Flag::RemapPathPrefix { .. } => Kind::RemapPathPrefix,
        }
    }
}
