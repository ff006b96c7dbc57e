// The long options of rustc.
ghost use Rattle.std.specs.Prelude.{◌≡◌, map};
ghost use Rattle.tables.specs.Rustc.{row, long_options, code_in, LongNames};

use flags::{Code, Kind};

// In the order of the book, and searched from the first on: there is no heap for a map.
const LONG_OPTIONS: [(&[u8], Kind); 27] = [
    (b"help", Kind::Help),
    (b"cfg", Kind::Cfg),
    (b"crate-type", Kind::CrateType),
    (b"crate-name", Kind::CrateName),
    (b"edition", Kind::Edition),
    (b"emit", Kind::Emit),
    (b"print", Kind::Print),
    (b"out-dir", Kind::OutDir),
    (b"explain", Kind::Explain),
    (b"test", Kind::Test),
    (b"target", Kind::Target),
    (b"allow", Kind::Allow),
    (b"warn", Kind::Warn),
    (b"force-warn", Kind::ForceWarn),
    (b"deny", Kind::Deny),
    (b"forbid", Kind::Forbid),
    (b"cap-lints", Kind::CapLints),
    (b"codegen", Kind::Codegen),
    (b"version", Kind::Version),
    (b"verbose", Kind::Verbose),
    (b"extern", Kind::Extern),
    (b"extern-location", Kind::ExternLocation),
    (b"sysroot", Kind::Sysroot),
    (b"error-format", Kind::ErrorFormat),
    (b"json", Kind::Json),
    (b"color", Kind::Color),
    (b"remap-path-prefix", Kind::RemapPathPrefix),
];

// The length of the longest name.
const LONGEST: usize = b"remap-path-prefix".len();

// The code of the first option with this name.
fn code_in(options: &[(&[u8], Kind)], name: &[u8]) -> Option<Code>
    ensures { result ≡ code_in (map (λ o. row o.0.now (Code.Of o.1)) options.now) name.now }
{
    options
        .iter()
        .find(|(spelling, _)| *spelling == name)
        .map(|(_, kind)| Code::Of(*kind))
}

// The code of the long option with this name. One longer than the longest is declined before the search.
#[tactic(auto, using(crate::proofs::Longest::no_longer))]
pub(crate) fn long_code(name: &[u8]) -> Option<Code>
    ensures answer { result ≡ code_in long_options name.now }
    ensures names { LongNames }
{
    if name.len() > LONGEST {
        return None;
    }
    code_in(&LONG_OPTIONS, name)
}
