// A flag that rustc knows, its text fields and paths as borrowed bytes.
use super::modifiers::ModifierList;
use words::{Color, CrateType, Emit, ErrorFormat, LibraryKind, LinkKind, LintLevel};

#[derive(Clone, Copy, PartialEq, Eq)]
pub enum Flag<'a> {
    // `-h`, `--help`
    Help,
    // `--cfg NAME` or `--cfg NAME="VALUE"`
    Cfg {
        name: &'a [u8],
        value: Option<&'a [u8]>,
    },
    // `-L [KIND=]PATH`
    LibrarySearchPath {
        kind: LibraryKind,
        path: &'a [u8],
    },
    // `-l [KIND[:MODIFIERS]=]NAME[:RENAME]`
    Link {
        kind: LinkKind,
        name: &'a [u8],
        rename: Option<&'a [u8]>,
        modifiers: ModifierList<'a>,
    },
    // `--crate-type TYPE`
    CrateType(CrateType),
    // `--crate-name NAME`
    CrateName(&'a [u8]),
    // `--edition YEAR`
    Edition(u16),
    // `--emit TYPE`
    Emit(Emit),
    // `--print INFO`
    Print(&'a [u8]),
    // `-o PATH`
    Out(&'a [u8]),
    // `--out-dir PATH`
    OutDir(&'a [u8]),
    // `--explain CODE`
    Explain(&'a [u8]),
    // `--test`
    Test,
    // `--target TRIPLE`
    Target(&'a [u8]),
    // `-A LINT`, `--allow LINT`
    Allow(&'a [u8]),
    // `-W LINT`, `--warn LINT`
    Warn(&'a [u8]),
    // `--force-warn LINT`
    ForceWarn(&'a [u8]),
    // `-D LINT`, `--deny LINT`
    Deny(&'a [u8]),
    // `-F LINT`, `--forbid LINT`
    Forbid(&'a [u8]),
    // `--cap-lints LEVEL`
    CapLints(LintLevel),
    // `-C OPTION[=VALUE]`, `--codegen OPTION[=VALUE]`
    Codegen {
        opt: &'a [u8],
        value: Option<&'a [u8]>,
    },
    // `-V`, `--version`
    Version,
    // `-v`, `--verbose`
    Verbose,
    // `--extern NAME[=PATH]`
    Extern {
        name: &'a [u8],
        path: Option<&'a [u8]>,
    },
    // `--extern-location NAME=LOCATION`
    ExternLocation {
        name: &'a [u8],
        location: &'a [u8],
    },
    // `--sysroot PATH`
    Sysroot(&'a [u8]),
    // `-Z FLAG`
    Z(&'a [u8]),
    // `--error-format FORMAT`
    ErrorFormat(ErrorFormat),
    // `--json CONFIG`
    Json(&'a [u8]),
    // `--color WHEN`
    Color(Color),
    // `--remap-path-prefix FROM=TO`
    RemapPathPrefix {
        from: &'a [u8],
        to: &'a [u8],
    },
}
