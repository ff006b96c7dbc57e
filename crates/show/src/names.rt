// The names of the kinds: a derived Debug prints them too, but no clause knows what it prints.
ghost use Rattle.std.specs.Prelude.{◌≡◌};
ghost use Rattle.show.specs.Shown.{kind_name};

use flags::Kind;

pub(crate) fn name_of(kind: Kind) -> &'static str
    ensures { result.now ≡ kind_name kind }
{
    match kind {
        Kind::Help => "Help",
        Kind::Cfg => "Cfg",
        Kind::LibrarySearchPath => "LibrarySearchPath",
        Kind::Link => "Link",
        Kind::CrateType => "CrateType",
        Kind::CrateName => "CrateName",
        Kind::Edition => "Edition",
        Kind::Emit => "Emit",
        Kind::Print => "Print",
        Kind::Out => "Out",
        Kind::OutDir => "OutDir",
        Kind::Explain => "Explain",
        Kind::Test => "Test",
        Kind::Target => "Target",
        Kind::Allow => "Allow",
        Kind::Warn => "Warn",
        Kind::ForceWarn => "ForceWarn",
        Kind::Deny => "Deny",
        Kind::Forbid => "Forbid",
        Kind::CapLints => "CapLints",
        Kind::Codegen => "Codegen",
        Kind::Version => "Version",
        Kind::Verbose => "Verbose",
        Kind::Extern => "Extern",
        Kind::ExternLocation => "ExternLocation",
        Kind::Sysroot => "Sysroot",
        Kind::Z => "Z",
        Kind::ErrorFormat => "ErrorFormat",
        Kind::Json => "Json",
        Kind::Color => "Color",
        Kind::RemapPathPrefix => "RemapPathPrefix",
    }
}
