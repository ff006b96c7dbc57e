// Options whose argument is one text, one path or one word. Each has its own name, as in the original, and a line that is as short as a call of
// a function over all of them, which would have to ask its caller for the flag as a function.
ghost use Rattle.std.specs.Prelude.{◌≡◌};
ghost use Rattle.std.specs.Option.{option_map};
ghost use Rattle.flags.specs.Meaning.{meaning};
ghost use Rattle.opt.specs.Opt.{allow_of, cap_lints_of, color_of, crate_name_of, deny_of, error_format_of, explain_of, forbid_of, force_warn_of, json_of, out_dir_of, out_of, print_of, sysroot_of, target_of, warn_of, z_of};

use flags::Flag;
use text::to_str;
use words::read_word;

pub fn crate_name(arg: &[u8]) -> Option<Flag<'_>>
    ensures { option_map meaning result ≡ crate_name_of arg.now }
{
    Some(Flag::CrateName(to_str(arg)?))
}

pub fn print(arg: &[u8]) -> Option<Flag<'_>>
    ensures { option_map meaning result ≡ print_of arg.now }
{
    Some(Flag::Print(to_str(arg)?))
}

pub fn explain(arg: &[u8]) -> Option<Flag<'_>>
    ensures { option_map meaning result ≡ explain_of arg.now }
{
    Some(Flag::Explain(to_str(arg)?))
}

pub fn target(arg: &[u8]) -> Option<Flag<'_>>
    ensures { option_map meaning result ≡ target_of arg.now }
{
    Some(Flag::Target(to_str(arg)?))
}

pub fn allow(arg: &[u8]) -> Option<Flag<'_>>
    ensures { option_map meaning result ≡ allow_of arg.now }
{
    Some(Flag::Allow(to_str(arg)?))
}

pub fn warn(arg: &[u8]) -> Option<Flag<'_>>
    ensures { option_map meaning result ≡ warn_of arg.now }
{
    Some(Flag::Warn(to_str(arg)?))
}

pub fn force_warn(arg: &[u8]) -> Option<Flag<'_>>
    ensures { option_map meaning result ≡ force_warn_of arg.now }
{
    Some(Flag::ForceWarn(to_str(arg)?))
}

pub fn deny(arg: &[u8]) -> Option<Flag<'_>>
    ensures { option_map meaning result ≡ deny_of arg.now }
{
    Some(Flag::Deny(to_str(arg)?))
}

pub fn forbid(arg: &[u8]) -> Option<Flag<'_>>
    ensures { option_map meaning result ≡ forbid_of arg.now }
{
    Some(Flag::Forbid(to_str(arg)?))
}

pub fn z(arg: &[u8]) -> Option<Flag<'_>>
    ensures { option_map meaning result ≡ z_of arg.now }
{
    Some(Flag::Z(to_str(arg)?))
}

pub fn json(arg: &[u8]) -> Option<Flag<'_>>
    ensures { option_map meaning result ≡ json_of arg.now }
{
    Some(Flag::Json(to_str(arg)?))
}

pub fn out(arg: &[u8]) -> Option<Flag<'_>>
    ensures { option_map meaning result ≡ out_of arg.now }
{
    Some(Flag::Out(arg))
}

pub fn out_dir(arg: &[u8]) -> Option<Flag<'_>>
    ensures { option_map meaning result ≡ out_dir_of arg.now }
{
    Some(Flag::OutDir(arg))
}

pub fn sysroot(arg: &[u8]) -> Option<Flag<'_>>
    ensures { option_map meaning result ≡ sysroot_of arg.now }
{
    Some(Flag::Sysroot(arg))
}

pub fn cap_lints(arg: &[u8]) -> Option<Flag<'_>>
    ensures { option_map meaning result ≡ cap_lints_of arg.now }
{
    Some(Flag::CapLints(read_word(arg)?))
}

pub fn error_format(arg: &[u8]) -> Option<Flag<'_>>
    ensures { option_map meaning result ≡ error_format_of arg.now }
{
    Some(Flag::ErrorFormat(read_word(arg)?))
}

pub fn color(arg: &[u8]) -> Option<Flag<'_>>
    ensures { option_map meaning result ≡ color_of arg.now }
{
    Some(Flag::Color(read_word(arg)?))
}
