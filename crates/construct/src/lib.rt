// From the code of an option and its argument to the flags that it gives.
#![tactic(auto)]

ghost use Rattle.std.specs.Prelude.{◌≡◌};
ghost use Rattle.std.specs.Option.{option_map, option_to_list};
ghost use Rattle.std.specs.List.{AllByRecursion};
ghost use Rattle.construct.specs.Made.{used_up, heads, first_made, all_made, from_first};
ghost use Rattle.flags.specs.Meaning.{meaning};
ghost use Rattle.flags.specs.Sound.{Sound};
ghost use Rattle.opt.specs.Opt.{placed};

use flags::{Code, Flag, Kind};

// A flag that used up the whole argument.
fn whole<'a>(flag: Option<Flag<'a>>, arg: &'a [u8]) -> Option<(Flag<'a>, usize)>
    ensures answer { option_map placed result ≡ used_up arg.now (option_map meaning flag.entry) }
    ensures all { option_to_list (option_map meaning flag.entry) ≡ heads (option_map placed result) }
{
    Some((flag?, arg.len()))
}

// A flag and a place are a pair, as `next_word` gives: each caller takes it apart at once.
// `-g` and `-O` share an arm. The kinds that take nothing have one each: with them in it too the proof does not close alone, and wants each
// case written out.
fn first_flag(code: Code, arg: &[u8]) -> Option<(Flag<'_>, usize)>
    ensures answer { option_map placed result ≡ first_made code arg.now }
    ensures all { all_made code arg.now ≡ from_first code arg.now (option_map placed result) }
{
    match code {
        Code::Of(Kind::Help) => whole(Some(Flag::Help), arg),
        Code::Of(Kind::Cfg) => whole(opt::cfg(arg), arg),
        Code::Of(Kind::LibrarySearchPath) => whole(opt::library_search_path(arg), arg),
        Code::Of(Kind::Link) => whole(opt::link(arg), arg),
        Code::Of(Kind::CrateType) => opt::crate_type(arg),
        Code::Of(Kind::CrateName) => whole(opt::crate_name(arg), arg),
        Code::Of(Kind::Edition) => whole(opt::edition(arg), arg),
        Code::Of(Kind::Emit) => opt::emit(arg),
        Code::Of(Kind::Print) => whole(opt::print(arg), arg),
        Code::Of(Kind::Out) => whole(opt::out(arg), arg),
        Code::Of(Kind::OutDir) => whole(opt::out_dir(arg), arg),
        Code::Of(Kind::Explain) => whole(opt::explain(arg), arg),
        Code::Of(Kind::Test) => whole(Some(Flag::Test), arg),
        Code::Of(Kind::Target) => whole(opt::target(arg), arg),
        Code::Of(Kind::Allow) => whole(opt::allow(arg), arg),
        Code::Of(Kind::Warn) => whole(opt::warn(arg), arg),
        Code::Of(Kind::ForceWarn) => whole(opt::force_warn(arg), arg),
        Code::Of(Kind::Deny) => whole(opt::deny(arg), arg),
        Code::Of(Kind::Forbid) => whole(opt::forbid(arg), arg),
        Code::Of(Kind::CapLints) => whole(opt::cap_lints(arg), arg),
        Code::Of(Kind::Codegen) => whole(opt::codegen(arg), arg),
        Code::Of(Kind::Version) => whole(Some(Flag::Version), arg),
        Code::Of(Kind::Verbose) => whole(Some(Flag::Verbose), arg),
        Code::Of(Kind::Extern) => whole(opt::extern_(arg), arg),
        Code::Of(Kind::ExternLocation) => whole(opt::extern_location(arg), arg),
        Code::Of(Kind::Sysroot) => whole(opt::sysroot(arg), arg),
        Code::Of(Kind::Z) => whole(opt::z(arg), arg),
        Code::Of(Kind::ErrorFormat) => whole(opt::error_format(arg), arg),
        Code::Of(Kind::Json) => whole(opt::json(arg), arg),
        Code::Of(Kind::Color) => whole(opt::color(arg), arg),
        Code::Of(Kind::RemapPathPrefix) => whole(opt::remap_path_prefix(arg), arg),
        Code::Debuginfo | Code::Optimize => whole(code.bare_flag(), arg),
    }
}

// The first flag that an option gives of its argument, and the place in the argument behind what it used up.
// Code and argument are two parameters: callers have them from a table and from a text, and the `match` would take a struct of both apart at once.
pub fn make(code: Code, arg: &[u8]) -> Option<(Flag<'_>, usize)>
    ensures answer { option_map placed result ≡ first_made code arg.now }
    ensures all { all_made code arg.now ≡ from_first code arg.now (option_map placed result) }
    ensures sound { AllByRecursion Sound (all_made code arg.now) }
{
    first_flag(code, arg)
}

#[cfg(test)]
mod tests;
