use super::*;
use flags::Flag;
use words::{Color, CrateType, Emit, ErrorFormat, LintLevel};

#[test]
fn whole(rt: HostRuntime) {
    let cases = [
        (crate_name(b"a"), Some(Flag::CrateName(b"a"))),
        (print(b"cfg"), Some(Flag::Print(b"cfg"))),
        (explain(b"E0001"), Some(Flag::Explain(b"E0001"))),
        (target(b"x86_64"), Some(Flag::Target(b"x86_64"))),
        (allow(b"a=b"), Some(Flag::Allow(b"a=b"))),
        (warn(b"a,b"), Some(Flag::Warn(b"a,b"))),
        (force_warn(b""), Some(Flag::ForceWarn(b""))),
        (deny(b"\xc3\xa9"), Some(Flag::Deny(b"\xc3\xa9"))),
        (forbid(b"b"), Some(Flag::Forbid(b"b"))),
        (z(b"c"), Some(Flag::Z(b"c"))),
        (json(b"d"), Some(Flag::Json(b"d"))),
        (out(b"\xff"), Some(Flag::Out(b"\xff"))),
        (out_dir(b"a/b"), Some(Flag::OutDir(b"a/b"))),
        (sysroot(b""), Some(Flag::Sysroot(b""))),
        (cap_lints(b"warn"), Some(Flag::CapLints(LintLevel::Warn))),
        (
            error_format(b"json"),
            Some(Flag::ErrorFormat(ErrorFormat::Json)),
        ),
        (color(b"never"), Some(Flag::Color(Color::Never))),
        (crate_name(b"\xff"), None),
        (json(b"a\xc3"), None),
        (cap_lints(b"Warn"), None),
        (error_format(b""), None),
        (color(b"never,auto"), None),
    ];
    for (made, right) in cases {
        assert!(rt; made == right);
    }
}

#[test]
fn lists(rt: HostRuntime) {
    let cases = [
        (
            crate_type(b"lib"),
            Some((Flag::CrateType(CrateType::Lib), 3)),
        ),
        (
            crate_type(b"Cdylib,cdylib,bin"),
            Some((Flag::CrateType(CrateType::Cdylib), 14)),
        ),
        (crate_type(b"asm,lib "), None),
        (crate_type(b""), None),
        (emit(b"zz,link,,asm"), Some((Flag::Emit(Emit::Link), 8))),
        (emit(b",asm"), Some((Flag::Emit(Emit::Asm), 4))),
        (emit(b"\xff,mir,"), Some((Flag::Emit(Emit::Mir), 6))),
        (emit(b"asm=a.s"), None),
        (emit(b",,"), None),
    ];
    for (made, right) in cases {
        assert!(rt; made == right);
    }
}
