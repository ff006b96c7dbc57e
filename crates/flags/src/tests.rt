use super::*;
use words::{CrateType, LibraryKind, LinkKind};

#[test]
fn numbers(rt: HostRuntime) {
    for number in 0..=255u8 {
        let again = Code::try_from(number).map(Code::number);
        assert_eq!(rt;
            again,
            if number <= 32 {
                Ok(number)
            } else {
                Err(UnknownCode(number))
            }
        );
    }
}

fn link<'a>(modifiers: &'a [u8], rename: Option<&'a [u8]>) -> Flag<'a> {
    Flag::Link {
        kind: LinkKind::Static,
        modifiers: ModifierList { text: modifiers },
        name: b"z",
        rename,
    }
}

// Two list texts, and whether links with them are equal.
#[test]
fn modifiers(rt: HostRuntime) {
    let cases: [(&[u8], &[u8], bool); 7] = [
        (b"", b"", true),
        (b"", b",zz,bundle,+", true),
        (b"+bundle,-verbatim", b"+bundle,x,,-verbatim,", true),
        (b"+bundle", b"-bundle", false),
        (b"+bundle,-verbatim", b"-verbatim,+bundle", false),
        (b"+bundle", b"+bundle,+bundle", false),
        (b"+bundle,+bundle", b"+bundle", false),
    ];
    for (a, b, same) in cases {
        assert_eq!(rt; equal(link(a, None), link(b, None)), same);
    }
    assert!(rt; !equal(link(b"", None), link(b"", Some(b""))));
}

#[test]
fn fields(rt: HostRuntime) {
    let cases: [(Flag<'_>, Flag<'_>, bool); 9] = [
        (Flag::Help, Flag::Help, true),
        (Flag::Help, Flag::Test, false),
        (Flag::Out(b"a//b"), Flag::Out(b"a/b"), false),
        (Flag::Out(b"\xff"), Flag::Out(b"\xff"), true),
        (Flag::Out(b"a"), Flag::OutDir(b"a"), false),
        (Flag::Edition(2021), Flag::Edition(2024), false),
        (
            Flag::CrateType(CrateType::Lib),
            Flag::CrateType(CrateType::Rlib),
            false,
        ),
        (
            Flag::LibrarySearchPath {
                kind: LibraryKind::All,
                path: b"a",
            },
            Flag::LibrarySearchPath {
                kind: LibraryKind::Native,
                path: b"a",
            },
            false,
        ),
        (
            Flag::RemapPathPrefix {
                from: b"a",
                to: b"b",
            },
            Flag::RemapPathPrefix {
                from: b"a",
                to: b"b",
            },
            true,
        ),
    ];
    for (a, b, same) in cases {
        assert_eq!(rt; equal(a, b), same);
        assert_eq!(rt; equal(b, a), same);
    }
}

#[test]
fn codes(rt: HostRuntime) {
    assert_eq!(rt; Kind::RemapPathPrefix.number(), 30);
    assert_eq!(rt; Code::Optimize.number(), 32);
    assert!(rt; Kind::LibrarySearchPath.home() == b"-L".as_slice());
    assert!(rt; Kind::CrateType.home() == b"--crate-type".as_slice());
    assert!(rt;
        Code::Debuginfo.bare_flag()
            == Some(Flag::Codegen {
                opt: b"debuginfo",
                value: Some(b"2")
            })
    );
}
