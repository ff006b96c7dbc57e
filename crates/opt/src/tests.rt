use super::*;
use flags::{Flag, ModifierList};
use words::{LibraryKind, LinkKind};

fn condition<'a>(name: &'a [u8], value: Option<&'a [u8]>) -> Option<Flag<'a>> {
    Some(Flag::Cfg { name, value })
}

#[test]
fn conditions(rt: HostRuntime) {
    let cases: [(&[u8], Option<Flag<'_>>); 8] = [
        (b"a", condition(b"a", None)),
        (b"a=\"b=c\"", condition(b"a", Some(b"b=c"))),
        (b"a=\"\"", condition(b"a", Some(b""))),
        (b"a=\"", None),
        (b"a=\"b", None),
        (b"a=\"b\"c\"", None),
        (b"a=b", None),
        (b"\xff", None),
    ];
    for (arg, flag) in cases {
        assert!(rt; cfg(arg) == flag);
    }
}

fn linked<'a>(
    kind: LinkKind,
    text: &'a [u8],
    name: &'a [u8],
    rename: Option<&'a [u8]>,
) -> Option<Flag<'a>> {
    Some(Flag::Link {
        kind,
        modifiers: ModifierList { text },
        name,
        rename,
    })
}

#[test]
fn pairs(rt: HostRuntime) {
    let cases = [
        (
            library_search_path(b"a/b"),
            Some(Flag::LibrarySearchPath {
                kind: LibraryKind::All,
                path: b"a/b",
            }),
        ),
        (
            library_search_path(b"native=a=b"),
            Some(Flag::LibrarySearchPath {
                kind: LibraryKind::Native,
                path: b"a=b",
            }),
        ),
        (library_search_path(b"a=b"), None),
        (link(b"a:b"), linked(LinkKind::Dylib, b"", b"a", Some(b"b"))),
        (
            link(b"static:+bundle=a"),
            linked(LinkKind::Static, b"+bundle", b"a", None),
        ),
        (link(b"a=b"), None),
        (
            extern_(b"a=\xff"),
            Some(Flag::Extern {
                name: b"a",
                path: Some(b"\xff"),
            }),
        ),
        (extern_(b"\xff=a"), None),
        (
            extern_location(b"a=b=c"),
            Some(Flag::ExternLocation {
                name: b"a",
                location: b"b=c",
            }),
        ),
        (extern_location(b"a"), None),
        (
            remap_path_prefix(b"a=b=c"),
            Some(Flag::RemapPathPrefix {
                from: b"a=b",
                to: b"c",
            }),
        ),
        (remap_path_prefix(b"a"), None),
    ];
    for (made, flag) in cases {
        assert!(rt; made == flag);
    }
}

#[test]
fn years(rt: HostRuntime) {
    let cases: [(&[u8], Option<Flag<'_>>); 8] = [
        (b"2021", Some(Flag::Edition(2021))),
        (b"+0007", Some(Flag::Edition(7))),
        (b"65535", Some(Flag::Edition(65535))),
        (b"65536", None),
        (b"", None),
        (b"+", None),
        (b"++1", None),
        (b"-1", None),
    ];
    for (arg, year) in cases {
        assert!(rt; edition(arg) == year);
    }
}
