use super::*;
use std::test::Fail;

#[test]
fn counts(rt: HostRuntime) {
    let cases: [(&[u8], usize); 5] = [
        (b"", 0),
        (b"\x1f", 2),
        (b"-h", 1),
        (b"-h\x1f", 2),
        (b"-C\x1fa=b\x1f\x1f-V", 4),
    ];
    for (text, n) in cases {
        assert_eq!(rt; count(text), n);
    }
}

#[test]
fn walks(rt: HostRuntime) {
    let cases: [(&[u8], usize, &[u8], usize); 7] = [
        (b"", 0, b"", 0),
        (b"\x1f", 0, b"", 1),
        (b"\x1f", 1, b"", 1),
        (b"-h\x1f", 0, b"-h", 3),
        (b"-h\x1f", 3, b"", 3),
        (b"-C\x1fa=b", 3, b"a=b", 6),
        (b"-h", 9, b"", 2),
    ];
    for (text, at, argument, behind) in cases {
        let (a, b) = argument_at(text, at);
        assert!(rt; a == argument);
        assert_eq!(rt; b, behind);
    }
}

#[test]
fn iterates(rt: HostRuntime) {
    let cases: [(&[u8], &[&[u8]]); 5] = [
        (b"", &[]),
        (b"\x1f", &[b"", b""]),
        (b"-h", &[b"-h"]),
        (b"-h\x1f", &[b"-h", b""]),
        (b"-C\x1fa=b\x1f\x1f-V", &[b"-C", b"a=b", b"", b"-V"]),
    ];
    for (text, list) in cases {
        let mut given = arguments_of(text);
        for argument in list {
            assert!(rt; given.next() == Some(*argument));
        }
        assert!(rt; given.next().is_none());
    }
}

type Cut<'a> = Option<(&'a [u8], &'a [u8])>;

#[test]
fn cuts(rt: HostRuntime) {
    let cases: [(&[u8], Cut<'_>, Cut<'_>); 5] = [
        (b"a=b=c", Some((b"a", b"b=c")), Some((b"a=b", b"c"))),
        (b"=", Some((b"", b"")), Some((b"", b""))),
        (b"abc", None, None),
        (b"", None, None),
        (
            b"\xff=\xff",
            Some((b"\xff", b"\xff")),
            Some((b"\xff", b"\xff")),
        ),
    ];
    for (bytes, first, last) in cases {
        assert!(rt; split_once(bytes, b'=') == first);
        assert!(rt; rsplit_once(bytes, b'=') == last);
    }
}

#[test]
fn ends(rt: HostRuntime) {
    let cases: [(&[u8], bool, bool, bool); 5] = [
        (b"", false, false, false),
        (b"-", true, true, true),
        (b"-L", true, false, true),
        (b"L-", false, true, true),
        (b"a-b", false, false, true),
    ];
    for (bytes, first, last, any) in cases {
        assert_eq!(rt; starts_with(bytes, b'-'), first);
        assert_eq!(rt; ends_with(bytes, b'-'), last);
        assert_eq!(rt; contains(bytes, b'-'), any);
    }
}

#[test]
fn lengths(rt: HostRuntime) -> Result<(), Fail> {
    let most = vec![in rt.alloc(); b'-'; LONGEST_TEXT]?;
    assert!(rt; check_text(most.as_slice()).is_ok());
    let over = vec![in rt.alloc(); b'-'; LONGEST_TEXT + 1]?;
    assert!(rt; check_text(over.as_slice()) == Err(Refusal::TextTooLong));
    Ok(())
}

#[test]
fn refusals(rt: HostRuntime) -> Result<(), Fail> {
    assert_eq!(rt; Refusal::TextTooLong.number(), 6);
    let text = format!(in rt.alloc(); "{}", Refusal::TextTooLong)?;
    assert!(rt; text.as_str() == "a text has at most 65,535 bytes");
    Ok(())
}

#[test]
fn joins(rt: HostRuntime) {
    assert!(rt; can_join(&[]));
    assert!(rt; !can_join(&[b""]));
    assert!(rt; can_join(&[b"", b""]));
    assert!(rt; can_join(&[b"-C", b"a=b"]));
    assert!(rt; !can_join(&[b"-C", b"a\x1fb"]));
}

#[test]
fn forms(rt: HostRuntime) {
    let cases: [(&[u8], Shape<'_>); 7] = [
        (b"", Shape::Empty),
        (b"-", Shape::Dash),
        (b"--", Shape::DoubleDash),
        (b"--cfg", Shape::Long(b"cfg")),
        (b"---", Shape::Long(b"-")),
        (b"-gV", Shape::Short(b"gV")),
        (b"a-b", Shape::Plain),
    ];
    for (argument, shape) in cases {
        assert!(rt; shape_of(argument) == shape);
    }
}
