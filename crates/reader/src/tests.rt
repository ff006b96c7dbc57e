use super::*;
use tables::Rustc;
use text::Refusal;

// The number of the kind of a flag, as the rules list the kinds, if there was one, and whether the text is read to its end then.
type Told = (Option<u8>, bool);

fn flag(kind: u8) -> Told {
    (Some(kind), false)
}

fn last(kind: u8) -> Told {
    (Some(kind), true)
}

fn none() -> Told {
    (None, true)
}

// What a text's first four reads tell.
fn told(text: &[u8]) -> Result<[Told; 4], Refusal> {
    let mut cursor = Cursor::open(text)?;
    let mut out = [(None, false); 4];
    for place in &mut out {
        let kind = cursor.next(text, &Rustc).map(|flag| flag.kind().number());
        *place = (kind, cursor.ended(text));
    }
    Ok(out)
}

#[test]
fn reads(rt: HostRuntime) {
    let cases: [(&[u8], [Told; 4]); 20] = [
        (b"", [none(), none(), none(), none()]),
        (b"-hV", [flag(0), last(21), none(), none()]),
        (b"-h\x1f", [flag(0), none(), none(), none()]),
        (b"--help\x1f", [last(0), none(), none(), none()]),
        (b"-A", [none(), none(), none(), none()]),
        (b"--allow", [last(14), none(), none(), none()]),
        (b"-o\x1f\x1f-h", [flag(9), last(0), none(), none()]),
        (b"--help=x\x1f-v", [last(22), none(), none(), none()]),
        (b"--\x1f-h", [none(), none(), none(), none()]),
        (
            b"--emit=zz,link,,asm\x1f-h",
            [flag(7), flag(7), last(0), none()],
        ),
        (b"--emit=link,asm", [flag(7), last(7), none(), none()]),
        (b"--emit=link\x1f-gO", [flag(7), flag(20), last(20), none()]),
        (b"-L\x1fx=y\x1f-h", [last(0), none(), none(), none()]),
        (b"-hx-V\x1f-V", [flag(0), last(21), none(), none()]),
        (b"-h\xc3\xa9-V\x1f-V", [flag(0), last(21), none(), none()]),
        (b"-\xc3\xa9h\x1f-h\xa9V", [flag(0), none(), none(), none()]),
        (
            b"-h\xc3\x1f-h\xf0\x9f\x1f-V",
            [flag(0), flag(0), last(21), none()],
        ),
        (
            b"--emit=\xc3\xa9,link,asm\x1f-h",
            [flag(7), flag(7), last(0), none()],
        ),
        (
            b"x\x1f\x1f-\x1f\xff\x1f-\xff\x1f-Cb=c=d",
            [last(20), none(), none(), none()],
        ),
        (
            b"--edition=65536\x1f--edition=65535",
            [last(6), none(), none(), none()],
        ),
    ];
    for (text, expected) in cases {
        assert!(rt; told(text) == Ok(expected));
    }
}

// The kinds of the flags that a look gives, up to three of them.
fn looked(look: &mut Look<'_>, text: &[u8]) -> [Option<u8>; 3] {
    let mut kinds = [None; 3];
    for kind in &mut kinds {
        *kind = look.next(text, &Rustc).map(|flag| flag.kind().number());
    }
    kinds
}

#[test]
fn looks(rt: HostRuntime) {
    let text = b"-hV\x1f--emit=link,asm";
    let mut cursor = Cursor::between(0);
    let before = cursor;
    {
        let mut look = cursor.look();
        assert!(rt; looked(&mut look, text) == [Some(0), Some(21), Some(7)]);
        assert!(rt; looked(&mut look, text) == [Some(7), None, None]);
    }
    assert!(rt; cursor == before);
    for kind in [Some(0), Some(21), Some(7), Some(7), None] {
        assert!(rt; cursor.peek(text, &Rustc).map(|flag| flag.kind().number()) == kind);
        assert!(rt; cursor.next(text, &Rustc).map(|flag| flag.kind().number()) == kind);
    }
    // a look at another text, and one past its end
    assert!(rt; cursor.peek(b"-g", &Rustc).is_none());
    assert!(rt; cursor.ended(text));
}
