use super::*;

// The number of the kind, as the rules list the kinds, and the place of what is made.
fn told(code: Code, arg: &[u8]) -> Option<(u8, usize)> {
    let (flag, place) = make(code, arg)?;
    Some((flag.kind().number(), place))
}

#[test]
fn makes(rt: HostRuntime) {
    let cases: [(Code, &[u8], Option<(u8, usize)>); 12] = [
        (Code::Of(Kind::Help), b"x", Some((0, 1))),
        (Code::Debuginfo, b"", Some((20, 0))),
        (Code::Of(Kind::Emit), b"zz,link,,asm", Some((7, 8))),
        (Code::Of(Kind::Emit), b",asm", Some((7, 4))),
        (Code::Of(Kind::Emit), b",", None),
        (Code::Of(Kind::CrateType), b"Cdylib,cdylib", Some((4, 13))),
        (Code::Of(Kind::CrateName), b"\xff", None),
        (Code::Of(Kind::Out), b"\xff", Some((9, 1))),
        (Code::Of(Kind::Edition), b"+02021", Some((6, 6))),
        (Code::Of(Kind::Edition), b"65536", None),
        (Code::Of(Kind::Color), b"auto", Some((29, 4))),
        (Code::Of(Kind::ExternLocation), b"a", None),
    ];
    for (code, arg, made) in cases {
        assert!(rt; told(code, arg) == made);
    }
}
