use super::*;
use flags::{Code, Kind};
use tables::{Rustc, Table, knows};

// Codes stand here by their numbers, as the rules list them.
#[test]
fn knows_one_kind(rt: HostRuntime) {
    for place in 0..33u8 {
        if let Ok(Code::Of(kind)) = Code::try_from(place) {
            assert_eq!(rt; knows(&OnlyZ, kind), kind == Kind::Z);
            assert!(rt; knows(&Rustc, kind));
        }
    }
    assert_eq!(rt; OnlyZ.lookup_short(b'Z').map(Code::number), Some(26));
    assert_eq!(rt; OnlyZ.lookup_long(b"Z").map(Code::number), None);
}

#[test]
fn looks_up_letters(rt: HostRuntime) {
    let cases: [(u8, Option<u8>); 18] = [
        (b'h', Some(0)),
        (b'L', Some(2)),
        (b'l', Some(3)),
        (b'g', Some(31)),
        (b'O', Some(32)),
        (b'o', Some(9)),
        (b'A', Some(14)),
        (b'W', Some(15)),
        (b'D', Some(17)),
        (b'F', Some(18)),
        (b'C', Some(20)),
        (b'V', Some(21)),
        (b'v', Some(22)),
        (b'Z', Some(26)),
        (b'H', None),
        (b'-', None),
        (0, None),
        (0xff, None),
    ];
    for (letter, code) in cases {
        assert_eq!(rt; Rustc.lookup_short(letter).map(Code::number), code);
    }
}

#[test]
fn looks_up_names(rt: HostRuntime) {
    let cases: [(&[u8], Option<u8>); 14] = [
        (b"help", Some(0)),
        (b"cfg", Some(1)),
        (b"crate-type", Some(4)),
        (b"out-dir", Some(10)),
        (b"force-warn", Some(16)),
        (b"codegen", Some(20)),
        (b"extern-location", Some(24)),
        (b"remap-path-prefix", Some(30)),
        (b"", None),
        (b"out", None),
        (b"Cfg", None),
        (b"cfg=", None),
        (b"h", None),
        (b"\xff", None),
    ];
    for (name, code) in cases {
        assert_eq!(rt; Rustc.lookup_long(name).map(Code::number), code);
    }
}
