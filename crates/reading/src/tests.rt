use super::*;

#[test]
fn counts(rt: HostRuntime) {
    let cases: [(&[u8], usize); 3] = [(b"", 0), (b"-hV", 3), (b"--help=x\x1f-v", 11)];
    for (text, n) in cases {
        assert_eq!(rt; most_flags(text), n);
    }
}

#[test]
fn shows(rt: HostRuntime) {
    let cases: [(usize, Option<&[u8]>); 4] = [
        (0, Some(b"-hV")),
        (4, Some(b"-o\x1f\x1f-h")),
        (16, Some(b"--edition=65536")),
        (17, None),
    ];
    for (place, text) in cases {
        assert!(rt; example(place) == text);
    }
}
