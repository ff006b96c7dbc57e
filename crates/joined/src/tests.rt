use super::*;
use sinks::{Sink, put_arguments};

#[test]
fn cuts(rt: HostRuntime) {
    let cases: [(usize, usize, &[u8]); 6] = [
        (5, 4, b"a\x1f\x1fb\x1f"),
        (4, 4, b"a\x1f\x1fb\x1f"),
        (3, 3, b"a\x1f\x1fb"),
        (2, 2, b"a\x1f"),
        (1, 1, b"a"),
        (0, 0, b""),
    ];
    for (n, count, text) in cases {
        let mut buffer = [1; 7];
        let mut sink = Joined::new(&mut buffer);
        assert_eq!(rt; put_arguments(&mut sink, &[b"a", b"", b"b", b""]), Ok(()));
        assert_eq!(rt; sink.cut(n), Ok(()));
        assert_eq!(rt; sink.count(), count);
        assert!(rt; sink.content() == text);
        assert!(rt; sink.buffer()[text.len()..].iter().all(|b| *b == 0));
    }
}
