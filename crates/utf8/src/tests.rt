// Each row of the table at its ends, and what lies next to them.
use super::*;
use std::process::Abort;

fn check_all(rt: &impl Abort, texts: &[&[u8]], expected: bool) {
    for text in texts {
        assert_eq!(rt; is_utf8(text), expected);
    }
}

#[test]
fn first_and_last_of_each_row(rt: HostRuntime) {
    check_all(
        &rt,
        &[
            b"\x00",
            b"\x7F",
            b"\xC2\x80",
            b"\xDF\xBF",
            b"\xE0\xA0\x80",
            b"\xE0\xBF\xBF",
            b"\xE1\x80\x80",
            b"\xEC\xBF\xBF",
            b"\xED\x80\x80",
            b"\xED\x9F\xBF",
            b"\xEE\x80\x80",
            b"\xEF\xBF\xBF",
            b"\xF0\x90\x80\x80",
            b"\xF0\xBF\xBF\xBF",
            b"\xF1\x80\x80\x80",
            b"\xF3\xBF\xBF\xBF",
            b"\xF4\x80\x80\x80",
            b"\xF4\x8F\xBF\xBF",
        ],
        true,
    );
}

#[test]
fn just_outside_a_row(rt: HostRuntime) {
    check_all(
        &rt,
        &[
            b"\x80",
            b"\xBF",
            b"\xC1\xBF",
            b"\xC2\x7F",
            b"\xC2\xC0",
            b"\xDF\x7F",
            b"\xDF\xC0",
            b"\xE0\x9F\xBF",
            b"\xE0\xC0\x80",
            b"\xE1\x7F\x80",
            b"\xE1\x80\xC0",
            b"\xEC\xBF\x7F",
            b"\xEC\xC0\x80",
            b"\xED\x7F\x80",
            b"\xED\xA0\x80",
            b"\xED\xBF\xBF",
            b"\xEE\x7F\x80",
            b"\xEF\xC0\x80",
            b"\xF0\x8F\xBF\xBF",
            b"\xF0\xC0\x80\x80",
            b"\xF1\x7F\x80\x80",
            b"\xF3\xC0\x80\x80",
            b"\xF3\xBF\xBF\xC0",
            b"\xF4\x7F\x80\x80",
            b"\xF4\x90\x80\x80",
            b"\xF5\x80\x80\x80",
            b"\xFF",
        ],
        false,
    );
}

#[test]
fn cut_short(rt: HostRuntime) {
    check_all(
        &rt,
        &[
            b"\xDF",
            b"\xE0\xA0",
            b"\xED\x9F",
            b"\xF0\x90\x80",
            b"\xF4\x8F",
            b"a\xF1\x80\x80b",
        ],
        false,
    );
}

#[test]
fn longer_texts(rt: HostRuntime) {
    check_all(
        &rt,
        &[b"", "na\u{EF}ve \u{20AC}5 \u{1D11E}\n".as_bytes()],
        true,
    );
    check_all(&rt, &[b"plain, then \xC3\x28", b"\xE2\x82\xAC\x80"], false);
}
