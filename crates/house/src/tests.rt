use super::*;
use flags::{Code, Kind};
use tables::{Rustc, Table, knows};

// A row, short. The rows' tests have the same, since tests of two crates share no code.
fn row(offset: usize, length: usize, code: u8) -> Row {
    Row {
        offset,
        length,
        code,
    }
}

// rustc's letters, and the home spellings of their kinds.
#[test]
fn letters(rt: HostRuntime) {
    let text = b"hLlgOoAWDFCVvZhelpallowwarndenyforbidversionverbose";
    let rows = [
        row(0, 1, 0),
        row(1, 1, 2),
        row(2, 1, 3),
        row(3, 1, 31),
        row(4, 1, 32),
        row(5, 1, 9),
        row(6, 1, 14),
        row(7, 1, 15),
        row(8, 1, 17),
        row(9, 1, 18),
        row(10, 1, 20),
        row(11, 1, 21),
        row(12, 1, 22),
        row(13, 1, 26),
        row(14, 4, 0),
        row(18, 5, 14),
        row(23, 4, 15),
        row(27, 4, 17),
        row(31, 6, 18),
        row(37, 7, 21),
        row(44, 7, 22),
    ];
    let table = HouseTable::new(text, &rows);
    for byte in 0..=255u8 {
        assert_eq!(rt; table.lookup_short(byte), Rustc.lookup_short(byte));
    }
    assert_eq!(rt; knows(&table, Kind::Forbid), true);
    assert_eq!(rt; knows(&table, Kind::Cfg), false);
    let names: [(&[u8], Option<u8>); 8] = [
        (b"help", Some(0)),
        (b"forbid", Some(18)),
        (b"verbose", Some(22)),
        (b"codegen", None),
        (b"Z", None),
        (b"hL", None),
        (b"hel", None),
        (b"", None),
    ];
    for (name, code) in names {
        assert_eq!(rt; table.lookup_long(name).map(Code::number), code);
    }
}

// What a table knows of `-O`, `-Z` and `--help`: the numbers of the codes, which are what rows give.
fn known<'a>(text: &'a [u8], rows: &'a [Row]) -> (Option<u8>, Option<u8>, Option<u8>) {
    let table = HouseTable::new(text, rows);
    (
        table.lookup_short(b'O').map(Code::number),
        table.lookup_short(b'Z').map(Code::number),
        table.lookup_long(b"help").map(Code::number),
    )
}

// Rows that the check declines give a table that knows nothing, and so do no rows.
#[test]
fn declined(rt: HostRuntime) {
    let nothing = (None, None, None);
    assert_eq!(rt; known(b"", &[]), nothing);
    assert_eq!(rt; known(b"O", &[row(0, 1, 32)]), nothing);
    assert_eq!(rt; known(b"ZZ", &[row(0, 1, 26), row(1, 1, 26)]), nothing);
    assert_eq!(rt; known(b"Zhelp", &[row(0, 1, 26), row(1, 5, 0)]), nothing);
    assert_eq!(rt;
        known(b"Zhelp", &[row(0, 1, 26), row(1, 4, 0)]),
        (None, Some(26), Some(0))
    );
}
