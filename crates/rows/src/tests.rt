use super::*;

// The number of the refusal, if there is one; numbers, since of two faults the smaller one is told.
fn verdict(text: &[u8], rows: &[Row]) -> Option<u8> {
    Names { text, rows }
        .check()
        .err()
        .map(|refusal| refusal.number())
}

// A row, short. The house's tests have the same, since tests of two crates share no code.
const fn row(offset: usize, length: usize, code: u8) -> Row {
    Row {
        offset,
        length,
        code,
    }
}

// `C`, `g`, `O`, `x`, `cfg`, `test` and `ab`, and two bytes that no row has.
const TEXT: [u8; 15] = *b"CgOxcfgtestabyz";

fn good_rows() -> [Row; 7] {
    [
        row(0, 1, 20),
        row(1, 1, 31),
        row(2, 1, 32),
        row(3, 1, 31),
        row(4, 3, 1),
        row(7, 4, 12),
        row(11, 2, 31),
    ]
}

// A small edit of the good table.
#[derive(Clone, Copy)]
enum Edit {
    Nothing,
    // another byte at a place of the text
    Byte(usize, u8),
    // another row at a place of the rows
    Row(usize, Row),
}

fn apply(text: &mut [u8], rows: &mut [Row], edit: Edit) {
    match edit {
        Edit::Nothing => {}
        Edit::Byte(at, byte) => {
            if let Some(there) = text.get_mut(at) {
                *there = byte;
            }
        }
        Edit::Row(place, row) => {
            if let Some(there) = rows.get_mut(place) {
                *there = row;
            }
        }
    }
}

// The verdict on the good table with two edits.
fn edited(one: Edit, two: Edit) -> Option<u8> {
    let mut text = TEXT;
    let mut rows = good_rows();
    apply(&mut text, &mut rows, one);
    apply(&mut text, &mut rows, two);
    verdict(&text, &rows)
}

// Each fault alone, and each two together: the smaller number is answered.
#[test]
fn faults(rt: HostRuntime) {
    let faults = [
        // out of order
        (8, Edit::Row(3, row(13, 1, 31))),
        // one byte in two rows
        (8, Edit::Row(3, row(3, 2, 31))),
        // past the text, also where the sum would wrap
        (8, Edit::Row(6, row(11, 5, 31))),
        (8, Edit::Row(6, row(15, 1, 31))),
        (8, Edit::Row(6, row(usize::MAX, 2, 31))),
        (8, Edit::Row(6, row(11, usize::MAX, 31))),
        // names
        (8, Edit::Row(6, row(11, 0, 31))),
        (8, Edit::Byte(3, 0x20)),
        (8, Edit::Byte(3, 0x7f)),
        (8, Edit::Byte(3, 0x80)),
        (8, Edit::Byte(3, b'=')),
        (8, Edit::Byte(3, b'-')),
        (8, Edit::Byte(8, b'=')),
        (8, Edit::Byte(11, b'-')),
        // codes
        (8, Edit::Row(3, row(3, 1, 33))),
        (8, Edit::Row(3, row(3, 1, 255))),
        // a name twice
        (9, Edit::Byte(2, b'g')),
        (9, Edit::Byte(2, b'x')),
        // home spellings
        (10, Edit::Byte(0, b'D')),
        (10, Edit::Row(0, row(0, 1, 31))),
        (10, Edit::Row(5, row(7, 4, 11))),
        (10, Edit::Row(4, row(4, 3, 2))),
    ];
    for (one, first) in faults {
        for (two, second) in faults {
            assert_eq!(rt; edited(first, second), Some(one.min(two)));
        }
    }
}

#[test]
fn good(rt: HostRuntime) {
    let edits = [
        Edit::Nothing,
        // a dash inside a name, the ends of the range of bytes
        Edit::Byte(12, b'-'),
        Edit::Byte(3, 0x21),
        Edit::Byte(3, 0x7e),
        // a gap, and a row that ends where the text does
        Edit::Row(6, row(13, 2, 31)),
    ];
    for edit in edits {
        assert_eq!(rt; edited(edit, edit), None);
    }
    assert_eq!(rt; verdict(b"", &[]), None);
    assert_eq!(rt; verdict(b"O", &[row(0, 1, 32)]), Some(10));
}

// 256 rows and 257: `C`, and names of two letters, which tell their place. 257 rows with another fault beside get 8 too.
#[test]
fn counts(rt: HostRuntime) {
    let mut text = [b'C'; 513];
    let mut rows = [row(0, 1, 20); 257];
    for i in 0..=255u8 {
        let place = usize::from(i);
        text[1 + 2 * place] = b'A' + i / 16;
        text[2 + 2 * place] = b'a' + i % 16;
        rows[1 + place] = row(1 + 2 * place, 2, 31);
    }
    assert_eq!(rt; verdict(&text, &rows[0..256]), None);
    assert_eq!(rt; verdict(&text, &rows), Some(8));
    let with = |place: usize, other: Row| {
        let mut changed = rows;
        changed[place] = other;
        verdict(&text, &changed)
    };
    assert_eq!(rt; with(1, row(1, 0, 31)), Some(8));
    assert_eq!(rt; with(256, row(1, 2, 31)), Some(8));
    assert_eq!(rt; with(0, row(0, 1, 31)), Some(8));
}
