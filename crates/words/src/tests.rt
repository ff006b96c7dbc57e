use super::*;

// Whether a comma list has the words of the set, all in their order. It goes from place to place, since it is `next_word` that is tried here.
fn spells<W: WordSet + PartialEq>(list: &[u8]) -> bool {
    let mut rest = list;
    for place in 0..W::COUNT {
        let (Some(word), Some((found, behind))) = (W::at(place), next_word::<W>(rest)) else {
            return false;
        };
        if found != word {
            return false;
        }
        rest = &rest[behind..];
    }
    rest.is_empty()
}

#[test]
fn sets(rt: HostRuntime) {
    let sets = [
        spells::<LibraryKind>(b"dependency,crate,native,framework,all"),
        spells::<LinkKind>(b"static,framework,dylib"),
        spells::<Sign>(b"+,-"),
        spells::<LinkModifier>(b"bundle,verbatim,whole-archive,as-needed"),
        spells::<Modifier>(
            b"+bundle,+verbatim,+whole-archive,+as-needed,-bundle,-verbatim,-whole-archive,-as-needed",
        ),
        spells::<CrateType>(b"bin,lib,rlib,dylib,cdylib,staticlib,proc-macro"),
        spells::<Emit>(b"asm,llvm-bc,llvm-ir,obj,metadata,link,dep-info,mir"),
        spells::<LintLevel>(b"allow,warn,deny,forbid"),
        spells::<ErrorFormat>(b"human,json,short"),
        spells::<Color>(b"auto,always,never"),
    ];
    for right in sets {
        assert!(rt; right);
    }
}

// How the word is spelled that the bytes read as.
fn again<W: WordSet>(bytes: &[u8]) -> Option<&'static [u8]> {
    Some(read_word::<W>(bytes)?.spelling())
}

#[test]
fn words(rt: HostRuntime) {
    let cases: [(&[u8], Option<&[u8]>); 8] = [
        (b"cdylib", Some(b"cdylib")),
        (b"Cdylib", None),
        (b"lib ", None),
        (b"li", None),
        (b"", None),
        (b"proc-macro", Some(b"proc-macro")),
        (b"proc-macros", None),
        (b"\xff", None),
    ];
    for (bytes, word) in cases {
        assert!(rt; again::<CrateType>(bytes) == word);
    }
}

// The first word of a list, as it is spelled, and the place behind it.
fn first<W: WordSet>(list: &[u8]) -> Option<(&'static [u8], usize)> {
    let (word, behind) = next_word::<W>(list)?;
    Some((word.spelling(), behind))
}

#[test]
fn lists(rt: HostRuntime) {
    let cases: [(&[u8], Option<(&[u8], usize)>); 9] = [
        (b"zz,link,,asm", Some((b"link", 8))),
        (b",asm", Some((b"asm", 4))),
        (b"asm,", Some((b"asm", 4))),
        (b"asm", Some((b"asm", 3))),
        (b"\xff,mir,obj", Some((b"mir", 6))),
        (b"", None),
        (b",", None),
        (b"zz,llvm", None),
        (b"asm ,Obj", None),
    ];
    for (list, word) in cases {
        assert!(rt; first::<Emit>(list) == word);
    }
}

#[test]
fn modifiers(rt: HostRuntime) {
    let cases: [(&[u8], Option<(&[u8], usize)>); 3] = [
        (b"+bundle,-as-needed,bundle,+,-", Some((b"+bundle", 8))),
        (b"-as-needed,bundle,+,-", Some((b"-as-needed", 11))),
        (b"bundle,+,-", None),
    ];
    for (list, word) in cases {
        assert!(rt; first::<Modifier>(list) == word);
    }
}

// How many known words a list has, if they are the set's first ones in their order.
fn in_order(list: &[u8]) -> Option<usize> {
    (0..=Emit::COUNT).find(|n| known_words::<Emit>(list).eq((0..*n).filter_map(Emit::at)))
}

#[test]
fn known(rt: HostRuntime) {
    let cases: [(&[u8], Option<usize>); 6] = [
        (
            b"asm,llvm-bc,llvm-ir,obj,metadata,link,dep-info,mir",
            Some(8),
        ),
        (b"zz,asm,,llvm-bc,\xff", Some(2)),
        (b"asm,asm", None),
        (b"llvm-bc", None),
        (b",", Some(0)),
        (b"", Some(0)),
    ];
    for (list, count) in cases {
        assert_eq!(rt; in_order(list), count);
    }
}

#[test]
fn same_known(rt: HostRuntime) {
    let cases: [(&[u8], &[u8], bool); 6] = [
        (b"+bundle,-verbatim", b",+bundle,zz,-verbatim,", true),
        (b"+bundle,-verbatim", b"-verbatim,+bundle", false),
        (b"+bundle", b"+bundle,-verbatim", false),
        (b"+bundle", b"-bundle", false),
        (b"bundle", b"", true),
        (b"", b"", true),
    ];
    for (a, b, same) in cases {
        assert_eq!(rt;
            known_words::<Modifier>(a) == known_words::<Modifier>(b),
            same
        );
    }
}
