use super::model::{Kind, Model};
use super::{Letters, TakesNothing};
use joined::Joined;
use sheet::Sheet;
use sinks::{Sink, Token, put_argument, put_arguments};
use std::process::Abort;
use std::test::Fail;
use text::Refusal;

// The next of a row of numbers that looks random.
fn next(seed: u32) -> u32 {
    seed.wrapping_mul(1_664_525).wrapping_add(1_013_904_223)
}

// One call on the sink and the same on the model. The test stands in for the owner of the tokens.
// A random number picks the call, so this is a match on the number.
fn step<S: Sink>(rt: &impl Abort, sink: &mut S, model: &mut Model, seed: u32) -> Result<(), Fail> {
    let texts: [&[u8]; 4] = [b"", b"a", b"bcd", b"e\x1f"];
    let some = (seed >> 8) as usize % 4;
    match (seed >> 16) % 16 {
        0..=3 => assert_eq!(rt; sink.begin().map(Token::spend), model.begin()),
        4..=8 => assert_eq!(rt; sink.write(texts[some]), model.write(texts[some])?),
        9..=12 => assert_eq!(rt; sink.finish(Token::issue()), model.finish()?),
        13 => assert_eq!(rt; sink.withdraw(Token::issue()), model.withdraw()),
        14 => assert_eq!(rt; sink.cut(some), model.cut(some)),
        _ => {
            if some == 0 {
                sink.empty();
                model.empty();
            }
        }
    }
    Ok(())
}

fn zeros(bytes: &[u8]) -> bool {
    bytes.iter().all(|b| *b == 0)
}

fn joined_history(rt: &(impl Abort + AllocGlobal), size: usize) -> Result<(), Fail> {
    let mut buffer = vec![in rt.alloc(); 0xaau8; size]?;
    let mut sink = Joined::new(buffer.as_mut_slice());
    let mut model = Model::new(rt.alloc(), size, Kind::Joined);
    let mut seed = 1;
    for _ in 0..2000 {
        seed = next(seed);
        step(rt, &mut sink, &mut model, seed)?;
        assert_eq!(rt; sink.count(), model.list.len());
        let text = model.text()?;
        assert!(rt; sink.content() == text.as_slice());
        let all = sink.buffer();
        assert!(rt; all.len() == size && text.len() <= size);
        assert!(rt; zeros(&all[text.len()..]));
    }
    Ok(())
}

#[test]
fn joined_histories(rt: HostRuntime) -> Result<(), Fail> {
    for size in [0, 1, 2, 5, 13] {
        joined_history(&rt, size)?;
    }
    Ok(())
}

fn sheet_history(rt: &(impl Abort + AllocGlobal), size: usize, rows: usize) -> Result<(), Fail> {
    let mut buffer = vec![in rt.alloc(); 0xaau8; size]?;
    let mut table = vec![in rt.alloc(); (7u16, 7u16); rows]?;
    let mut sink = Sheet::new(buffer.as_mut_slice(), table.as_mut_slice());
    let mut model = Model::new(rt.alloc(), size, Kind::Sheet { rows });
    let mut seed = 1;
    for _ in 0..2000 {
        seed = next(seed);
        step(rt, &mut sink, &mut model, seed)?;
        assert_eq!(rt; sink.count(), model.list.len());
        for (n, argument) in model.list.iter().enumerate() {
            let Some(lent) = sink.argument(n) else {
                return Err(Fail::new("an argument is missing"));
            };
            assert!(rt; lent == argument.as_slice());
        }
        assert!(rt; sink.argument(model.list.len()).is_none());
        let used = model.used();
        let all = sink.bytes();
        assert!(rt; all.len() == size && used <= size);
        assert!(rt; zeros(&all[used..]));
        let pairs = sink.pairs();
        assert!(rt; pairs.len() == rows && model.list.len() <= rows);
        let rest = &pairs[model.list.len()..];
        assert!(rt; rest.iter().all(|pair| *pair == (0, 0)));
    }
    Ok(())
}

#[test]
fn sheet_histories(rt: HostRuntime) -> Result<(), Fail> {
    for (size, rows) in [(0, 2), (1, 0), (2, 1), (4, 9), (13, 4)] {
        sheet_history(&rt, size, rows)?;
    }
    Ok(())
}

#[test]
fn past_the_limit(rt: HostRuntime) -> Result<(), Fail> {
    let mut buffer = vec![in rt.alloc(); 9u8; 65_537]?;
    let mut table = [(0, 0); 1];
    let mut sink = Sheet::new(buffer.as_mut_slice(), &mut table);
    let most = vec![in rt.alloc(); b'-'; 65_535]?;
    assert_eq!(rt; put_argument(&mut sink, most.as_slice()), Ok(()));
    let all = sink.bytes();
    assert!(rt; all.len() == 65_537);
    assert!(rt; all[65_534] == b'-' && all[65_535] == 9 && all[65_536] == 9);
    Ok(())
}

#[test]
fn strangers_take_lists(rt: HostRuntime) -> Result<(), Fail> {
    let mut nothing = TakesNothing;
    assert_eq!(rt; put_argument(&mut nothing, b"a"), Err(Refusal::NoSpace));
    assert_eq!(rt; put_arguments(&mut nothing, &[]), Ok(()));
    let mut letters = Letters::new(rt.alloc(), 4)?;
    assert_eq!(rt; put_arguments(&mut letters, &[b"a", b"b"]), Ok(()));
    assert_eq!(rt;
        put_arguments(&mut letters, &[b"c", b"de"]),
        Err(Refusal::CannotCarry)
    );
    assert_eq!(rt; letters.count(), 2);
    Ok(())
}

#[test]
fn lists_go_in_whole(rt: HostRuntime) {
    let mut buffer = [1; 7];
    let mut sink = Joined::new(&mut buffer);
    assert_eq!(rt; put_arguments(&mut sink, &[b"-C", b"a=b"]), Ok(()));
    assert!(rt; sink.content() == b"-C\x1fa=b".as_slice());
    assert_eq!(rt;
        put_arguments(&mut sink, &[b"", b"x"]),
        Err(Refusal::NoSpace)
    );
    assert_eq!(rt; put_arguments(&mut sink, &[b""]), Ok(()));
    assert!(rt; sink.content() == b"-C\x1fa=b\x1f".as_slice());
    assert_eq!(rt; put_argument(&mut sink, b""), Err(Refusal::NoSpace));
}
