// What a caller finds in a buffer that it lent.
ghost use Rattle.std.specs.Prelude.{◌≡◌};
ghost use Rattle.sinks.specs.Sinks.{nothing};

use joined::Joined;
use sheet::Sheet;
use sinks::Sink;

// The sink has ended, and its caller knows the bytes.
pub fn cleared() -> u8
    ensures { result ≡ 0 }
{
    let mut bytes: [u8; 2] = [7, 7];
    {
        let sink = Joined::new(&mut bytes);
        let _ = sink.buffer();
    }
    bytes[1]
}

// The same of a sheet. The trait knows no bytes, so each sink has its own.
pub fn cleared_sheet() -> u8
    ensures { result ≡ 0 }
{
    let mut bytes: [u8; 2] = [7, 7];
    let mut pairs: [(u16, u16); 1] = [(7, 7)];
    {
        let sink = Sheet::new(&mut bytes, &mut pairs);
        let _ = sink.bytes();
    }
    bytes[0]
}

// Somebody who holds a sink by value.
#[derive(Drop)]
struct Holder<S> {
    sink: S,
    // a field of the holder's own, so that it is more than its sink: 1 once that is emptied
    calls: u8,
}

impl<S: Sink> Holder<S> {
    fn new(sink: S) -> Holder<S>
        ensures { result.sink ≡ sink }
    {
        Holder { sink, calls: 0 }
    }

    fn empty(&mut self)
        ensures holds { S.means self.new.sink ≡ nothing }
        ensures stays { S.fixed self.new.sink ≡ S.fixed self.old.sink }
    {
        self.calls = 1;
        self.sink.empty();
    }

    fn sink(&self) -> &S
        ensures { result.now ≡ self.now.sink }
    {
        &self.sink
    }

    fn into_sink(self) -> S
        ensures { result ≡ self.sink }
    {
        let Holder { sink, calls: _ } = self;
        sink
    }
}

// A sink that is lent to a holder: the bytes can be asked for while the holder lives.
pub fn lent_to_a_holder() -> u8
    ensures { result ≡ 0 }
{
    let mut bytes: [u8; 2] = [7, 7];
    let mut sink = Joined::new(&mut bytes);
    let mut holder = Holder::new(&mut sink);
    holder.empty();
    let all = holder.sink().buffer();
    all[1]
}

fn held_and_emptied<S: Sink>(sink: S) -> S
    ensures holds { S.means result ≡ nothing }
    ensures stays { S.fixed result ≡ S.fixed sink }
{
    let mut holder = Holder::new(sink);
    holder.empty();
    holder.into_sink()
}

// A sink that a holder had by value and hands back.
pub fn handed_back() -> u8
    ensures { result ≡ 0 }
{
    let mut bytes: [u8; 2] = [7, 7];
    let sink = held_and_emptied(Joined::new(&mut bytes));
    let all = sink.buffer();
    all[1]
}
