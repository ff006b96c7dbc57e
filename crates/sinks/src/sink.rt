// What a sink is.
ghost use Rattle.std.specs.Borrow.{GName};
ghost use Rattle.std.specs.Prelude.{◌≡◌, ℕ, length};
ghost use Rattle.sinks.specs.Sinks.{Held, Rules, verdict, begin_told, write_told, finish_told, withdraw_told, cut_told, begun, written, finished, withdrawn, cut_to, nothing};

use super::token::Token;
use text::Refusal;

// The clause `stays` compares a sink before and after a call, so no type can carry it.
pub trait Sink {
    // what never changes, its size above all; each sink has a type of its own for it
    ghost Fixed: { Type 0 };

    ghost fixed: { Self → Fixed };

    // what goes through, and what bars the rest
    ghost rules: { Fixed → Rules };

    // the finished arguments and the open one
    ghost means: { Self → Held };

    // Opens an argument with no bytes. The token is owed to `finish` or `withdraw`.
    fn begin(&mut self) -> Result<Token, Refusal>
        ensures answer { verdict result ≡ begin_told (rules (fixed self.old)) (means self.old) }
        ensures holds { means self.new ≡ begun (verdict result) (means self.old) }
        ensures stays { fixed self.new ≡ fixed self.old };

    // Adds bytes to the open argument: all of them or none.
    fn write(&mut self, bytes: &[u8]) -> Result<(), Refusal>
        ensures answer { verdict result ≡ write_told (rules (fixed self.old)) (means self.old) bytes.now }
        ensures holds { means self.new ≡ written (verdict result) bytes.now (means self.old) }
        ensures stays { fixed self.new ≡ fixed self.old };

    // Puts the open argument last in the list. Where that is declined, the argument is dropped.
    fn finish(&mut self, token: Token) -> Result<(), Refusal>
        ensures answer { verdict result ≡ finish_told (rules (fixed self.old)) (means self.old) }
        ensures holds { means self.new ≡ finished (verdict result) (means self.old) }
        ensures stays { fixed self.new ≡ fixed self.old };

    // Drops the open argument.
    fn withdraw(&mut self, token: Token) -> Result<(), Refusal>
        ensures answer { verdict result ≡ withdraw_told (means self.old) }
        ensures holds { means self.new ≡ withdrawn (means self.old) }
        ensures stays { fixed self.new ≡ fixed self.old };

    // Keeps the first n arguments, or all.
    fn cut(&mut self, n: usize) -> Result<(), Refusal>
        ensures answer { verdict result ≡ cut_told (means self.old) }
        ensures holds { means self.new ≡ cut_to (verdict result) n (means self.old) }
        ensures stays { fixed self.new ≡ fixed self.old };

    // How many arguments are finished.
    fn count(&self) -> usize
        ensures { result ≡ length (means self.now).list };

    // Drops all, the open argument too. The token of that one is still owed.
    fn empty(&mut self)
        ensures holds { means self.new ≡ nothing }
        ensures stays { fixed self.new ≡ fixed self.old };
}

// A sink that is lent is a sink, and what its borrower writes is in it.
impl<'a, S: Sink> Sink for &'a mut S {
    ghost Fixed = { S.Sink.Fixed × GName };

    ghost fixed = { λ s. (S.Sink.fixed s.now, s.ghost_name) };

    ghost rules = { λ f. S.Sink.rules f.0 };

    ghost means = { λ s. S.Sink.means s.now };

    fn begin(&mut self) -> Result<Token, Refusal> {
        S::begin(self)
    }

    fn write(&mut self, bytes: &[u8]) -> Result<(), Refusal> {
        S::write(self, bytes)
    }

    fn finish(&mut self, token: Token) -> Result<(), Refusal> {
        S::finish(self, token)
    }

    fn withdraw(&mut self, token: Token) -> Result<(), Refusal> {
        S::withdraw(self, token)
    }

    fn cut(&mut self, n: usize) -> Result<(), Refusal> {
        S::cut(self, n)
    }

    fn count(&self) -> usize {
        S::count(self)
    }

    fn empty(&mut self) {
        S::empty(self)
    }
}
