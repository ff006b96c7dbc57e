// The joined sink as a sink.
ghost use Rattle.std.specs.Prelude.{◌≡◌, ℕ, length, None};
ghost use Rattle.std.specs.Borrow.{GName};
ghost use Rattle.text.specs.Arguments.{arguments};
ghost use Rattle.sinks.specs.Sinks.{nothing};
ghost use Rattle.joined.specs.Joined.{rules_at, content, filled};
ghost use Rattle.joined.specs.State.{held, size, lasting};

use super::state::Joined;
use sinks::{Sink, Token};
use text::Refusal;

impl<'a> Joined<'a> {
    // An empty sink over a buffer, which it fills with zeros.
    pub fn new(buffer: &'a mut [u8]) -> Joined<'a>
        ensures holds { held result ≡ nothing }
        ensures lends { lasting result ≡ (length buffer.old, buffer.entry.ghost_name) }
    {
        buffer.fill(0);
        Joined {
            buffer,
            count: 0,
            finished: 0,
            start: None,
            used: 0,
        }
    }

    // The text so far. Where no argument is open, its arguments are those that the sink holds.
    #[tactic(auto, using(crate::proofs::States::content_is))]
    pub fn content(&self) -> &[u8]
        ensures answer { result.now ≡ content (held self.now) }
        ensures reads_back { (held self.now).pending ≡ None → arguments result.now ≡ (held self.now).list }
    {
        &self.buffer[..self.used]
    }

    // All of the buffer: the text, and zeros behind it.
    #[tactic(auto, using(crate::proofs::States::every_byte))]
    pub fn buffer(&self) -> &[u8]
        ensures lends { result.now ≡ self.now.buffer.now }
        ensures every_byte { self.now.buffer.now ≡ filled (size self.now) (content (held self.now)) }
    {
        &self.buffer[..]
    }
}

impl<'a> Sink for Joined<'a> {
    ghost Fixed = { ℕ × GName };

    ghost fixed = { lasting };

    ghost rules = { λ f. rules_at f.0 };

    ghost means = { held };

    fn begin(&mut self) -> Result<Token, Refusal> {
        self.check_begin()?;
        self.open_argument();
        Ok(Token::issue())
    }

    fn write(&mut self, bytes: &[u8]) -> Result<(), Refusal> {
        self.check_write(bytes)?;
        self.append(bytes);
        Ok(())
    }

    fn finish(&mut self, token: Token) -> Result<(), Refusal> {
        token.spend();
        let told = self.check_finish();
        match told {
            Ok(()) => self.keep(self.used, self.count + 1),
            Err(_) => self.keep(self.finished, self.count),
        }
        told
    }

    fn withdraw(&mut self, token: Token) -> Result<(), Refusal> {
        token.spend();
        self.check_open()?;
        self.keep(self.finished, self.count);
        Ok(())
    }

    fn cut(&mut self, n: usize) -> Result<(), Refusal> {
        self.check_shut()?;
        if n < self.count {
            self.keep(self.front(n), n);
        }
        Ok(())
    }

    fn count(&self) -> usize {
        self.count
    }

    fn empty(&mut self) {
        self.keep(0, 0);
    }
}
