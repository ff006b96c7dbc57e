// The sheet as a sink.
ghost use Rattle.std.specs.Prelude.{◌≡◌, length, drop};
ghost use Rattle.std.specs.List.{slice_get};
ghost use Rattle.std.specs.Option.{option_map};
ghost use Rattle.sinks.specs.Sinks.{nothing};
ghost use Rattle.sheet.specs.Sheet.{limit_of, rules_at, places, content, filled, filled_rows};
ghost use Rattle.sheet.specs.State.{held, beyond, Lasting, lasting};

use super::state::Sheet;
use super::steps::clear;
use sinks::{Sink, Token};
use text::{LONGEST_TEXT, Refusal};

impl<'a> Sheet<'a> {
    // An empty sheet over a buffer and a table, which it fills with zeros: of the buffer no more than its first 65,535 bytes.
    pub fn new(bytes: &'a mut [u8], pairs: &'a mut [(u16, u16)]) -> Sheet<'a>
        ensures holds { held result ≡ nothing }
        ensures lends { lasting result ≡ record { limit = limit_of (length bytes.old); rows = length pairs.old; past = drop (limit_of (length bytes.old)) bytes.old; buffer = bytes.entry.ghost_name; table = pairs.entry.ghost_name } }
    {
        let limit = bytes.len().min(LONGEST_TEXT);
        clear(bytes, 0, limit);
        pairs.fill((0, 0));
        Sheet {
            bytes,
            pairs,
            limit,
            count: 0,
            finished: 0,
            pending: None,
        }
    }

    // The argument with a number, from 0 on.
    pub fn argument(&self, n: usize) -> Option<&[u8]>
        ensures { option_map (λ x. x.now) result ≡ slice_get (held self.now).list n }
    {
        if n >= self.count {
            return None;
        }
        Some(self.at_row(n))
    }

    // All of the buffer: the arguments back to back, zeros up to the limit, and what stands past it.
    pub fn bytes(&self) -> &[u8]
        ensures lends { result.now ≡ self.now.bytes.now }
        ensures every_byte { self.now.bytes.now ≡ filled self.now.limit (content (held self.now)) (beyond self.now) }
    {
        &self.bytes[..]
    }

    // All of the table: the offset and the length of each argument, and zeros behind them.
    pub fn pairs(&self) -> &[(u16, u16)]
        ensures lends { result.now ≡ self.now.pairs.now }
        ensures every_pair { self.now.pairs.now ≡ filled_rows (length self.now.pairs.now) (places 0 (held self.now).list) }
    {
        &self.pairs[..]
    }
}

impl<'a> Sink for Sheet<'a> {
    ghost Fixed = { Lasting };

    ghost fixed = { lasting };

    ghost rules = { λ f. rules_at f.limit f.rows };

    ghost means = { held };

    fn begin(&mut self) -> Result<Token, Refusal> {
        self.check_shut()?;
        if self.count == self.pairs.len() {
            return Err(Refusal::NoSpace);
        }
        self.pending = Some(0);
        Ok(Token::issue())
    }

    fn write(&mut self, bytes: &[u8]) -> Result<(), Refusal> {
        let len = self.check_write(bytes)?;
        self.append(len, bytes);
        Ok(())
    }

    fn finish(&mut self, token: Token) -> Result<(), Refusal> {
        token.spend();
        let len = self.check_open()?;
        self.pairs[self.count] = self.span(len);
        self.count += 1;
        self.finished += len;
        self.pending = None;
        Ok(())
    }

    fn withdraw(&mut self, token: Token) -> Result<(), Refusal> {
        token.spend();
        self.check_open()?;
        self.drop_open();
        Ok(())
    }

    fn cut(&mut self, n: usize) -> Result<(), Refusal> {
        self.check_shut()?;
        self.cut_to(n);
        Ok(())
    }

    #[tactic(auto, using(crate::proofs::States::number_is))]
    fn count(&self) -> usize {
        self.count
    }

    fn empty(&mut self) {
        self.drop_open();
        self.cut_to(0);
    }
}
