// A sink for arguments of one byte each.
ghost use Rattle.std.specs.Prelude.{◌≡◌, ℕ, ◌<◌, ◌≤◌, [], map, true, None, IsSome, IfOk, vec_len, vec_capacity};
ghost use Rattle.std.specs.Option.{option_map, option_to_list};
ghost use Rattle.strangers.specs.Letters.{letter, rules_at};

use sinks::{Sink, Token};
use std::alloc::{AllocError, Global};
use text::Refusal;

#[derive(Drop)]
pub struct Letters {
    letters: Vec<u8>,
    // the open argument, which has a byte or has none yet
    pending: Option<Option<u8>>,
    ghost space: { IsSome pending → vec_len letters < vec_capacity letters },
}

impl Letters {
    // An empty sink with space for so many letters, or some more.
    pub fn new(heap: Global, space: usize) -> Result<Letters, AllocError>
        ensures empty { IfOk result (λ s. (s.letters.items ≡ []) × (s.pending ≡ None)) }
        ensures room { IfOk result (λ s. space ≤ vec_capacity s.letters) }
    {
        let letters = Vec::with_capacity(heap, space)?;
        Ok(Letters {
            letters,
            pending: None,
        })
    }
}

impl Sink for Letters {
    ghost Fixed = { ℕ };

    ghost fixed = { λ s. vec_capacity s.letters };

    ghost rules = { rules_at };

    ghost means = { λ s. record { list = map letter s.letters.items; pending = option_map option_to_list s.pending } };

    fn begin(&mut self) -> Result<Token, Refusal> {
        if self.pending.is_some() {
            return Err(Refusal::OutOfTurn);
        }
        if self.letters.len() >= self.letters.capacity() {
            return Err(Refusal::NoSpace);
        }
        self.pending = Some(None);
        Ok(Token::issue())
    }

    fn write(&mut self, bytes: &[u8]) -> Result<(), Refusal> {
        let byte = self.pending.ok_or(Refusal::OutOfTurn)?;
        match (byte, bytes) {
            (_, []) => Ok(()),
            (None, [first]) => {
                self.pending = Some(Some(*first));
                Ok(())
            }
            _ => Err(Refusal::CannotCarry),
        }
    }

    fn finish(&mut self, token: Token) -> Result<(), Refusal> {
        token.spend();
        let open = self.pending.take().ok_or(Refusal::OutOfTurn)?;
        let byte = open.ok_or(Refusal::CannotCarry)?;
        self.letters.push_reserved(byte);
        Ok(())
    }

    fn withdraw(&mut self, token: Token) -> Result<(), Refusal> {
        token.spend();
        self.pending.take().ok_or(Refusal::OutOfTurn)?;
        Ok(())
    }

    fn cut(&mut self, n: usize) -> Result<(), Refusal> {
        if self.pending.is_some() {
            return Err(Refusal::OutOfTurn);
        }
        self.letters.truncate(n);
        Ok(())
    }

    fn count(&self) -> usize {
        self.letters.len()
    }

    fn empty(&mut self) {
        self.pending = None;
        self.letters.clear();
    }
}
