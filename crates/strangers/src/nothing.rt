// A sink that takes nothing.
ghost use Rattle.std.specs.Prelude.{◌≡◌};
ghost use Rattle.sinks.specs.Sinks.{nothing};
ghost use Rattle.strangers.specs.Letters.{never};

use sinks::{Sink, Token};
use text::Refusal;

#[derive(Drop)]
pub struct TakesNothing;

impl Sink for TakesNothing {
    ghost Fixed = { Unit {0} };

    ghost fixed = { λ _. tt };

    ghost rules = { λ _. never };

    ghost means = { λ _. nothing };

    fn begin(&mut self) -> Result<Token, Refusal> {
        Err(Refusal::NoSpace)
    }

    fn write(&mut self, _bytes: &[u8]) -> Result<(), Refusal> {
        Err(Refusal::OutOfTurn)
    }

    fn finish(&mut self, token: Token) -> Result<(), Refusal> {
        token.spend();
        Err(Refusal::OutOfTurn)
    }

    fn withdraw(&mut self, token: Token) -> Result<(), Refusal> {
        token.spend();
        Err(Refusal::OutOfTurn)
    }

    fn cut(&mut self, _n: usize) -> Result<(), Refusal> {
        Ok(())
    }

    fn count(&self) -> usize {
        0
    }

    fn empty(&mut self) {}
}
