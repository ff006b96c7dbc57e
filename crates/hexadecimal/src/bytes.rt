// Digits read back as bytes.
ghost use Rattle.std.specs.Prelude.{◌≡◌, ◌≢◌, ℕ, ◌<◌, ◌/◌, ◌%◌, IfSome, IfNone, IfOk, IfErr};
ghost use Rattle.std.specs.Char.{digit_char};
ghost use Rattle.hexadecimal.specs.declared.bytes.Fault.TheVariants.{NoMemory};
ghost use Rattle.hexadecimal.specs.Digits.{digits_of, OfBytes};

use std::alloc::{AllocError, Global};

// Why digits could not be read.
#[derive(Clone, Copy)]
pub enum Fault {
    NoMemory(AllocError),
    NotOfTheForm,
}

impl From<AllocError> for Fault {
    ghost from_gives = { λ error it. it ≡ NoMemory error };

    fn from(error: AllocError) -> Fault {
        Fault::NoMemory(error)
    }
}

// The inverse of `digit_char`, as its clause says. `to_digit` isn't: it takes capitals too.
fn value_of(digit: u8) -> Option<u8>
    ensures value { IfSome result (λ n. digit ≡ digit_char n) }
    ensures bound { IfSome result (λ n. n < 16) }
    ensures other { IfNone result ((n : ℕ) → n < 16 → digit ≢ digit_char n) }
{
    match digit {
        b'0'..=b'9' => Some(digit - b'0'),
        b'a'..=b'f' => Some(digit - b'a' + 10),
        _ => None,
    }
}

fn byte_of(high: u8, low: u8) -> Option<u8>
    ensures high { IfSome result (λ b. high ≡ digit_char (b / 16)) }
    ensures low { IfSome result (λ b. low ≡ digit_char (b % 16)) }
    ensures other { IfNone result ((b : ℕ) → b < 256 → high ≡ digit_char (b / 16) → low ≢ digit_char (b % 16)) }
{
    Some(value_of(high)? * 16 + value_of(low)?)
}

// The bytes that have these digits.
#[tactic(auto, using(crate::proofs::Behind::digits_read, crate::proofs::Behind::no_pair, crate::proofs::Behind::no_single))]
pub fn bytes_of(heap: Global, digits: &[u8]) -> Result<Vec<u8>, Fault>
    ensures bytes { IfOk result (λ bytes. digits.now ≡ digits_of bytes.items) }
    ensures none { IfErr result (λ fault. fault ≡ Fault.NotOfTheForm → ¬ (OfBytes digits.now)) }
{
    let mut bytes = Vec::new(heap);
    let mut rest = digits;
    while let [high, low, behind @ ..] = rest {
        let Some(byte) = byte_of(*high, *low) else {
            return Err(Fault::NotOfTheForm);
        };
        bytes.push(byte).map_err(AllocError::from)?;
        rest = behind;
    }
    if rest.is_empty() {
        Ok(bytes)
    } else {
        Err(Fault::NotOfTheForm)
    }
}
