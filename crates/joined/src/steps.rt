// The steps of a joined sink, each from one good state to another, and what has to be checked before each.
ghost use Rattle.std.specs.Prelude.{◌≡◌, suc, ◌+◌, ◌<◌, ◌≤◌, cond, length, take, Some, None, ◌==◌, slice_set, IfOk, OnOk};
ghost use Rattle.text.specs.Arguments.{separator, arguments};
ghost use Rattle.std.specs.Option.{option_map};
ghost use Rattle.sinks.specs.Sinks.{verdict, refusal, begin_told, write_told, finish_told, withdraw_told, cut_told, begun, written};
ghost use Rattle.joined.specs.Joined.{rules_at};
ghost use Rattle.joined.specs.Parts.{bytes_bar, Text, Front};
ghost use Rattle.joined.specs.State.{held, size, lasting, CanBegin, CanWrite, CanFinish};

use super::state::Joined;
use text::{Refusal, SEPARATOR, contains, rfind};

// Writes a separator behind a text, unless that is empty. Answers where the next argument starts.
fn separate(bytes: &mut [u8], end: usize) -> usize
    requires { 0 < end → end < length bytes.old }
    ensures text { bytes.new ≡ cond (end == 0) bytes.old (slice_set bytes.old end separator) }
    ensures place { result ≡ cond (end == 0) 0 (end + 1) }
{
    if end == 0 {
        return 0;
    }
    bytes[end] = SEPARATOR;
    end + 1
}

// The bytes that a space has, and the one right behind it.
fn near(bytes: &[u8], left: usize) -> &[u8]
    ensures { result.now ≡ take (suc left) bytes.now }
{
    bytes.get(..=left).unwrap_or(bytes)
}

// Declines bytes of which one does not go in, with space for so many. A separator right behind the space is told as one,
// and what is behind that is not looked at: it may be long.
#[tactic(auto, using(crate::proofs::Texts::near_holds, crate::proofs::Texts::near_passes, crate::proofs::Texts::near_fits))]
fn check_bytes(bytes: &[u8], left: usize) -> Result<(), Refusal>
    ensures { verdict result ≡ option_map refusal (bytes_bar left bytes.now) }
{
    if contains(near(bytes, left), SEPARATOR) {
        return Err(Refusal::CannotCarry);
    }
    if bytes.len() > left {
        return Err(Refusal::NoSpace);
    }
    Ok(())
}

// The clause `stays` compares a sink before and after a call, so no type can carry it.
impl<'a> Joined<'a> {
    // Where the open argument starts. Declines a call that asks for one where none is open.
    pub(crate) fn check_open(&self) -> Result<usize, Refusal>
        ensures answer { verdict result ≡ withdraw_told (held self.now) }
        ensures place { IfOk result (λ at. self.now.start ≡ Some at) }
    {
        self.start.ok_or(Refusal::OutOfTurn)
    }

    // Declines a call that no open argument allows. The sheet has the same lines, here and in `check_open`, over a field of its own:
    // one function over an Option would need a clause as long.
    pub(crate) fn check_shut(&self) -> Result<(), Refusal>
        ensures answer { verdict result ≡ cut_told (held self.now) }
        ensures shut { OnOk result (self.now.start ≡ None) }
    {
        if self.start.is_some() {
            return Err(Refusal::OutOfTurn);
        }
        Ok(())
    }

    // Declines one more argument where one is open, or where no space is left for its separator.
    #[tactic(auto, using(crate::proofs::States::room_told))]
    pub(crate) fn check_begin(&self) -> Result<(), Refusal>
        ensures answer { verdict result ≡ begin_told (rules_at (size self.now)) (held self.now) }
        ensures can { OnOk result (CanBegin self.now) }
    {
        self.check_shut()?;
        if self.finished > 0 && self.finished == self.buffer.len() {
            return Err(Refusal::NoSpace);
        }
        Ok(())
    }

    // Opens an argument: the first, or one behind others and a separator.
    pub(crate) fn open_argument(&mut self)
        requires { CanBegin self.old }
        ensures holds { held self.new ≡ begun None (held self.old) }
        ensures stays { lasting self.new ≡ lasting self.old }
    {
        let at = separate(self.buffer, self.finished);
        self.start = Some(at);
        self.used = at;
    }

    // Declines bytes of which one does not go into the open argument.
    pub(crate) fn check_write(&self, bytes: &[u8]) -> Result<(), Refusal>
        ensures answer { verdict result ≡ write_told (rules_at (size self.now)) (held self.now) bytes.now }
        ensures can { OnOk result (CanWrite self.now bytes.now) }
    {
        self.check_open()?;
        check_bytes(bytes, self.buffer.len() - self.used)
    }

    // Adds bytes to the open argument.
    pub(crate) fn append(&mut self, bytes: &[u8])
        requires { CanWrite self.old bytes.now }
        ensures holds { held self.new ≡ written None bytes.now (held self.old) }
        ensures stays { lasting self.new ≡ lasting self.old }
    {
        let end = self.used + bytes.len();
        self.buffer[self.used..end].copy_from_slice(bytes);
        self.used = end;
    }

    // Declines the end of an argument where none is open, or where it is an empty first one.
    pub(crate) fn check_finish(&self) -> Result<(), Refusal>
        ensures answer { verdict result ≡ finish_told (rules_at (size self.now)) (held self.now) }
        ensures can { OnOk result (CanFinish self.now) }
    {
        self.check_open()?;
        if self.used == 0 {
            return Err(Refusal::CannotCarry);
        }
        Ok(())
    }

    // Where the text of the first n arguments ends: back over the others from the end, to the separator before each.
    // The first argument has none before it.
    #[tactic(auto, using(crate::proofs::Fronts::walked_back))]
    pub(crate) fn front(&self, n: usize) -> usize
        requires { n < self.now.count }
        ensures { Front self.now.buffer.now self.now.finished n result }
    {
        let mut at = self.finished;
        for _ in n..self.count {
            at = rfind(&self.buffer[..at], SEPARATOR).unwrap_or(0);
        }
        at
    }

    // Keeps so many arguments, whose text ends at a place, and drops what is behind it.
    #[tactic(auto, using(crate::proofs::States::kept))]
    pub(crate) fn keep(&mut self, end: usize, count: usize)
        requires { (end ≤ self.old.used) × Text self.old.buffer.now end count }
        ensures holds { held self.new ≡ record { list = arguments (take end self.old.buffer.now); pending = None } }
        ensures stays { lasting self.new ≡ lasting self.old }
    {
        self.buffer[end..self.used].fill(0);
        self.count = count;
        self.finished = end;
        self.start = None;
        self.used = end;
    }
}
