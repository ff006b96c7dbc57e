// The steps of a sheet, each from one good state to another.
ghost use Rattle.std.specs.Prelude.{◌≡◌, ℕ, ◌+◌, ◌-◌, ◌<◌, ◌≤◌, ◌++◌, replicate, length, take, drop, Some, None, OnOk, IfOk};
ghost use Rattle.std.specs.List.{slice_get};
ghost use Rattle.std.specs.Result.{result_ok};
ghost use Rattle.sinks.specs.Sinks.{verdict, write_told, withdraw_told, cut_told, written, withdrawn};
ghost use Rattle.sheet.specs.Sheet.{rules_at};
ghost use Rattle.sheet.specs.State.{held, lasting, CanWrite};

use super::state::Sheet;
use text::Refusal;

// Zeros in a part of a buffer. The clauses say of `fill` what its three callers need, so that no caller proves it anew.
pub(crate) fn clear(bytes: &mut [u8], from: usize, to: usize)
    requires { (from ≤ to) × (to ≤ length bytes.old) }
    ensures front { take from bytes.new ≡ take from bytes.old }
    ensures zeros { drop from bytes.new ≡ replicate (to - from) 0 ++ drop to bytes.old }
    ensures behind { (n : ℕ) → to ≤ n → drop n bytes.new ≡ drop n bytes.old }
    ensures len { length bytes.new ≡ length bytes.old }
{
    bytes[from..to].fill(0);
}

// The clause `stays` compares a sink before and after a call, so no type can carry it.
impl<'a> Sheet<'a> {
    // The argument of a row.
    pub(crate) fn at_row(&self, n: usize) -> &[u8]
        requires { n < self.now.count }
        ensures { Some result.now ≡ slice_get (held self.now).list n }
    {
        let (offset, length) = self.pairs[n];
        let from = usize::from(offset);
        &self.bytes[from..from + usize::from(length)]
    }

    // The length of the open argument. Declines a call that asks for one where none is open.
    pub(crate) fn check_open(&self) -> Result<usize, Refusal>
        ensures answer { verdict result ≡ withdraw_told (held self.now) }
        ensures place { self.now.pending ≡ result_ok result }
    {
        self.pending.ok_or(Refusal::OutOfTurn)
    }

    // Declines a call that no open argument allows. The joined sink has the same lines, here and in `check_open`, over a field of its own:
    // one function over an Option would need a clause as long.
    pub(crate) fn check_shut(&self) -> Result<(), Refusal>
        ensures answer { verdict result ≡ cut_told (held self.now) }
        ensures shut { OnOk result (self.now.pending ≡ None) }
    {
        if self.pending.is_some() {
            return Err(Refusal::OutOfTurn);
        }
        Ok(())
    }

    // The length of the open argument. Declines bytes for which none is open or for which there is no space.
    pub(crate) fn check_write(&self, bytes: &[u8]) -> Result<usize, Refusal>
        ensures answer { verdict result ≡ write_told (rules_at self.now.limit (length self.now.pairs.now)) (held self.now) bytes.now }
        ensures can { IfOk result (λ len. CanWrite self.now len bytes.now) }
    {
        let len = self.check_open()?;
        if bytes.len() > self.limit - (self.finished + len) {
            return Err(Refusal::NoSpace);
        }
        Ok(len)
    }

    // Adds bytes to the open argument, which has this length.
    pub(crate) fn append(&mut self, len: usize, bytes: &[u8])
        requires { CanWrite self.old len bytes.now }
        ensures holds { held self.new ≡ written None bytes.now (held self.old) }
        ensures stays { lasting self.new ≡ lasting self.old }
    {
        let at = self.finished + len;
        self.bytes[at..at + bytes.len()].copy_from_slice(bytes);
        self.pending = Some(len + bytes.len());
    }

    // The offset and the length of the open argument. Both are proved to fit, so `try_from` would have an error that never comes.
    pub(crate) fn span(&self, len: usize) -> (u16, u16)
        requires { self.now.pending ≡ Some len }
        ensures { result ≡ (self.now.finished, len) }
    {
        (self.finished as u16, len as u16)
    }

    // Drops the open argument, if there is one.
    pub(crate) fn drop_open(&mut self)
        ensures holds { held self.new ≡ withdrawn (held self.old) }
        ensures stays { lasting self.new ≡ lasting self.old }
        ensures shut { self.new.pending ≡ None }
    {
        if let Some(len) = self.pending {
            clear(self.bytes, self.finished, self.finished + len);
            self.pending = None;
        }
    }

    // Drops all but the first n arguments.
    pub(crate) fn cut_to(&mut self, n: usize)
        requires { self.old.pending ≡ None }
        ensures holds { held self.new ≡ record { list = take n (held self.old).list; pending = None } }
        ensures stays { lasting self.new ≡ lasting self.old }
    {
        if n >= self.count {
            return;
        }
        let end = usize::from(self.pairs[n].0);
        clear(self.bytes, end, self.finished);
        self.pairs[n..self.count].fill((0, 0));
        self.count = n;
        self.finished = end;
    }
}
