//! `Sink`: a device that text is written to, and the writing of a whole text.

ghost use Rattle.std.specs.Prelude.{◌≡◌, ◌<◌, ◌≤◌, ℕ, Bool, true, List, Option, length, take, IfOk, OnOk, OnErr};
ghost use Rattle.mvn_shared.specs.Cause.{HasCause};
ghost use Rattle.mvn_shared.specs.Told.{gains, IsCut};
ghost use Rattle.mvn_outside.specs.Faults.{device_failed};

use crate::fault::DeviceFault;

/// Where the report goes.
pub trait Sink {
    /// What was written so far, where it tells it.
    ghost written: { Self → Option (List ℕ) };

    /// The faults so far. The count never falls.
    ghost faults: { Self → ℕ };

    /// Whether no call fails. The count of faults is then the constant 0.
    ghost never_fails: { Self → Bool };

    /// Writes a part from the front of the bytes, at least one byte where there is one, and says how many it took.
    fn write(&mut self, bytes: &[u8]) -> Result<usize, DeviceFault>
        ensures within { IfOk result (λ count. count ≤ length bytes.now) }
        ensures progress { IfOk result (λ count. 0 < length bytes.now → 0 < count) }
        ensures takes { IfOk result (λ count.
            written self.new ≡ gains (written self.old) (take count bytes.now)) }
        ensures err { OnErr result (written self.new ≡ written self.old) }
        ensures never { never_fails self.new ≡ never_fails self.old }
        ensures cause { HasCause (faults self.old) (faults self.new) (device_failed result) };

    /// Where no call fails, there is no fault.
    ghost no_faults: { (sink : Self) → never_fails sink ≡ true → faults sink ≡ 0 };
}

/// Writes all of a text. After an `Err`, a part from its front is written. Costs what the sink's writes cost.
pub fn write_all<O: Sink>(out: &mut O, text: &[u8]) -> Result<(), DeviceFault>
    ensures ok { OnOk result (O.written out.new ≡ gains (O.written out.old) text.now) }
    ensures err { OnErr result (IsCut text.now (O.written out.old) (O.written out.new)) }
    ensures never { O.never_fails out.new ≡ O.never_fails out.old }
    ensures cause { HasCause (O.faults out.old) (O.faults out.new) (device_failed result) }
{
    let mut done = 0;
    while done < text.len() {
        done += out.write(&text[done..])?;
    }
    Ok(())
}
