//! The trait of streams that are read.

ghost use Rattle.std.specs.Prelude.{◌≡◌, ◌≤◌, ℕ, Bool, true, List, Option, length, drop, option_map, is_err, IfOk, IfSome, OnErr};
ghost use Rattle.mvn_shared.specs.Cause.{HasCause};
ghost use Rattle.children.specs.Reading.{IsFront};

use crate::fault::Failed;

/// A stream of bytes that is read to its end, such as standard input.
pub trait Source {
    /// The bytes that are left to read, where it tells them.
    ghost left: { Self → Option (List ℕ) };

    /// The faults so far. The count never falls.
    ghost faults: { Self → ℕ };

    /// Whether no call fails. The count of faults is then the constant 0.
    ghost never_fails: { Self → Bool };

    /// Reads bytes from the front of what is left, and says how many. Into a slice that isn't empty it reads none exactly
    /// at the end.
    fn read(&mut self, into: &mut [u8]) -> Result<usize, Failed>
        ensures within { IfOk result (λ count. count ≤ length into.new) }
        ensures front { IfSome (left self.old)
            (λ rest. IfOk result (λ count. IsFront rest into.new count)) }
        ensures rest { IfOk result
            (λ count. left self.new ≡ option_map (drop count) (left self.old)) }
        ensures err { OnErr result (left self.new ≡ left self.old) }
        ensures never { never_fails self.new ≡ never_fails self.old }
        ensures cause { HasCause (faults self.old) (faults self.new) (is_err result) };

    /// Where no call fails, there is no fault.
    ghost no_faults: { (source : Self) → never_fails source ≡ true → faults source ≡ 0 };
}
