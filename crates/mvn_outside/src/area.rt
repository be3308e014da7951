//! `Area`: a worker's staging area, whose pieces are open, then sealed, then gone.

ghost use Rattle.std.specs.Prelude.{◌≡◌, ◌<◌, ◌≤◌, ℕ, Bool, true, false, List, [], Option, None, Some, is_some, IsTrue, length, take, IfOk, OnOk, OnErr};
ghost use Rattle.std.specs.FinMap as map;
ghost use Rattle.mvn_shared.specs.Cause.{HasCause};
ghost use Rattle.mvn_outside.specs.Faults.{device_failed};
ghost use Rattle.mvn_outside.specs.Pieces.{Pieces, Contents, begun, extended, removed, emptied};

use crate::fault::DeviceFault;

/// One worker's staging: pieces that are written, sealed and then published. A piece is open, then sealed, then gone.
pub trait Area {
    /// The pieces that are there, and whether each is sealed. Every area tells them.
    ghost pieces: { Self → Pieces };

    /// Their bytes, where it tells them.
    ghost contents: { Self → Option Contents };

    /// The faults so far. The count never falls.
    ghost faults: { Self → ℕ };

    /// Whether no call fails. The count of faults is then the constant 0.
    ghost never_fails: { Self → Bool };

    /// A new open piece without bytes.
    fn begin(&mut self) -> Result<u64, DeviceFault>
        ensures fresh { IfOk result (λ piece. map.get (pieces self.old) piece ≡ None) }
        ensures open { IfOk result (λ piece.
            pieces self.new ≡ map.insert (pieces self.old) piece false) }
        ensures empty { IfOk result (λ piece. contents self.new ≡ begun (contents self.old) piece) }
        ensures err { OnErr result ((pieces self.new ≡ pieces self.old) ×
            (contents self.new ≡ contents self.old)) }
        ensures never { never_fails self.new ≡ never_fails self.old }
        ensures cause { HasCause (faults self.old) (faults self.new) (device_failed result) };

    /// Adds a part from the front of the bytes to an open piece, at least one byte where there is one, and says how
    /// many it took.
    fn append(&mut self, piece: u64, bytes: &[u8]) -> Result<usize, DeviceFault>
        requires { map.get (pieces self.old) piece ≡ Some false }
        ensures within { IfOk result (λ count. count ≤ length bytes.now) }
        ensures progress { IfOk result (λ count. 0 < length bytes.now → 0 < count) }
        ensures takes { IfOk result (λ count.
            contents self.new ≡ extended (contents self.old) piece (take count bytes.now)) }
        ensures pieces { pieces self.new ≡ pieces self.old }
        ensures err { OnErr result (contents self.new ≡ contents self.old) }
        ensures never { never_fails self.new ≡ never_fails self.old }
        ensures cause { HasCause (faults self.old) (faults self.new) (device_failed result) };

    /// Seals an open piece: its bytes are then whole, and stay.
    fn seal(&mut self, piece: u64) -> Result<(), DeviceFault>
        requires { map.get (pieces self.old) piece ≡ Some false }
        ensures ok { OnOk result (pieces self.new ≡ map.insert (pieces self.old) piece true) }
        ensures err { OnErr result (pieces self.new ≡ pieces self.old) }
        ensures contents { contents self.new ≡ contents self.old }
        ensures never { never_fails self.new ≡ never_fails self.old }
        ensures cause { HasCause (faults self.old) (faults self.new) (device_failed result) };

    /// Removes a piece.
    fn discard(&mut self, piece: u64) -> Result<(), DeviceFault>
        requires { IsTrue (is_some (map.get (pieces self.old) piece)) }
        ensures ok { OnOk result ((pieces self.new ≡ map.remove (pieces self.old) piece) ×
            (contents self.new ≡ removed (contents self.old) piece)) }
        ensures err { OnErr result ((pieces self.new ≡ pieces self.old) ×
            (contents self.new ≡ contents self.old)) }
        ensures never { never_fails self.new ≡ never_fails self.old }
        ensures cause { HasCause (faults self.old) (faults self.new) (device_failed result) };

    /// Removes all pieces, leftovers of a stopped run among them. After an `Err` some may be gone.
    fn sweep(&mut self) -> Result<(), DeviceFault>
        ensures ok { OnOk result ((pieces self.new ≡ map.empty) ×
            (contents self.new ≡ emptied (contents self.old))) }
        ensures same { is_some (contents self.new) ≡ is_some (contents self.old) }
        ensures never { never_fails self.new ≡ never_fails self.old }
        ensures cause { HasCause (faults self.old) (faults self.new) (device_failed result) };

    /// Where no call fails, there is no fault.
    ghost no_faults: { (area : Self) → never_fails area ≡ true → faults area ≡ 0 };
}
