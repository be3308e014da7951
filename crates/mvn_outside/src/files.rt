//! `Files`: a device that says whether a file is there.

ghost use Rattle.std.specs.Prelude.{◌≡◌, ℕ, Bool, true, List, IfOk};
ghost use Rattle.mvn_shared.specs.Cause.{HasCause};
ghost use Rattle.mvn_outside.specs.Faults.{device_failed};

use crate::fault::DeviceFault;
use mvn_shared::Text;

/// What may say whether a file is there, and may fail. It may tell what it answers: memory does, a disk doesn't.
pub trait Files {
    /// The answers that agree with all that it tells: `world` says at which paths there is a file, or a folder with
    /// files. Memory fits one; a disk tells nothing, so none fits.
    ghost fits: { Self → (List ℕ → Bool) → Type 0 };

    /// The faults so far. The count never falls.
    ghost faults: { Self → ℕ };

    /// Whether no call fails. The count of faults is then the constant 0.
    ghost never_fails: { Self → Bool };

    /// The second tells what the first did.
    ghost tells_same: { Self → Self → Type 0 };

    /// Whether a file stands at a path, or below it.
    fn has(&mut self, path: &Text) -> Result<bool, DeviceFault>
        ensures tells { (world : List ℕ → Bool) → fits self.old world
            → IfOk result (λ found. found ≡ world path.now) }
        ensures fit { (world : List ℕ → Bool) → fits self.old world → fits self.new world }
        ensures same { tells_same self.old self.new }
        ensures never { never_fails self.new ≡ never_fails self.old }
        ensures cause { HasCause (faults self.old) (faults self.new) (device_failed result) };

    /// Where no call fails, there is no fault.
    ghost no_faults: { (files : Self) → never_fails files ≡ true → faults files ≡ 0 };
}
