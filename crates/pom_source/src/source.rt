//! `PomSource`: the trait by which POMs are looked up, by path and by coordinates.

ghost use Rattle.std.specs.Prelude.{◌≡◌, IfOk};
ghost use Rattle.mvn_shared.specs.Cause.{HasCause};
ghost use Rattle.mvn_outside.specs.Faults.{device_failed};
ghost use Rattle.pom_source.specs.Worlds.{World};

use crate::found::Found;
use mvn_base::Gav;
use mvn_outside::{DeviceFault, Files};
use mvn_shared::{Bytes, Text};

/// Where POMs are looked up: by a path of the project, and by coordinates. It may tell what it holds.
pub trait PomSource: Files {
    /// The worlds that agree with all that it tells. Memory fits one; a disk tells nothing, so none fits; a list of
    /// answers fits each world that has them.
    ghost fits_poms: { Self → World → Type 0 };

    /// The POM at a path of the project, or none if no file is there. A text that is longer than a POM's may be is
    /// refused anyway, so a source may cut it one byte after that limit.
    fn by_path(&mut self, path: &Text) -> Result<Option<Bytes>, DeviceFault>
        ensures tells { (world : World) → fits_poms self.old world
            → IfOk result (λ found. found ≡ world.by_path path.now) }
        ensures fit { (world : World) → fits_poms self.old world → fits_poms self.new world }
        ensures same { Self.tells_same self.old self.new }
        ensures never { Self.never_fails self.new ≡ Self.never_fails self.old }
        ensures cause { HasCause (Self.faults self.old) (Self.faults self.new)
            (device_failed result) };

    /// The POM of coordinates, or none: one of the project first, and else one of a repository.
    fn by_gav(&mut self, gav: &Gav) -> Result<Option<Found>, DeviceFault>
        ensures tells { (world : World) → fits_poms self.old world
            → IfOk result (λ found. found ≡ world.by_gav gav.now) }
        ensures fit { (world : World) → fits_poms self.old world → fits_poms self.new world }
        ensures same { Self.tells_same self.old self.new }
        ensures never { Self.never_fails self.new ≡ Self.never_fails self.old }
        ensures cause { HasCause (Self.faults self.old) (Self.faults self.new)
            (device_failed result) };

    /// A world that it fits says which files are there.
    ghost files_fit: { (source : Self) (world : World) → fits_poms source world
        → Self.fits source world.there };

    /// What tells the same fits the same worlds.
    ghost fits_on: { (before now : Self) (world : World) → Self.tells_same before now
        → fits_poms before world → fits_poms now world };
}
