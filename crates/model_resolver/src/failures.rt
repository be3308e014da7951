//! `Failures`: how many calls of devices failed, and which device failed first.

ghost use Rattle.std.specs.Prelude.{◌≡◌, None};
ghost use Rattle.mvn_shared.specs.Cause.{HasRisen};
ghost use Rattle.model_resolver.specs.Noting.{first_noted};

/// A device that POMs are looked up in: the project's folder, the local repository, or a remote one.
#[derive(Clone, Copy)]
pub enum PomDevice {
    Tree,
    Shelf,
    Remote,
}

/// How many calls failed, and the device that failed first.
#[derive(Clone, Copy, Drop)]
pub struct Failures {
    pub count: u64,
    pub first: Option<PomDevice>,
}

impl Failures {
    /// No failures so far.
    pub fn none() -> Failures
        ensures { (result.count ≡ 0) × (result.first ≡ None) }
    {
        Failures {
            count: 0,
            first: None,
        }
    }

    /// Counts a failure of a device.
    pub fn note(&mut self, device: PomDevice)
        ensures count { HasRisen self.old.count self.new.count }
        ensures first { self.new.first ≡ first_noted device self.old.first }
    {
        self.count = self.count.saturating_add(1);
        if self.first.is_none() {
            self.first = Some(device);
        }
    }
}
