// What a call sees of all that it works with.
use crew_turns::Worker;
use mvn_devices::{Devices, HandOf, Outside};

/// What a call sees of an object.
pub trait Sees {
    ghost use Rattle.mvn_base.specs.declared.machine.Machine.{Machine};
    ghost use Rattle.call_plan.specs.Seen.{After, Seen};

    /// Before a call on this machine: what the project's folder, the repository and each hand show, and what the
    /// machine is.
    ghost seen: { Self → Machine → Seen };

    /// After a call: how often the project's folder failed, and what the repository and each hand show.
    ghost after: { Self → After };
}

impl<O: Outside> Sees for Devices<O> {
    ghost use Rattle.call_plan.specs.Seen.{after_by, seen_by};

    ghost seen = { λ devices machine. seen_by O.Tree.files O.Tree.faults O.Shelf.told O.Shelf.faults
        ⟦<HandOf<O> as Worker>⟧.state devices.tree devices.shelf devices.hands.items machine };

    ghost after = { λ devices. after_by O.Tree.faults O.Shelf.told O.Shelf.faults
        ⟦<HandOf<O> as Worker>⟧.state devices.tree devices.shelf devices.hands.items };
}
