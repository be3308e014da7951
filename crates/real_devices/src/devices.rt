// What a call of the program works with.
ghost use Rattle.std.specs.Prelude.{◌≡◌, length, map, replicate, IfOk};
ghost use Rattle.real_devices.specs.Gates.{gate_program, named_program};

use crate::hand_gates::RealGate;
use crate::hands::hands;
use mvn_devices::Devices;
use mvn_shared::{Mem, Text};
use outside_real::{RealRemote, RealShelf, RealSink, RealTree};
use std::collections::BTreeMap;
use std::os::fd::AsFd;
use std::process;
use std::process::ChildStdin;
use surroundings::{Places, named_places};

/// The types of the system's files, and of what runs the goals.
pub type RealOutside<'a> = (
    RealTree<'a, HostRuntime>,
    RealShelf<'a, HostRuntime>,
    RealRemote<'a, HostRuntime>,
    RealGate<'a>,
);

/// The project in the current folder, the local repository, and the hands.
pub type RealDevices<'a> = Devices<RealOutside<'a>>;

// The devices at these places.
fn devices_at<'a>(rt: &'a HostRuntime, places: &Places) -> Mem<RealDevices<'a>>
    ensures count { IfOk result (λ devices. length devices.hands.items ≡ 16) }
    ensures gates { IfOk result (λ devices. map (λ hand. gate_program hand.gate) devices.hands.items
        ≡ replicate 16 (named_program places.now.program)) }
{
    let folder = Text::from_str(rt.alloc(), ".")?;
    let repository = places.repository.clone()?;
    let hands = hands(rt, places)?;
    Ok(Devices {
        tree: RealTree::new(rt, folder),
        shelf: RealShelf::new(rt, repository),
        hands,
    })
}

/// The devices that these variables of the environment name, with 16 hands. Opens nothing. Costs a look at the
/// variables. Project rule.
pub fn named_devices<'a>(
    rt: &'a HostRuntime,
    variables: &BTreeMap<Text, Text>,
) -> Mem<RealDevices<'a>>
    ensures { IfOk result (λ devices. length devices.hands.items ≡ 16) }
{
    let number = process::id(rt.process());
    let places = named_places(rt, rt.alloc(), number, variables)?;
    devices_at(rt, &places)
}

/// Standard output, by a duplicate that is written without a signal where nobody reads: a closed pipe is then a fault.
/// Nothing if there is no duplicate.
pub fn standard_output(rt: &HostRuntime) -> Option<RealSink<ChildStdin>> {
    let Ok(out) = rt.stdout().as_fd().try_clone_to_owned() else {
        return None;
    };
    Some(RealSink::new(ChildStdin::from(out)))
}
