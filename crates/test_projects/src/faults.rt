// Which calls of the objects fail.
use crate::draws::Draws;
use mvn_shared::{List, Mem};
use std::alloc::Global;

/// An object of which calls may fail: the local repository, or a hand's remote repository, staging area or goals.
#[derive(Clone, Copy)]
pub enum Device {
    Shelf,
    Remote(u32),
    Area(u32),
    Gate(u32),
}

/// The number that the failing calls are made from, or no failing calls.
pub type Faults = Option<u32>;

/// A number for each object.
pub(crate) fn place(device: Device) -> u32 {
    match device {
        Device::Shelf => 0,
        Device::Remote(hand) => (hand % 16).wrapping_add(1),
        Device::Area(hand) => (hand % 16).wrapping_add(17),
        Device::Gate(hand) => (hand % 16).wrapping_add(33),
    }
}

// One of the first calls, of one of three repositories and of one of six other objects.
fn drawn(device: Device, draws: &mut Draws) -> Option<u64> {
    let (one_of, calls) = match device {
        Device::Shelf => (3, 400),
        _ => (6, 40),
    };
    if draws.one_in(one_of) {
        Some(draws.below(calls) as u64)
    } else {
        None
    }
}

/// The numbers of the object's calls that fail.
pub fn calls(alloc: Global, faults: Faults, device: Device) -> Mem<List<u64>> {
    let mut list = List::new(alloc);
    if let Some(seed) = faults {
        let mut draws = Draws::new(seed.wrapping_mul(64).wrapping_add(place(device)));
        if let Some(call) = drawn(device, &mut draws) {
            list.push(call)?;
        }
    }
    Ok(list)
}
