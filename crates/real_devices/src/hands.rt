// What the workers work with.
ghost use Rattle.std.specs.Prelude.{◌≡◌, length, map, replicate, IfOk};
ghost use Rattle.real_devices.specs.Gates.{named_program, gate_program};

use crate::hand_gates::{RealGate, gate};
use mvn_outside::Hand;
use mvn_shared::{Mem, Text};
use outside_real::{RealArea, RealRemote};
use surroundings::Places;

/// How many hands there are at most.
const HANDS: usize = 16;

/// What one worker works with here.
pub type RealHand<'a> = Hand<RealRemote<'a, HostRuntime>, RealArea<'a, HostRuntime>, RealGate<'a>>;

// The hand with this number: the remote, its own staging folder in the repository, and what runs the goals.
fn hand<'a>(rt: &'a HostRuntime, places: &Places, number: usize) -> Mem<RealHand<'a>>
    ensures { IfOk result (λ hand.
        gate_program hand.gate ≡ named_program places.now.program) }
{
    let alloc = rt.alloc();
    let repository = &places.repository;
    let staging = format!(in alloc; "{repository}/.staging/{number}")?;
    Ok(Hand {
        remote: RealRemote::new(rt, places.remote.clone()?),
        area: RealArea::new(rt, Text::of(staging), places.process.clone()?),
        gate: gate(rt, &places.program)?,
    })
}

/// The hands, all of which run the goals alike.
pub(crate) fn hands<'a>(rt: &'a HostRuntime, places: &Places) -> Mem<Vec<RealHand<'a>>>
    ensures count { IfOk result (λ hands. length hands.items ≡ 16) }
    ensures gates { IfOk result (λ hands. map (λ hand. gate_program hand.gate) hands.items
        ≡ replicate 16 (named_program places.now.program)) }
{
    let alloc = rt.alloc();
    let mut hands = Vec::with_capacity(alloc, HANDS)?;
    for i in 0..HANDS {
        hands.push(hand(rt, places, i)?)?;
    }
    Ok(hands)
}
