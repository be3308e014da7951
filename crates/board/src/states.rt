// How all modules stand, when a build is over.
ghost use Rattle.std.specs.Prelude.{◌≡◌, ◌<◌, ◌≤◌, ◌^◌, [], ◌∷◌, ◌++◌, length, map, vec_capacity, IfOk};
ghost use Rattle.build_core.specs.Locks.{below};
ghost use Rattle.event_core.specs.HowFar.{state_of};
ghost use Rattle.event_core.specs.Standing.{standing_of};

use build_core::{Plan, State};
use event_core::Core;
use mvn_shared::{List, Mem};
use std::alloc::Global;
use std::marker::Model;

/// Room for so many states, which is reserved before a build begins. Project rule.
#[derive(Drop)]
pub(crate) struct StateRoom {
    states: Vec<State>,
}

impl Model for StateRoom {
    ghost use Rattle.std.specs.Prelude.{◌≡◌, ℕ, [], vec_capacity};

    ghost Value = { ℕ };

    ghost view = { λ room. vec_capacity room.states };

    ghost invariant = { λ room. room.states.items ≡ [] };
}

// A state more, where there is room.
fn push_state(states: &mut Vec<State>, state: State)
    requires { length states.old.items < vec_capacity states.old }
    ensures items { states.new.items ≡ states.old.items ++ state ∷ [] }
    ensures capacity { vec_capacity states.old ≤ vec_capacity states.new }
{
    let _pushed = states.push(state);
}

// How each of so many modules stands.
#[tactic(auto, using(crate::proofs::StateLists::states_more, crate::proofs::StateLists::count_more))]
fn fill(states: Vec<State>, core: &Core, count: u32) -> Vec<State>
    requires empty { states.items ≡ [] }
    requires room { count ≤ vec_capacity states }
    ensures { result.items ≡ map (λ number. state_of core.now.0
        (standing_of core.now.0 core.now.1).progress number) (below count) }
{
    let mut states = states;
    for number in 0..count {
        push_state(&mut states, core.state(number));
    }
    states
}

impl StateRoom {
    pub fn new(alloc: Global, count: usize) -> Mem<StateRoom>
        ensures { IfOk result (λ room. count ≤ room) }
    {
        Ok(StateRoom {
            states: Vec::with_capacity(alloc, count)?,
        })
    }

    // How each module of a plan stands. Takes no memory.
    pub fn states(self, core: &Core, plan: &Plan) -> List<State>
        requires room { length plan.now.modules ≤ self }
        requires few { length plan.now.modules < 2 ^ 32 }
        ensures { result ≡ map (λ number. state_of core.now.0
            (standing_of core.now.0 core.now.1).progress number)
            (below (length plan.now.modules)) }
    {
        let StateRoom { states } = self;
        List::of(fill(states, core, plan.modules.len() as u32))
    }
}
