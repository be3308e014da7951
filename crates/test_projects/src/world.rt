// What goals answer, and which calls fail, made from a number.
use crate::draws::Draws;
use crate::faults::{Device, place};
use goal_types::GoalAnswer;
use mvn_shared::{Bytes, List, Mem, Text};
use std::alloc::Global;

/// The number that answers and failing calls are made from, and whether calls fail.
#[derive(Clone, Copy)]
pub struct World {
    pub seed: u32,
    pub faulty: bool,
}

// What a goal of a module produces.
fn output(alloc: Global, module: u32, goal: u32) -> Mem<Bytes> {
    let text = format!(in alloc; "{module} {goal}")?;
    Bytes::from_slice(alloc, text.as_bytes())
}

impl World {
    fn draws_for(&self, question: u32) -> Draws {
        Draws::new(self.seed.wrapping_mul(4096).wrapping_add(question))
    }

    // The numbers for a goal of a module.
    fn goal_draws(&self, module: u32, goal: u32) -> Draws {
        let place = (module % 16).wrapping_mul(16).wrapping_add(goal % 16);
        self.draws_for(place.wrapping_add(64))
    }

    /// What a goal of a module answers.
    pub fn answer(&self, alloc: Global, module: u32, goal: u32) -> Mem<GoalAnswer> {
        let mut draws = self.goal_draws(module, goal);
        if draws.one_in(48) {
            return Ok(GoalAnswer::Failed(Text::from_str(alloc, "no")?));
        }
        if draws.one_in(6) {
            return Ok(GoalAnswer::Done);
        }
        Ok(GoalAnswer::Produced(output(alloc, module, goal)?))
    }

    /// Whether a goal of a module can't be asked.
    pub fn gate_fails(&self, module: u32, goal: u32) -> bool {
        let mut draws = self.goal_draws(module, goal);
        self.faulty && draws.below(64) == 63
    }

    /// The numbers of an object's calls that fail: at most one.
    pub fn failing(&self, alloc: Global, device: Device) -> Mem<List<u64>> {
        let mut draws = self.draws_for(place(device));
        let mut list = List::new(alloc);
        if self.faulty && draws.one_in(3) {
            list.push(draws.below(40) as u64)?;
        }
        Ok(list)
    }
}
