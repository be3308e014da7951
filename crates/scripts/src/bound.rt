// How many events a build has at most.
ghost use Rattle.std.specs.Prelude.{◌≡◌, ◌<◌, ◌^◌, nat_le};
ghost use Rattle.scripts.specs.Bounds.{install_events, module_events, most_events};

use crate::outline::{ModuleOutline, Outline};

fn install_events(plan: &ModuleOutline) -> u128
    ensures events { result ≡ install_events plan.now }
    ensures small { result < 2 ^ 66 }
{
    if plan.installs {
        2 + plan.own.len() as u128
    } else {
        0
    }
}

#[tactic(auto, using(crate::proofs::Most::module_has))]
fn module_events(plan: &ModuleOutline) -> u128
    ensures events { result ≡ module_events plan.now }
    ensures small { result < 2 ^ 70 }
{
    let names = 4 * plan.batch.len() as u128;
    let files = plan.fetch.len() as u128 + plan.reads.len() as u128;
    2 + names + files + plan.goals as u128 + install_events(plan)
}

impl Outline {
    /// Whether the number of events that it states is enough for any run. Costs the number of modules.
    pub fn has_room(&self) -> bool
        ensures { result ≡ nat_le (most_events self.now) self.now.events }
    {
        let events = self.events as u128;
        let mut total = 0u128;
        for at in 0..self.modules.len() {
            total += module_events(&self.modules.as_slice()[at]);
            if total > events {
                return false;
            }
        }
        true
    }
}
