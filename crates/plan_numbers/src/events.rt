// How many events a plan has at most.
ghost use Rattle.std.specs.Prelude.{◌≡◌, ◌<◌, ◌^◌};
ghost use Rattle.module_plan.specs.Ready.{all_ready_events, ready_events};
ghost use Rattle.plan_numbers.specs.Whole.{counted};

use module_plan::Ready;

/// The most events that a plan may have. Project rule.
const MOST_EVENTS: u128 = 4_194_304;

// The greatest number of events of a module.
fn events_of(ready: &Ready) -> u128
    ensures events { result ≡ ready_events ready.now }
    ensures small { result < 2 ^ 70 }
{
    let names = 4 * ready.locks.len() as u128;
    let files = 2 * ready.fetch.len() as u128 + 2 * ready.outputs.len() as u128;
    6 + names + files + ready.goals.calls.len() as u128
}

/// The greatest number of events of all modules, if a plan may have so many. Costs the number of modules.
#[tactic(auto, using(crate::proofs::Counting::not_too_many, crate::proofs::Counting::are_too_many))]
pub(crate) fn count_events(modules: &[Ready]) -> Option<u64>
    ensures { result ≡ counted (all_ready_events modules.now) }
{
    let mut total = 0u128;
    for at in 0..modules.len() {
        total += events_of(&modules[at]);
        if total > MOST_EVENTS {
            return None;
        }
    }
    Some(total as u64)
}
