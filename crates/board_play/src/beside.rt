// Whether another build left what it may, beside the build by one hand.
use crate::one_hand::Built;
use build_core::{Answered, Ending, Plan, PlanModule, State};
use mvn_shared::Bytes;
use test_projects::{Project, all_stand, are_whole};

// Whether a module ended by a fault or for want of memory.
fn is_fault(state: State) -> bool {
    match state {
        State::Ended(Ending::Fault(_)) | State::Ended(Ending::Memory) => true,
        _ => false,
    }
}

/// Whether any module ended by a fault or for want of memory.
pub fn has_fault(states: &[State]) -> bool {
    for state in states {
        if is_fault(*state) {
            return true;
        }
    }
    false
}

// Whether a module may stand otherwise than without faults: it ended by one, or was skipped for a module that stands otherwise.
fn may_differ(states: &[State], calm: &[State], state: State) -> bool {
    match state {
        State::Skipped(upstream) => states.get(upstream as usize) != calm.get(upstream as usize),
        other => is_fault(other),
    }
}

// Whether each module ended as without faults, but for those that may differ.
fn states_are_right(states: &[State], calm: &[State]) -> bool {
    for at in 0..states.len() {
        if at >= calm.len() {
            return false;
        }
        if states[at] != calm[at] && !may_differ(states, calm, states[at]) {
            return false;
        }
    }
    states.len() == calm.len()
}

// Whether a module that is built left its own files as without faults.
fn is_installed(module: &PlanModule, calm: &[Option<Bytes>], now: &[Option<Bytes>]) -> bool {
    for own in module.own.as_slice() {
        let at = own.file as usize;
        if calm.get(at) != now.get(at) {
            return false;
        }
    }
    true
}

// Whether each module that is built left its own files as without faults.
fn built_are_installed(
    plan: &Plan,
    states: &[State],
    calm: &[Option<Bytes>],
    now: &[Option<Bytes>],
) -> bool {
    let modules = plan.modules.as_slice();
    for at in 0..modules.len() {
        let built = states.get(at) == Some(&State::Ended(Ending::Built));
        if built && !is_installed(&modules[at], calm, now) {
            return false;
        }
    }
    true
}

// Whether each file is one from before or one that the build by one hand left.
fn files_are_whole(
    plan: &Plan,
    project: &Project,
    calm: &[Option<Bytes>],
    now: &[Option<Bytes>],
) -> bool {
    are_whole(plan.files.as_slice(), project.local.as_slice(), calm, now)
}

/// Whether a build without faults left what one hand leaves.
pub fn is_same(
    calm: &Built,
    states: &[State],
    answers: &[Answered],
    now: &[Option<Bytes>],
) -> bool {
    states == calm.states.as_slice()
        && now == calm.files.as_slice()
        && answers.len() == calm.answers.len()
        && all_stand(answers, calm.answers.as_slice())
}

/// Whether a build with faults left each file whole, and each module as without them that no fault touched.
pub fn is_untouched(
    plan: &Plan,
    project: &Project,
    calm: &Built,
    states: &[State],
    answers: &[Answered],
    now: &[Option<Bytes>],
) -> bool {
    states_are_right(states, calm.states.as_slice())
        && all_stand(answers, calm.answers.as_slice())
        && files_are_whole(plan, project, calm.files.as_slice(), now)
        && built_are_installed(plan, states, calm.files.as_slice(), now)
}
