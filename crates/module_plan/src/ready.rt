// A module with what its numbers are made from.
ghost use Rattle.std.specs.Prelude.{◌≡◌, map, IfOk};
ghost use Rattle.mvn_base.specs.FileName.{IsValid};
ghost use Rattle.module_plan.specs.Ready.{ready};

use crate::{Output, Places, SelectedModule, fetched_files, fetched_locks, outputs};
use lifecycle::{GoalList, goals};
use mvn_base::{FileName, Gav, Phase};
use mvn_shared::{List, Mem, Text};
use std::alloc::Global;

/// A module, its goals, the files that are fetched for it with the locks that cover them, and its outputs.
#[derive(Drop)]
pub struct Ready {
    pub selected: SelectedModule,
    pub goals: GoalList,
    pub fetch: List<FileName>,
    pub locks: List<Text>,
    pub outputs: List<Output>,
}

// What is made of a module.
#[derive(Drop)]
struct Prepared {
    goals: GoalList,
    fetch: List<FileName>,
    locks: List<Text>,
    outputs: List<Output>,
}

fn made_of(
    alloc: Global,
    phase: Phase,
    built: &Places<Gav>,
    selected: &SelectedModule,
) -> Mem<Prepared>
    requires names { IsValid selected.now.model.gav }
    ensures goals { IfOk result (λ p. p.goals ≡ (ready phase built.now selected.now).goals) }
    ensures fetch { IfOk result (λ p. p.fetch ≡ (ready phase built.now selected.now).fetch) }
    ensures locks { IfOk result (λ p. p.locks ≡ (ready phase built.now selected.now).locks) }
    ensures outputs { IfOk result (λ p.
        p.outputs ≡ (ready phase built.now selected.now).outputs) }
{
    let goals = goals(alloc, &selected.model, phase)?;
    let calls = goals.calls.as_slice();
    let winners = selected.resolution.winners.as_slice();
    let fetch = fetched_files(alloc, built, calls, winners)?;
    let locks = fetched_locks(alloc, built, calls, winners)?;
    let outputs = outputs(alloc, &selected.model)?;
    Ok(Prepared {
        goals,
        fetch,
        locks,
        outputs,
    })
}

/// A module made ready. Costs its goals, and the names of its dependencies.
pub fn made_ready(
    alloc: Global,
    phase: Phase,
    built: &Places<Gav>,
    selected: SelectedModule,
) -> Mem<Ready>
    requires names { IsValid selected.model.gav }
    ensures { IfOk result (λ r. r ≡ ready phase built.now selected) }
{
    let Prepared {
        goals,
        fetch,
        locks,
        outputs,
    } = made_of(alloc, phase, built, &selected)?;
    Ok(Ready {
        selected,
        goals,
        fetch,
        locks,
        outputs,
    })
}
