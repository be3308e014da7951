// The names of a batch are taken, in ascending order, and freed. Resolver, "Named Locks".
ghost use Rattle.std.specs.Prelude.{◌≡◌, ◌+◌, ◌<◌, [], IfSome, Some, false, nat_eq, true};
ghost use Rattle.build_core.specs.declared.event.Event.TheVariants as event;
ghost use Rattle.event_core.specs.Causes.{stage_at};
ghost use Rattle.event_core.specs.Enabled.{is_due};
ghost use Rattle.event_core.specs.Runs.{module_by};
ghost use Rattle.scripts.specs.Outlines.{is_empty};
ghost use Rattle.event_core.specs.Worlds.{FitsTake};
ghost use Rattle.scripts.specs.declared.deed.Deed.TheVariants as deed;
ghost use Rattle.crew_turns.specs.Seen.{AlwaysFits, Follows, IsOf, Steps, course_by, names_by, seen_by, there_by};
ghost use Rattle.run_law.specs.Absent.{IsFirstAbsent};
ghost use Rattle.crew_turns.specs.Stages.{IsTaken, IsToTake};
ghost use Rattle.crew_turns.specs.Stops.{freed_course};
ghost use Rattle.crew_turns.specs.Tasks.{plan_outline, stood_by};

use board::Board;
use build_core::Mode;
use crew_turns::{Reached, Task, free_name, try_name};
use mvn_outside::Shelf;
use std::sync::Wait;
use turn_lock::{Pass, TurnLock};

/// Takes a name that is due: tries it in a turn, and rests while another holds it. The answer is the first file of the fetch list, from
/// a place on, that isn't there then. May wait. Costs a turn for each try. Resolver, "Named Locks".
pub fn take_name<'b, W: Wait, S: Shelf>(
    rt: &W,
    lock: &TurnLock<Board<'b, S>>,
    pass: &mut Pass<Board<'b, S>>,
    task: &Task,
    name: u32,
    mode: Mode,
    from: usize,
) -> Option<usize>
    requires of { IsOf task.now.plan lock.now task.now.worker pass.old }
    requires whose { module_by task.now.plan (seen_by pass.old) task.now.worker
        ≡ Some task.now.number }
    requires due { is_due (course_by task.now.plan task.now.worker pass.old)
        (deed.Take mode name) ≡ true }
    requires fits { FitsTake
        (nat_eq (stage_at (course_by task.now.plan task.now.worker pass.old)) 6)
        (stood_by task.now pass.old) }
    ensures step { Steps task.now.plan lock.now task.now.worker
        (event.Take task.now.worker name mode) pass.old pass.new }
    ensures absent { IsFirstAbsent (there_by task.now.plan pass.new) task.now.unit.fetch from
        result }
    ensures fits { AlwaysFits task.now.plan task.now.worker pass.old pass.new }
{
    // Read so that the task's invariant is known: it is a module of its plan.
    let _number = task.number;
    for _ in rt.forever() {
        match try_name(rt, lock, pass, task, name, mode, from) {
            Reached::Taken(found) => return found,
            Reached::Busy => lock.rest(rt, pass),
        }
    }
    unreachable!()
}

// From which file on absent files are looked for with a name of the batch: from the first on with the last name, and else from the end.
fn look_from(at: usize, names: usize, files: usize) -> usize
    requires { at < names }
    ensures { at + 1 ≡ names → result ≡ 0 }
{
    if at + 1 == names { 0 } else { files }
}

/// Takes all names of the batch in a mode. With the last one it looks which file of the fetch list is the first that isn't there: in that
/// turn, so that it is what the script goes on by. May wait. Costs a turn for each name, and more where another holds one. Resolver,
/// "Named Locks".
pub fn take_batch<'b, W: Wait, S: Shelf>(
    rt: &W,
    lock: &TurnLock<Board<'b, S>>,
    pass: &mut Pass<Board<'b, S>>,
    task: &Task,
    mode: Mode,
) -> Option<usize>
    requires of { IsOf task.now.plan lock.now task.now.worker pass.old }
    requires at { IsToTake task.now mode pass.old }
    ensures of { IsOf task.now.plan lock.now task.now.worker pass.new }
    ensures follows { Follows pass.old pass.new }
    ensures taken { IsTaken task.now mode result pass.new }
    ensures some { IfSome result (λ at. is_empty task.now.unit.batch ≡ false) }
    ensures fits { AlwaysFits task.now.plan task.now.worker pass.old pass.new }
{
    let batch = task.unit.batch.as_slice();
    let files = task.unit.fetch.len();
    let mut found = None;
    for at in 0..batch.len() {
        let from = look_from(at, batch.len(), files);
        found = take_name(rt, lock, pass, task, batch[at], mode, from);
    }
    found
}

/// Frees all names that the worker holds, in the order in which it took them: a turn for each. May wait for each turn. Resolver, "Named
/// Locks".
pub fn free_all<'b, W: Wait, S: Shelf>(
    rt: &W,
    lock: &TurnLock<Board<'b, S>>,
    pass: &mut Pass<Board<'b, S>>,
    task: &Task,
    names: &[u32],
)
    requires of { IsOf task.now.plan lock.now task.now.worker pass.old }
    requires whose { module_by task.now.plan (seen_by pass.old) task.now.worker
        ≡ Some task.now.number }
    requires held { names_by task.now.plan task.now.worker pass.old ≡ names.now }
    ensures of { IsOf task.now.plan lock.now task.now.worker pass.new }
    ensures follows { Follows pass.old pass.new }
    ensures none { names_by task.now.plan task.now.worker pass.new ≡ [] }
    ensures course { course_by task.now.plan task.now.worker pass.new
        ≡ freed_course (plan_outline task.now) (there_by task.now.plan pass.new) names.now
        (course_by task.now.plan task.now.worker pass.old) }
    ensures stood { (stood_by task.now pass.new).goals ≡ (stood_by task.now pass.old).goals }
    ensures fits { AlwaysFits task.now.plan task.now.worker pass.old pass.new }
{
    for at in 0..names.len() {
        free_name(rt, lock, pass, task, names[at]);
    }
}
