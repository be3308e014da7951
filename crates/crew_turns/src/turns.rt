// One turn each, with an event that carries nothing, or none.
ghost use Rattle.std.specs.Prelude.{◌≡◌, ℕ, ◌<◌, Bool, true, [], None, Some, length, nat_eq};
ghost use Rattle.build_core.specs.declared.event.Event.TheVariants as event;
ghost use Rattle.build_core.specs.declared.plan.Plan.{Plan};
ghost use Rattle.event_core.specs.Causes.{stage_at};
ghost use Rattle.event_core.specs.Enabled.{ending_in_range, is_due, may_end_so};
ghost use Rattle.scripts.specs.declared.deed.Deed.TheVariants as deed;
ghost use Rattle.board.specs.Builds.{standing_at};
ghost use Rattle.scripts.specs.Outlines.{is_listed};
ghost use Rattle.event_core.specs.Runs.{module_by};
ghost use Rattle.event_core.specs.Worlds.{FitsEnd, FitsTake, HandTold};
ghost use Rattle.atomic_table.specs.Seated.{TableId};
ghost use Rattle.turn_lock.specs.Passes.{lock_of, view_of, with_view};
ghost use Rattle.turn_lock.specs.Turns.{with_turn};
ghost use Rattle.crew_turns.specs.Ends.{ends_as, marked_end, unmarked_end};
ghost use Rattle.crew_turns.specs.Seen.{AlwaysFits, IsOf, KeepsFit, Steps, Told, course_by, names_by, seen_by};
ghost use Rattle.crew_turns.specs.Taken.{IsOut, opened_of};
ghost use Rattle.crew_turns.specs.Tasks.{IsTask, plan_outline, stood_by};
ghost use Rattle.crew_turns.specs.Turned.{IsAssigned, IsIn, IsReached, IsTold, Looks};

use crate::looks::first_absent;
use crate::task::Task;
use board::{Board, Next};
use build_core::{Device, Ending, Mode, Plan, Tried};
use mvn_outside::Shelf;
use std::sync::Wait;
use turn_lock::{Pass, Turn, TurnLock};

/// The board, when no other turn is out: the turn of a worker begins. May wait. Project rule.
pub fn taken<'b, W: Wait, S: Shelf>(
    rt: &W,
    lock: &TurnLock<Board<'b, S>>,
    pass: &mut Pass<Board<'b, S>>,
) -> Board<'b, S>
    requires own { lock_of pass.old ≡ lock.now }
    requires free { (view_of pass.old).turn ≡ None }
    ensures pass { pass.new ≡ with_view pass.old (with_turn (view_of pass.old) result.log) }
    ensures fixed { Some (opened_of S.told S.faults result) ≡ (view_of pass.old).fixed }
    ensures workers { result.plan.workers ≡ (view_of pass.old).workers }
    ensures out { (plan : Plan) (w : ℕ) → IsOf plan lock.now w pass.old
        → IsOut plan w pass.old result }
{
    let Turn { value } = lock.take(rt, pass);
    value.keeps();
    value
}

/// Frees a name that the worker holds: a turn with that event. May wait for the turn. Resolver, "Named Locks".
pub fn free_name<'b, W: Wait, S: Shelf>(
    rt: &W,
    lock: &TurnLock<Board<'b, S>>,
    pass: &mut Pass<Board<'b, S>>,
    task: &Task,
    name: u32,
)
    requires of { IsOf task.now.plan lock.now task.now.worker pass.old }
    requires held { is_listed name (names_by task.now.plan task.now.worker pass.old) ≡ true }
    ensures step { Steps task.now.plan lock.now task.now.worker
        (event.Free task.now.worker name) pass.old pass.new }
    ensures fits { AlwaysFits task.now.plan task.now.worker pass.old pass.new }
{
    let mut value = taken(rt, lock, pass);
    value.free(task.worker, name);
    lock.give(pass, Turn { value });
}

// How a module ends in which the repository failed.
fn marked_end(ending: Ending) -> Ending
    ensures { result ≡ marked_end ending }
{
    match ending {
        Ending::Fault(_) | Ending::Memory => ending,
        _ => Ending::Fault(Device::Shelf),
    }
}

// How a module ends in which the repository didn't fail.
fn unmarked_end(ending: Ending) -> Ending
    ensures { result ≡ unmarked_end ending }
{
    match ending {
        Ending::Fault(Device::Shelf) => Ending::Memory,
        _ => ending,
    }
}

// How a module ends, by whether the repository failed in it.
fn settled_end(ending: Ending, marked: bool) -> Ending
    ensures { result ≡ ends_as ending marked }
{
    if marked {
        marked_end(ending)
    } else {
        unmarked_end(ending)
    }
}

/// Ends the worker's module: a turn with that event. Whether the repository failed in the module is looked at in the turn. If it did, the
/// module ends by that fault, unless it ends by a fault or for want of memory anyway; if it didn't, an ending by a fault of the repository
/// becomes one for want of memory. May wait for the turn. Project rule.
pub fn end_module<'b, W: Wait, S: Shelf>(
    rt: &W,
    lock: &TurnLock<Board<'b, S>>,
    pass: &mut Pass<Board<'b, S>>,
    task: &Task,
    ending: Ending,
) -> Ending
    requires of { IsOf task.now.plan lock.now task.now.worker pass.old }
    requires whose { module_by task.now.plan (seen_by pass.old) task.now.worker
        ≡ Some task.now.number }
    requires held { names_by task.now.plan task.now.worker pass.old ≡ [] }
    requires range { ending_in_range (plan_outline task.now)
        (course_by task.now.plan task.now.worker pass.old) ending ≡ true }
    requires may { may_end_so (plan_outline task.now)
        (course_by task.now.plan task.now.worker pass.old) ending ≡ true }
    ensures settled { (marked : Bool) × (result ≡ ends_as ending marked) }
    ensures step { Steps task.now.plan lock.now task.now.worker
        (event.End task.now.worker result) pass.old pass.new }
    ensures fits { (told : HandTold) → FitsEnd (stood_by task.now pass.old) told ending
        → KeepsFit task.now.plan task.now.worker told pass.old pass.new }
{
    let mut value = taken(rt, lock, pass);
    let marked = value.shelf_failed(task.worker);
    let settled = settled_end(ending, marked);
    value.end(task.worker, settled);
    lock.give(pass, Turn { value });
    settled
}

/// What an idle worker is told to do.
#[derive(Drop)]
pub enum Assigned<'a> {
    /// It builds this module, which has begun.
    Task(Task<'a>),
    /// A module was skipped; it asks again.
    Skipped,
    /// Nothing may begin until another worker goes on.
    Wait,
    /// Each module has ended or was skipped.
    Done,
}

// The task of a module that the plan has.
fn task_of<'a>(plan: &'a Plan, number: u32, worker: u32) -> Task<'a>
    requires { number < length plan.now.modules }
    ensures task { IsTask result }
    ensures plan { result.plan ≡ plan.now }
    ensures number { result.number ≡ number }
    ensures worker { result.worker ≡ worker }
{
    Task {
        plan,
        unit: &plan.modules.as_slice()[number as usize],
        number,
        worker,
    }
}

// What a worker is told, by what the board said.
fn assigned_by<'a>(plan: &'a Plan, next: Next, worker: u32) -> Assigned<'a>
    requires within { IsIn plan.now next }
    ensures told { (lock : TableId) (before pass : Told)
        → IsTold plan.now lock worker next before pass
        → IsAssigned plan.now lock worker result before pass }
{
    match next {
        Next::Module(number) => Assigned::Task(task_of(plan, number, worker)),
        Next::Skipped(_) => Assigned::Skipped,
        Next::Wait => Assigned::Wait,
        Next::Done => Assigned::Done,
    }
}

/// What an idle worker does next: a turn, with the start of a module, the skip of one, or no event. May wait for the turn. Guide to
/// Working with Multiple Modules, for what is skipped; project rule.
pub fn next_task<'a, W: Wait, S: Shelf>(
    rt: &W,
    lock: &TurnLock<Board<'a, S>>,
    pass: &mut Pass<Board<'a, S>>,
    plan: &'a Plan,
    worker: u32,
) -> Assigned<'a>
    requires of { IsOf plan.now lock.now worker pass.old }
    requires idle { module_by plan.now (seen_by pass.old) worker ≡ None }
    ensures turn { IsAssigned plan.now lock.now worker result pass.old pass.new }
    ensures fits { AlwaysFits plan.now worker pass.old pass.new }
{
    let mut value = taken(rt, lock, pass);
    let next = value.start(worker);
    value.keeps();
    lock.give(pass, Turn { value });
    assigned_by(plan, next, worker)
}

/// Whether a name was taken; and then the first of some files that isn't there.
#[derive(Clone, Copy)]
pub enum Reached {
    Busy,
    Taken(Option<usize>),
}

// What a worker reached, by what the board said, with a look where it took the name.
fn reached_by<S: Shelf>(board: &Board<S>, tried: Tried, files: &[u32], from: usize) -> Reached
    ensures { Looks (standing_at board.now).there files.now from tried result }
{
    match tried {
        Tried::Taken => Reached::Taken(first_absent(board, files, from)),
        Tried::Busy(_) => Reached::Busy,
    }
}

/// Takes a name that is due: a turn, with that event where no other holds the name; and in the same turn a look for the first file of
/// the fetch list, from a place on, that isn't there. May wait for the turn, and not for the name. Resolver, "Named Locks".
pub fn try_name<'b, W: Wait, S: Shelf>(
    rt: &W,
    lock: &TurnLock<Board<'b, S>>,
    pass: &mut Pass<Board<'b, S>>,
    task: &Task,
    name: u32,
    mode: Mode,
    from: usize,
) -> Reached
    requires of { IsOf task.now.plan lock.now task.now.worker pass.old }
    requires whose { module_by task.now.plan (seen_by pass.old) task.now.worker
        ≡ Some task.now.number }
    requires due { is_due (course_by task.now.plan task.now.worker pass.old)
        (deed.Take mode name) ≡ true }
    requires fits { FitsTake
        (nat_eq (stage_at (course_by task.now.plan task.now.worker pass.old)) 6)
        (stood_by task.now pass.old) }
    ensures turn { IsReached task.now lock.now name mode from result pass.old pass.new }
    ensures fits { AlwaysFits task.now.plan task.now.worker pass.old pass.new }
{
    let mut value = taken(rt, lock, pass);
    let tried = value.take(task.worker, name, mode);
    value.keeps();
    let reached = reached_by(&value, tried, task.unit.fetch.as_slice(), from);
    lock.give(pass, Turn { value });
    reached
}
