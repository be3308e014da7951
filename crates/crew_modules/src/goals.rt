// A module's goals, asked in order outside turns; each answer is kept in a turn. Introduction to the Build Lifecycle.
ghost use Rattle.std.specs.Prelude.{◌≡◌, ◌+◌, ◌<◌, ◌^◌, ℕ, Bool, true, [], Option, None, length, IfErr, IfOk, IfSome, OnOk};
ghost use Rattle.mvn_shared.specs.Cause.{HasCause};
ghost use Rattle.mvn_shared.specs.Files.{Files};
ghost use Rattle.goal_types.specs.Goals.{HasOwnSlots};
ghost use Rattle.goal_types.specs.declared.goal.GoalAnswer.TheVariants.{Produced};
ghost use Rattle.build_core.specs.Slots.{kept_of};
ghost use Rattle.build_core.specs.declared.ending.Device.TheVariants as device;
ghost use Rattle.build_core.specs.declared.event.Event.TheVariants as event;
ghost use Rattle.event_core.specs.SoundPlans.{IsSoundPlan};
ghost use Rattle.event_core.specs.Worlds.{FitsAnswer, HandTold};
ghost use Rattle.event_core.specs.declared.entry.Carried.TheVariants as carried;
ghost use Rattle.board.specs.Builds.{answer_kept};
ghost use Rattle.crew_turns.specs.Asked.{KeepsOwn, SettlesAnswer, goals_with};
ghost use Rattle.crew_turns.specs.Endings.{fails_by, is_goal_end, stops_by};
ghost use Rattle.crew_turns.specs.Hands.{told_by};
ghost use Rattle.crew_turns.specs.Paths.{IsPath};
ghost use Rattle.run_law.specs.Gathered.{needed_of};
ghost use Rattle.crew_turns.specs.Asking.{asked};
ghost use Rattle.crew_turns.specs.Seen.{Follows, IsOf, KeepsFit, Steps, names_by};
ghost use Rattle.crew_turns.specs.Stages.{HasAnswered};
ghost use Rattle.crew_turns.specs.Stops.{MayStop};
ghost use Rattle.crew_turns.specs.Tasks.{stood_by};
ghost use Rattle.crew_modules.specs.Answering.{Goes, IsAnswering, IsDone, IsGateEnd, IsLeft};

use board::{AnswerKept, Board, with_output};
use build_core::{Device, Ending, PlanModule};
use crew_turns::{Task, ask_for, first_request, keep_answer};
use goal_types::{GoalAnswer, GoalCall, GoalRequest, OwnBytes, PathEntry, Slot};
use mvn_outside::{DeviceFault, Gate, Shelf};
use mvn_shared::{Bytes, List, Mem};
use std::alloc::Global;
use std::mem;
use std::sync::Wait;
use turn_lock::{Pass, TurnLock};

// A copy of an output.
fn copy_of_output(bytes: &Bytes) -> Mem<Bytes>
    ensures { IfOk result (λ copy. copy ≡ bytes.now) }
{
    Ok(bytes.clone()?)
}

// Puts an output into its slot.
fn put_output(alloc: Global, slot: Slot, bytes: Bytes, own: &mut List<OwnBytes>) -> Option<Ending>
    ensures { KeepsOwn slot bytes own.old own.new result }
{
    if slot == Slot::Nowhere {
        return None;
    }
    let held = mem::replace(own, List::new(alloc));
    match with_output(alloc, held, slot, bytes) {
        Ok(kept) => {
            *own = kept;
            None
        }
        Err(_) => Some(Ending::Memory),
    }
}

// Puts a copy of an output into its slot. Where that is none, nothing is copied.
fn put_copy(alloc: Global, slot: Slot, bytes: &Bytes, own: &mut List<OwnBytes>) -> Option<Ending>
    ensures { KeepsOwn slot bytes.now own.old own.new result }
{
    if slot == Slot::Nowhere {
        return None;
    }
    let Ok(copy) = copy_of_output(bytes) else {
        return Some(Ending::Memory);
    };
    put_output(alloc, slot, copy, own)
}

// Keeps an output as its goal's answer, also where memory for the copy in its slot is missing. Says how the module ends, if it does.
fn take_output<'b, W: Wait, S: Shelf>(
    alloc: Global,
    rt: &W,
    lock: &TurnLock<Board<'b, S>>,
    pass: &mut Pass<Board<'b, S>>,
    task: &Task,
    goal: u32,
    slot: Slot,
    bytes: Bytes,
    own: &mut List<OwnBytes>,
) -> Option<Ending>
    requires of { IsOf task.now.plan lock.now task.now.worker pass.old }
    requires good { (last : Option ℕ) × HasAnswered task.now goal last pass.old }
    requires some_goal { goal < length task.now.unit.goals }
    ensures step { Steps task.now.plan lock.now task.now.worker
        (event.Answer task.now.worker goal) pass.old pass.new }
    ensures goals { (stood_by task.now pass.new).goals
        ≡ goals_with task.now pass.old goal (Produced bytes) }
    ensures settles { SettlesAnswer goal slot (answer_kept goal
        (stood_by task.now pass.new).goals) (Produced bytes) own.old own.new result }
    ensures fits { (told : HandTold) → FitsAnswer (stood_by task.now pass.old) told goal
        (carried.Answered (Produced bytes))
        → KeepsFit task.now.plan task.now.worker told pass.old pass.new }
{
    let stop = put_copy(alloc, slot, &bytes, own);
    match keep_answer(rt, lock, pass, task, goal, GoalAnswer::Produced(bytes)) {
        AnswerKept::TooLarge => Some(Ending::OutputTooLarge(goal)),
        AnswerKept::Held => stop,
    }
}

// Keeps an answer, whatever it is. Says how the module ends, if it does.
fn take_answer<'b, W: Wait, S: Shelf>(
    alloc: Global,
    rt: &W,
    lock: &TurnLock<Board<'b, S>>,
    pass: &mut Pass<Board<'b, S>>,
    task: &Task,
    goal: u32,
    slot: Slot,
    answer: GoalAnswer,
    own: &mut List<OwnBytes>,
) -> Option<Ending>
    requires of { IsOf task.now.plan lock.now task.now.worker pass.old }
    requires good { (last : Option ℕ) × HasAnswered task.now goal last pass.old }
    requires some_goal { goal < length task.now.unit.goals }
    ensures step { Steps task.now.plan lock.now task.now.worker
        (event.Answer task.now.worker goal) pass.old pass.new }
    ensures goals { (stood_by task.now pass.new).goals
        ≡ goals_with task.now pass.old goal answer }
    ensures settles { SettlesAnswer goal slot (answer_kept goal
        (stood_by task.now pass.new).goals) answer own.old own.new result }
    ensures fits { (told : HandTold)
        → FitsAnswer (stood_by task.now pass.old) told goal (carried.Answered answer)
        → KeepsFit task.now.plan task.now.worker told pass.old pass.new }
{
    match answer {
        GoalAnswer::Done => {
            let _kept = keep_answer(rt, lock, pass, task, goal, GoalAnswer::Done);
            None
        }
        GoalAnswer::Failed(text) => {
            let _kept = keep_answer(rt, lock, pass, task, goal, GoalAnswer::Failed(text));
            Some(Ending::Goal(goal))
        }
        GoalAnswer::Produced(bytes) => {
            take_output(alloc, rt, lock, pass, task, goal, slot, bytes, own)
        }
    }
}

// What the gate answers to a goal's request; or how the module ends without an answer.
fn ask_gate<G: Gate>(
    alloc: Global,
    gate: &mut G,
    unit: &PlanModule,
    call: &GoalCall,
    paths: &[PathEntry],
    request: &mut GoalRequest,
) -> Result<GoalAnswer, Ending>
    requires beside { length paths.now ≡ length unit.now.entries }
    requires slots { HasOwnSlots request.old.own }
    ensures asked { OnOk result (request.new ≡ asked request.old call.now
        (needed_of call.now.need unit.now.entries paths.now)) }
    ensures answer { IfOk result (λ answer.
        IfSome (G.answers gate.old) (λ test. test request.new answer ≡ true)) }
    ensures end { IfErr result (λ ending. IsGateEnd ending) }
    ensures same { G.answers gate.new ≡ G.answers gate.old }
    ensures cause { HasCause (G.faults gate.old) (G.faults gate.new) (fails_by device.Gate result) }
{
    let Ok(()) = ask_for(alloc, unit, paths, call, request) else {
        return Err(Ending::Memory);
    };
    match gate.call(request) {
        Ok(answer) => Ok(answer),
        Err(DeviceFault::Failed) => Err(Ending::Fault(Device::Gate)),
        Err(DeviceFault::Memory) => Err(Ending::Memory),
    }
}

// Asks a goal outside any turn, and keeps its answer. Says how the module ends, if it does.
fn answer_goal<'b, W: Wait, S: Shelf, G: Gate>(
    alloc: Global,
    rt: &W,
    lock: &TurnLock<Board<'b, S>>,
    pass: &mut Pass<Board<'b, S>>,
    task: &Task,
    gate: &mut G,
    paths: &[PathEntry],
    request: &mut GoalRequest,
    goal: u32,
) -> Option<Ending>
    requires beside { length paths.now ≡ length task.now.unit.entries }
    requires some_goal { goal < length task.now.unit.goals }
    requires stands { IsAnswering task.now lock.now paths.now goal request.old pass.old }
    ensures left { IsLeft task.now lock.now paths.now (goal + 1) request.new result pass.new }
    ensures way { Goes task.now (G.answers gate.old) pass.old pass.new }
    ensures same { G.answers gate.new ≡ G.answers gate.old }
    ensures cause { HasCause (G.faults gate.old) (G.faults gate.new) (stops_by device.Gate result) }
{
    let call = &task.unit.goals.as_slice()[goal as usize];
    let answer = match ask_gate(alloc, gate, task.unit, call, paths, request) {
        Ok(answer) => answer,
        Err(ending) => return Some(ending),
    };
    take_answer(
        alloc,
        rt,
        lock,
        pass,
        task,
        goal,
        call.slot,
        answer,
        &mut request.own,
    )
}

// A number of fewer than 2^32 as one of 32 bits.
fn small(count: usize) -> u32
    requires { count < 2 ^ 32 }
    ensures { result ≡ count }
{
    count as u32
}

// How many goals the module has: no more than its plan has events.
fn goal_count(task: &Task) -> u32
    requires sound { IsSoundPlan task.now.plan }
    requires few { task.now.plan.events < 2 ^ 32 }
    ensures { result ≡ length task.now.unit.goals }
{
    let count = task.unit.goals.len();
    small(count)
}

// Asks all goals in order until one stops them, from a request of the module without outputs. Says how the module ends, if one does.
fn answer_each<'b, W: Wait, S: Shelf, G: Gate>(
    alloc: Global,
    rt: &W,
    lock: &TurnLock<Board<'b, S>>,
    pass: &mut Pass<Board<'b, S>>,
    task: &Task,
    gate: &mut G,
    paths: &[PathEntry],
    request: &mut GoalRequest,
) -> Option<Ending>
    requires few { task.now.plan.events < 2 ^ 32 }
    requires beside { length paths.now ≡ length task.now.unit.entries }
    requires stands { IsAnswering task.now lock.now paths.now 0 request.old pass.old }
    ensures left { IsLeft task.now lock.now paths.now (length task.now.unit.goals)
        request.new result pass.new }
    ensures way { Goes task.now (G.answers gate.old) pass.old pass.new }
    ensures same { G.answers gate.new ≡ G.answers gate.old }
    ensures cause { HasCause (G.faults gate.old) (G.faults gate.new) (stops_by device.Gate result) }
{
    let count = goal_count(task);
    for goal in 0..count {
        match answer_goal(alloc, rt, lock, pass, task, gate, paths, request, goal) {
            None => {}
            Some(ending) => return Some(ending),
        }
    }
    None
}

// Takes all outputs, and leaves none.
fn take_own(alloc: Global, own: &mut List<OwnBytes>) -> List<OwnBytes>
    ensures { result ≡ own.old }
{
    mem::replace(own, List::new(alloc))
}

// The outputs that are kept when all goals are answered, which are taken from the request; or how the module ends, where one stops them.
fn answer_from<'b, W: Wait, S: Shelf, G: Gate>(
    alloc: Global,
    rt: &W,
    lock: &TurnLock<Board<'b, S>>,
    pass: &mut Pass<Board<'b, S>>,
    task: &Task,
    gate: &mut G,
    paths: &[PathEntry],
    request: &mut GoalRequest,
) -> Result<List<OwnBytes>, Ending>
    requires few { task.now.plan.events < 2 ^ 32 }
    requires beside { length paths.now ≡ length task.now.unit.entries }
    requires stands { IsAnswering task.now lock.now paths.now 0 request.old pass.old }
    ensures done { IsDone task.now lock.now result pass.new }
    ensures way { Goes task.now (G.answers gate.old) pass.old pass.new }
    ensures same { G.answers gate.new ≡ G.answers gate.old }
    ensures cause { HasCause (G.faults gate.old) (G.faults gate.new) (fails_by device.Gate result) }
{
    match answer_each(alloc, rt, lock, pass, task, gate, paths, request) {
        None => Ok(take_own(alloc, &mut request.own)),
        Some(ending) => Err(ending),
    }
}

// Asks all goals in order until one stops them, from a request of the module without outputs.
fn answer_all<'b, W: Wait, S: Shelf, G: Gate>(
    alloc: Global,
    rt: &W,
    lock: &TurnLock<Board<'b, S>>,
    pass: &mut Pass<Board<'b, S>>,
    task: &Task,
    gate: &mut G,
    paths: &[PathEntry],
    request: GoalRequest,
) -> Result<List<OwnBytes>, Ending>
    requires few { task.now.plan.events < 2 ^ 32 }
    requires beside { length paths.now ≡ length task.now.unit.entries }
    requires stands { IsAnswering task.now lock.now paths.now 0 request pass.old }
    ensures done { IsDone task.now lock.now result pass.new }
    ensures way { Goes task.now (G.answers gate.old) pass.old pass.new }
    ensures same { G.answers gate.new ≡ G.answers gate.old }
    ensures cause { HasCause (G.faults gate.old) (G.faults gate.new) (fails_by device.Gate result) }
{
    let mut request = request;
    answer_from(alloc, rt, lock, pass, task, gate, paths, &mut request)
}

// Asks the module's goals, where it has any, in order until one stops them.
fn ask_goals<'b, W: Wait, S: Shelf, G: Gate>(
    alloc: Global,
    rt: &W,
    lock: &TurnLock<Board<'b, S>>,
    pass: &mut Pass<Board<'b, S>>,
    task: &Task,
    gate: &mut G,
    paths: &[PathEntry],
) -> Result<List<OwnBytes>, Ending>
    requires few { task.now.plan.events < 2 ^ 32 }
    requires of { IsOf task.now.plan lock.now task.now.worker pass.old }
    requires good { HasAnswered task.now 0 None pass.old }
    requires path { IsPath task.now paths.now pass.old }
    requires beside { length paths.now ≡ length task.now.unit.entries }
    ensures done { IsDone task.now lock.now result pass.new }
    ensures way { Goes task.now (G.answers gate.old) pass.old pass.new }
    ensures same { G.answers gate.new ≡ G.answers gate.old }
    ensures cause { HasCause (G.faults gate.old) (G.faults gate.new) (fails_by device.Gate result) }
{
    let goals = task.unit.goals.as_slice();
    let [first, ..] = goals else {
        return Ok(List::new(alloc));
    };
    let Ok(request) = first_request(alloc, task.unit, first) else {
        return Err(Ending::Memory);
    };
    answer_all(alloc, rt, lock, pass, task, gate, paths, request)
}

/// Asks the module's goals in order until one stops them: the outputs that are kept then, or how the module ends. A goal that failed or
/// whose output is too large stops them, and so does a gate that failed. Each goal is asked outside turns, and its answer kept in one,
/// also where memory for the module's copy of its output is missing. May wait for the turns. Costs the sources once, and for each goal the
/// bytes of its classpath, and once more those of an output that has a slot. Introduction to the Build Lifecycle, for the order; project
/// rule for the rest.
pub fn answer_goals<'b, W: Wait, S: Shelf, G: Gate>(
    alloc: Global,
    rt: &W,
    lock: &TurnLock<Board<'b, S>>,
    pass: &mut Pass<Board<'b, S>>,
    task: &Task,
    gate: &mut G,
    paths: &[PathEntry],
) -> Result<List<OwnBytes>, Ending>
    requires few { task.now.plan.events < 2 ^ 32 }
    requires of { IsOf task.now.plan lock.now task.now.worker pass.old }
    requires good { HasAnswered task.now 0 None pass.old }
    requires path { IsPath task.now paths.now pass.old }
    requires beside { length paths.now ≡ length task.now.unit.entries }
    ensures of { IsOf task.now.plan lock.now task.now.worker pass.new }
    ensures follows { Follows pass.old pass.new }
    ensures all { OnOk result ((last : Option ℕ)
        × HasAnswered task.now (length task.now.unit.goals) last pass.new) }
    ensures own { IfOk result (λ own. own ≡ kept_of (stood_by task.now pass.new).goals) }
    ensures stop { (remote : Option Files) (area : Bool) → IfErr result (λ ending.
        MayStop task.now (told_by remote area (G.answers gate.old)) ending pass.new) }
    ensures held { names_by task.now.plan task.now.worker pass.new ≡ [] }
    ensures fits { (remote : Option Files) (area : Bool) → KeepsFit task.now.plan
        task.now.worker (told_by remote area (G.answers gate.old)) pass.old pass.new }
    ensures same { G.answers gate.new ≡ G.answers gate.old }
    ensures cause { HasCause (G.faults gate.old) (G.faults gate.new) (fails_by device.Gate result) }
    ensures others { IfErr result (λ ending. is_goal_end ending ≡ true) }
{
    ask_goals(alloc, rt, lock, pass, task, gate, paths)
}
