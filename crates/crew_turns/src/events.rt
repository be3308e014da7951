// One turn each, with what an event carries: a file is read or published, an answer is kept. And a turn without an event, in which an
// upstream's output is copied.
ghost use Rattle.std.specs.Prelude.{◌≡◌, ◌<◌, ◌≤◌, ℕ, true, Option, Some, length, IfErr, IfOk, IfSome, IsSomeAnd, OnErr, OnOk};
ghost use Rattle.std.specs.FinMap as map;
ghost use Rattle.mvn_shared.specs.Files.{file_at};
ghost use Rattle.mvn_outside.specs.Pieces.{removed};
ghost use Rattle.mvn_outside.specs.declared.fault.ReadFault.TheVariants.{TooLarge};
ghost use Rattle.build_core.specs.OneThread.{instead_of, name_of, output_of};
ghost use Rattle.build_core.specs.declared.event.Event.TheVariants as event;
ghost use Rattle.event_core.specs.Enabled.{is_due};
ghost use Rattle.event_core.specs.Runs.{module_by};
ghost use Rattle.event_core.specs.Worlds.{FitsAnswer, HandTold};
ghost use Rattle.scripts.specs.declared.deed.Deed.TheVariants as deed;
ghost use Rattle.event_core.specs.declared.entry.Carried.TheVariants as carried;
ghost use Rattle.run_law.specs.Given.{outputs_after};
ghost use Rattle.board.specs.Builds.{answer_kept, standing_at};
ghost use Rattle.run_law.specs.Absent.{IsFirstAbsent};
ghost use Rattle.crew_turns.specs.Seen.{AlwaysFits, IsOf, KeepsFit, Sees, Steps, course_by, seen_by, there_by};
ghost use Rattle.crew_turns.specs.Tasks.{stood_by};
ghost use Rattle.crew_turns.specs.Asked.{goals_with};
ghost use Rattle.crew_turns.specs.Pieces.{FitsPiece};
ghost use Rattle.crew_turns.specs.Stages.{HasAnswered};
ghost use Rattle.crew_turns.specs.Looked.{LooksBehind};

use crate::turns::taken;
use crate::{Task, first_absent};
use board::{AnswerKept, Board};
use goal_types::{GoalAnswer, Slot};
use mvn_outside::{DeviceFault, ReadFault, Shelf};
use mvn_shared::{Bytes, Mem};
use std::sync::Wait;
use turn_lock::{Pass, Turn, TurnLock};

/// Reads a file that is due, of at most `limit` bytes: a turn, with that event where the bytes come. The bytes are those that the
/// repository has by the log; of a file with more than `limit` nothing is read. An `Err` is no event. May wait for the turn. Costs what
/// the repository's read costs. Introduction to the Dependency Mechanism, for what is read; project rule for the turn.
pub fn read_file<'b, W: Wait, S: Shelf>(
    rt: &W,
    lock: &TurnLock<Board<'b, S>>,
    pass: &mut Pass<Board<'b, S>>,
    task: &Task,
    file: u32,
    limit: u64,
) -> Result<Bytes, ReadFault>
    requires of { IsOf task.now.plan lock.now task.now.worker pass.old }
    requires file { file < length task.now.plan.files }
    requires due { is_due (course_by task.now.plan task.now.worker pass.old)
        (deed.Read file) ≡ true }
    ensures ok { OnOk result (Steps task.now.plan lock.now task.now.worker
        (event.Read task.now.worker file) pass.old pass.new) }
    ensures err { OnErr result (Sees task.now.plan lock.now task.now.worker pass.old pass.new) }
    ensures bytes { IfSome (stood_by task.now pass.new).files (λ files. IfOk result (λ bytes.
        file_at files (name_of task.now.plan file) ≡ Some bytes)) }
    ensures within { IfOk result (λ bytes. length bytes ≤ limit) }
    ensures large { IfErr result (λ fault. fault ≡ TooLarge
        → IfSome (stood_by task.now pass.new).files (λ files. IsSomeAnd
        (file_at files (name_of task.now.plan file)) (λ bytes. limit < length bytes))) }
    ensures fits { AlwaysFits task.now.plan task.now.worker pass.old pass.new }
{
    let mut value = taken(rt, lock, pass);
    let read = value.read(task.worker, file, limit);
    value.keeps();
    lock.give(pass, Turn { value });
    read
}

/// A copy of what an upstream keeps in a slot, or in the slot that stands for it: a turn without an event. May wait for the turn. Costs
/// the bytes. Guide to Working with Multiple Modules; project rule for the slots.
pub fn copy_output<'b, W: Wait, S: Shelf>(
    rt: &W,
    lock: &TurnLock<Board<'b, S>>,
    pass: &mut Pass<Board<'b, S>>,
    task: &Task,
    number: u32,
    slot: Slot,
) -> Mem<Option<Bytes>>
    requires of { IsOf task.now.plan lock.now task.now.worker pass.old }
    ensures turn { Sees task.now.plan lock.now task.now.worker pass.old pass.new }
    ensures bytes { IfOk result (λ bytes. bytes
        ≡ output_of (outputs_after task.now.plan (seen_by pass.new) number) slot) }
    ensures fits { AlwaysFits task.now.plan task.now.worker pass.old pass.new }
{
    let value = taken(rt, lock, pass);
    let copied = output_in(&value, number, slot);
    lock.give(pass, Turn { value });
    copied
}

// What a module keeps in a slot, or else in the slot that stands for it.
fn output_in<S: Shelf>(board: &Board<S>, number: u32, slot: Slot) -> Mem<Option<Bytes>>
    ensures { IfOk result (λ bytes. bytes
        ≡ output_of (outputs_after board.now.plan board.now.log number) slot) }
{
    match board.output(number, slot)? {
        Some(bytes) => Ok(Some(bytes)),
        None => board.output(number, instead_of(slot)),
    }
}

// Classes stand for a main output that isn't there, and test classes for tests. Project rule.
fn instead_of(slot: Slot) -> Slot
    ensures { result ≡ instead_of slot }
{
    match slot {
        Slot::Main => Slot::Classes,
        Slot::Tests => Slot::TestClasses,
        other => other,
    }
}

// A look for the first of some files, from a place on, that isn't there, after a publish.
fn look_behind<S: Shelf>(
    board: &Board<S>,
    published: Result<(), DeviceFault>,
    files: &[u32],
    from: usize,
) -> Result<Option<usize>, DeviceFault>
    ensures { LooksBehind (standing_at board.now).there files.now from published result }
{
    match published {
        Ok(()) => Ok(first_absent(board, files, from)),
        Err(fault) => Err(fault),
    }
}

/// Publishes a sealed piece as a file that is due: a turn, with that event where the repository takes it; and in the same turn a look for
/// the first file of the fetch list, from a place on, that isn't there. An `Err` is no event, and leaves the piece. May wait for the
/// turn. Costs what the repository's publish costs, and a look at each file. Project rule.
pub fn publish_piece<'b, W: Wait, S: Shelf>(
    rt: &W,
    lock: &TurnLock<Board<'b, S>>,
    pass: &mut Pass<Board<'b, S>>,
    task: &Task,
    file: u32,
    area: &mut S::Area,
    piece: u64,
    from: usize,
) -> Result<Option<usize>, DeviceFault>
    requires of { IsOf task.now.plan lock.now task.now.worker pass.old }
    requires whose { module_by task.now.plan (seen_by pass.old) task.now.worker
        ≡ Some task.now.number }
    requires due { is_due (course_by task.now.plan task.now.worker pass.old)
        (deed.Publish file) ≡ true }
    requires sealed { map.get (S.Area.pieces area.old) piece ≡ Some true }
    ensures ok { OnOk result (Steps task.now.plan lock.now task.now.worker
        (event.Publish task.now.worker file) pass.old pass.new) }
    ensures absent { IfOk result (λ found.
        IsFirstAbsent (there_by task.now.plan pass.new) task.now.unit.fetch from found) }
    ensures err { OnErr result (Sees task.now.plan lock.now task.now.worker pass.old pass.new) }
    ensures fits { (told : HandTold) → FitsPiece task.now told file
        (S.Area.contents area.old) piece pass.old
        → KeepsFit task.now.plan task.now.worker told pass.old pass.new }
    ensures taken { OnOk result
        ((S.Area.pieces area.new ≡ map.remove (S.Area.pieces area.old) piece)
        × (S.Area.contents area.new ≡ removed (S.Area.contents area.old) piece)) }
    ensures left { OnErr result ((S.Area.pieces area.new ≡ S.Area.pieces area.old)
        × (S.Area.contents area.new ≡ S.Area.contents area.old)) }
    ensures area { S.Area.faults area.new ≡ S.Area.faults area.old }
{
    let mut value = taken(rt, lock, pass);
    let published = value.publish(task.worker, file, area, piece);
    value.keeps();
    let looked = look_behind(&value, published, task.unit.fetch.as_slice(), from);
    lock.give(pass, Turn { value });
    looked
}

/// Keeps what the module's next goal answered: a turn with that event. Says whether its output is kept within the module's budget. May
/// wait for the turn. Costs a look at each goal of the module, and copies no bytes. Introduction to the Build Lifecycle, for the order
/// of goals; project rule for the budget.
pub fn keep_answer<'b, W: Wait, S: Shelf>(
    rt: &W,
    lock: &TurnLock<Board<'b, S>>,
    pass: &mut Pass<Board<'b, S>>,
    task: &Task,
    goal: u32,
    answer: GoalAnswer,
) -> AnswerKept
    requires of { IsOf task.now.plan lock.now task.now.worker pass.old }
    requires good { (last : Option ℕ) × HasAnswered task.now goal last pass.old }
    requires some_goal { goal < length task.now.unit.goals }
    ensures step { Steps task.now.plan lock.now task.now.worker
        (event.Answer task.now.worker goal) pass.old pass.new }
    ensures goals { (stood_by task.now pass.new).goals
        ≡ goals_with task.now pass.old goal answer }
    ensures kept { result ≡ answer_kept goal (stood_by task.now pass.new).goals }
    ensures fits { (told : HandTold)
        → FitsAnswer (stood_by task.now pass.old) told goal (carried.Answered answer)
        → KeepsFit task.now.plan task.now.worker told pass.old pass.new }
{
    let mut value = taken(rt, lock, pass);
    let kept = value.answer(task.worker, goal, answer);
    value.keeps();
    lock.give(pass, Turn { value });
    kept
}
