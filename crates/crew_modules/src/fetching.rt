// The files of a module's fetch list: where one is absent, the batch is locked alone, and each absent file is looked for again, fetched and
// published. Introduction to the Dependency Mechanism; Resolver, "Named Locks".
ghost use Rattle.std.specs.Prelude.{◌≡◌, ◌<◌, None, false, is_some, Option, IfErr, IfOk, IfSome};
ghost use Rattle.build_core.specs.declared.mode.Mode.TheVariants.{Exclusive, Shared};
ghost use Rattle.build_core.specs.declared.ending.Device.TheVariants as device;
ghost use Rattle.scripts.specs.Outlines.{is_empty};
ghost use Rattle.crew_turns.specs.Endings.{fails_by, stops_by};
ghost use Rattle.crew_turns.specs.Seen.{Follows, IsOf, KeepsFit, names_by};
ghost use Rattle.crew_turns.specs.Tasks.{HasBegun};
ghost use Rattle.crew_turns.specs.Hands.{IsFetchedBy, Test, told_by};
ghost use Rattle.crew_turns.specs.Stages.{IsReading, IsTaken, LacksFile};
ghost use Rattle.crew_turns.specs.Stops.{MayStop};
ghost use Rattle.crew_modules.specs.Fetched.{stop_of};

use crate::pieces::fetch_piece;
use crate::{free_all, take_batch};
use board::Board;
use build_core::{Ending, Mode};
use crew_turns::{Task, publish_end, publish_piece};
use mvn_outside::{Remote, Shelf};
use std::sync::Wait;
use turn_lock::{Pass, TurnLock};

// Fetches, stages and publishes the file at a place of the fetch list, which is due: then the next place whose file isn't there.
fn fetch_file<'b, W: Wait, S: Shelf, R: Remote>(
    rt: &W,
    lock: &TurnLock<Board<'b, S>>,
    pass: &mut Pass<Board<'b, S>>,
    task: &Task,
    remote: &mut R,
    area: &mut S::Area,
    at: usize,
) -> Result<Option<usize>, Ending>
    requires of { IsOf task.now.plan lock.now task.now.worker pass.old }
    requires at { LacksFile task.now Exclusive at pass.old }
    ensures of { IsOf task.now.plan lock.now task.now.worker pass.new }
    ensures follows { Follows pass.old pass.new }
    ensures next { IfOk result (λ next. IsTaken task.now Exclusive next pass.new) }
    ensures later { IfOk result (λ next. IfSome next (λ later. at < later)) }
    ensures stop { (gate : Option Test) → IfErr result (λ ending. MayStop task.now
        (told_by (R.files remote.old) (is_some (S.Area.contents area.old)) gate) ending pass.new) }
    ensures gate { fails_by device.Gate result ≡ false }
    ensures held { names_by task.now.plan task.now.worker pass.new ≡ task.now.unit.batch }
    ensures fits { (gate : Option Test) → KeepsFit task.now.plan task.now.worker
        (told_by (R.files remote.old) (is_some (S.Area.contents area.old)) gate)
        pass.old pass.new }
    ensures devices { IsFetchedBy R.files R.faults S.Area.contents S.Area.faults S.Area.pieces
        remote.old remote.new area.old area.new (stop_of result) }
{
    let file = task.unit.fetch.as_slice()[at];
    match fetch_piece(task, remote, area, file) {
        Ok(piece) => match publish_piece(rt, lock, pass, task, file, area, piece, at + 1) {
            Ok(next) => Ok(next),
            Err(fault) => Err(publish_end(fault)),
        },
        Err(ending) => Err(ending),
    }
}

// Fetches what is absent of the fetch list, from a place on whose file is.
fn fetch_from<'b, W: Wait, S: Shelf, R: Remote>(
    rt: &W,
    lock: &TurnLock<Board<'b, S>>,
    pass: &mut Pass<Board<'b, S>>,
    task: &Task,
    remote: &mut R,
    area: &mut S::Area,
    first: usize,
) -> Option<Ending>
    requires of { IsOf task.now.plan lock.now task.now.worker pass.old }
    requires at { LacksFile task.now Exclusive first pass.old }
    ensures of { IsOf task.now.plan lock.now task.now.worker pass.new }
    ensures follows { Follows pass.old pass.new }
    ensures all { result ≡ None → IsReading task.now 0 pass.new }
    ensures stop { (gate : Option Test) → IfSome result (λ ending. MayStop task.now
        (told_by (R.files remote.old) (is_some (S.Area.contents area.old)) gate) ending pass.new) }
    ensures gate { stops_by device.Gate result ≡ false }
    ensures held { names_by task.now.plan task.now.worker pass.new ≡ task.now.unit.batch }
    ensures fits { (gate : Option Test) → KeepsFit task.now.plan task.now.worker
        (told_by (R.files remote.old) (is_some (S.Area.contents area.old)) gate)
        pass.old pass.new }
    ensures devices { IsFetchedBy R.files R.faults S.Area.contents S.Area.faults S.Area.pieces
        remote.old remote.new area.old area.new result }
{
    let mut at = first;
    while at < task.unit.fetch.len() {
        match fetch_file(rt, lock, pass, task, remote, area, at) {
            Ok(Some(next)) => at = next,
            Ok(None) => return None,
            Err(ending) => return Some(ending),
        }
    }
    unreachable!()
}

// Frees the batch, which is held shared, and takes it alone; then fetches each file that is absent still.
fn fetch_alone<'b, W: Wait, S: Shelf, R: Remote>(
    rt: &W,
    lock: &TurnLock<Board<'b, S>>,
    pass: &mut Pass<Board<'b, S>>,
    task: &Task,
    remote: &mut R,
    area: &mut S::Area,
) -> Option<Ending>
    requires of { IsOf task.now.plan lock.now task.now.worker pass.old }
    requires lacks { LacksFile task.now Shared 0 pass.old }
    requires some { is_empty task.now.unit.batch ≡ false }
    ensures of { IsOf task.now.plan lock.now task.now.worker pass.new }
    ensures follows { Follows pass.old pass.new }
    ensures all { result ≡ None → IsReading task.now 0 pass.new }
    ensures stop { (gate : Option Test) → IfSome result (λ ending. MayStop task.now
        (told_by (R.files remote.old) (is_some (S.Area.contents area.old)) gate) ending pass.new) }
    ensures gate { stops_by device.Gate result ≡ false }
    ensures held { names_by task.now.plan task.now.worker pass.new ≡ task.now.unit.batch }
    ensures fits { (gate : Option Test) → KeepsFit task.now.plan task.now.worker
        (told_by (R.files remote.old) (is_some (S.Area.contents area.old)) gate)
        pass.old pass.new }
    ensures devices { IsFetchedBy R.files R.faults S.Area.contents S.Area.faults S.Area.pieces
        remote.old remote.new area.old area.new result }
{
    let batch = task.unit.batch.as_slice();
    free_all(rt, lock, pass, task, batch);
    match take_batch(rt, lock, pass, task, Mode::Exclusive) {
        Some(first) => fetch_from(rt, lock, pass, task, remote, area, first),
        None => None,
    }
}

/// Takes the batch, so that all files of the fetch list are there: shared where they are, and else alone, with each file fetched that is
/// absent then. The answer is how the module ends, where one can't be had: a file is missing, a device failed, or memory ran out. The
/// worker holds the batch then, whatever the answer. May wait. Costs a turn for each name of the batch, or three, and one for each file
/// that is fetched, with its bytes once in memory. Introduction to the Dependency Mechanism; Resolver, "Named Locks".
pub fn make_ready<'b, W: Wait, S: Shelf, R: Remote>(
    rt: &W,
    lock: &TurnLock<Board<'b, S>>,
    pass: &mut Pass<Board<'b, S>>,
    task: &Task,
    remote: &mut R,
    area: &mut S::Area,
) -> Option<Ending>
    requires of { IsOf task.now.plan lock.now task.now.worker pass.old }
    requires begun { HasBegun task.now pass.old }
    ensures of { IsOf task.now.plan lock.now task.now.worker pass.new }
    ensures follows { Follows pass.old pass.new }
    ensures all { result ≡ None → IsReading task.now 0 pass.new }
    ensures stop { (gate : Option Test) → IfSome result (λ ending. MayStop task.now
        (told_by (R.files remote.old) (is_some (S.Area.contents area.old)) gate) ending pass.new) }
    ensures gate { stops_by device.Gate result ≡ false }
    ensures held { names_by task.now.plan task.now.worker pass.new ≡ task.now.unit.batch }
    ensures fits { (gate : Option Test) → KeepsFit task.now.plan task.now.worker
        (told_by (R.files remote.old) (is_some (S.Area.contents area.old)) gate)
        pass.old pass.new }
    ensures devices { IsFetchedBy R.files R.faults S.Area.contents S.Area.faults S.Area.pieces
        remote.old remote.new area.old area.new result }
{
    match take_batch(rt, lock, pass, task, Mode::Shared) {
        Some(_) => fetch_alone(rt, lock, pass, task, remote, area),
        None => None,
    }
}
