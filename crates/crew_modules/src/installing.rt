// A module's files are put into the repository, under its own name. Maven's install plugin; Resolver, "Named Locks".
ghost use Rattle.std.specs.Prelude.{◌≡◌, ◌+◌, ◌<◌, ℕ, true, false, Option, None, Some, is_some, length, option_map, IfSome};
ghost use Rattle.mvn_shared.specs.Files.{Files};
ghost use Rattle.build_core.specs.OneThread.{lacks_artifact, own_bytes};
ghost use Rattle.build_core.specs.Slots.{kept_of};
ghost use Rattle.event_core.specs.Worlds.{is_installed, was_published};
ghost use Rattle.crew_turns.specs.Hands.{IsAreaLeft, Test, told_by};
ghost use Rattle.crew_turns.specs.Endings.{is_install_end};
ghost use Rattle.crew_turns.specs.Seen.{IsOf, KeepsFit, seen_by};
ghost use Rattle.crew_turns.specs.Stages.{HasAnswered, IsInstalling, IsPut, own_at, own_file};
ghost use Rattle.crew_turns.specs.Stops.{HasEnded};
ghost use Rattle.crew_turns.specs.Tasks.{stood_by};
ghost use Rattle.crew_modules.specs.Putting.{HasPut, IsBehind};

use crate::{end_holding, take_name};
use board::{Board, bytes_in};
use build_core::{Ending, Mode, OwnFile, PlanModule};
use crew_turns::{Task, publish_end, publish_piece, stage_bytes};
use goal_types::{OwnBytes, Slot};
use mvn_outside::Shelf;
use std::sync::Wait;
use turn_lock::{Pass, TurnLock};

// The bytes of a slot of the module: its POM, or an output.
fn own_bytes<'a>(unit: &'a PlanModule, own: &'a [OwnBytes], slot: Slot) -> Option<&'a [u8]>
    ensures { option_map (λ bytes. bytes.now) result ≡ own_bytes unit.now own.now slot }
{
    match slot {
        Slot::Pom => Some(unit.pom.as_slice()),
        other => bytes_in(own, other),
    }
}

// Stages bytes outside turns, and publishes them as an own file that is due.
fn put_bytes<'b, W: Wait, S: Shelf>(
    rt: &W,
    lock: &TurnLock<Board<'b, S>>,
    pass: &mut Pass<Board<'b, S>>,
    task: &Task,
    area: &mut S::Area,
    at: usize,
    bytes: &[u8],
) -> Option<Ending>
    requires of { IsOf task.now.plan lock.now task.now.worker pass.old }
    requires at { IsInstalling task.now at pass.old }
    requires some_file { at < length task.now.unit.own }
    requires bytes { own_at task.now (kept_of (stood_by task.now pass.old).goals) at
        ≡ Some bytes.now }
    ensures behind { IsBehind task.now (at + 1) result pass.new }
    ensures put { result ≡ None → IfSome (own_file task.now at) (λ file.
        was_published (seen_by pass.new) file ≡ true) }
    ensures has { HasPut S.Area.contents S.Area.faults S.Area.pieces task.now lock.now
        pass.old pass.new area.old area.new result }
{
    let piece = match stage_bytes(area, bytes) {
        Ok(piece) => piece,
        Err(ending) => return Some(ending),
    };
    let OwnFile { file, .. } = task.unit.own.as_slice()[at];
    let from = task.unit.fetch.len();
    match publish_piece(rt, lock, pass, task, file, area, piece, from) {
        Ok(_) => None,
        Err(fault) => Some(publish_end(fault)),
    }
}

// Puts the own file at a place, where there are bytes for it.
fn put_file<'b, W: Wait, S: Shelf>(
    rt: &W,
    lock: &TurnLock<Board<'b, S>>,
    pass: &mut Pass<Board<'b, S>>,
    task: &Task,
    area: &mut S::Area,
    own: &[OwnBytes],
    at: usize,
) -> Option<Ending>
    requires of { IsOf task.now.plan lock.now task.now.worker pass.old }
    requires at { IsInstalling task.now at pass.old }
    requires some_file { at < length task.now.unit.own }
    requires own { own.now ≡ kept_of (stood_by task.now pass.old).goals }
    ensures behind { IsBehind task.now (at + 1) result pass.new }
    ensures put { result ≡ None → IsPut task.now own.now at pass.new }
    ensures has { HasPut S.Area.contents S.Area.faults S.Area.pieces task.now lock.now
        pass.old pass.new area.old area.new result }
{
    let OwnFile { slot, .. } = task.unit.own.as_slice()[at];
    match own_bytes(task.unit, own, slot) {
        Some(bytes) => put_bytes(rt, lock, pass, task, area, at, bytes),
        None => None,
    }
}

// Puts all own files for which there are bytes, in order.
fn put_files<'b, W: Wait, S: Shelf>(
    rt: &W,
    lock: &TurnLock<Board<'b, S>>,
    pass: &mut Pass<Board<'b, S>>,
    task: &Task,
    area: &mut S::Area,
    own: &[OwnBytes],
) -> Option<Ending>
    requires of { IsOf task.now.plan lock.now task.now.worker pass.old }
    requires at { IsInstalling task.now 0 pass.old }
    requires own { own.now ≡ kept_of (stood_by task.now pass.old).goals }
    ensures behind { IsBehind task.now (length task.now.unit.own) result pass.new }
    ensures put { result ≡ None → is_installed (stood_by task.now pass.new) ≡ true }
    ensures has { HasPut S.Area.contents S.Area.faults S.Area.pieces task.now lock.now
        pass.old pass.new area.old area.new result }
{
    for at in 0..task.unit.own.len() {
        match put_file(rt, lock, pass, task, area, own, at) {
            None => {}
            Some(ending) => return Some(ending),
        }
    }
    None
}

// Whether the module needs a main output and has none.
fn lacks_artifact(unit: &PlanModule, own: &[OwnBytes]) -> bool
    ensures { result ≡ lacks_artifact unit.now own.now }
{
    unit.needs_artifact && bytes_in(own, Slot::Main).is_none()
}

// Ends a module that is to be installed and lacks nothing: its own name is taken, its files are put, and the name is freed.
fn put_and_end<'b, W: Wait, S: Shelf>(
    rt: &W,
    lock: &TurnLock<Board<'b, S>>,
    pass: &mut Pass<Board<'b, S>>,
    task: &Task,
    area: &mut S::Area,
    own: &[OwnBytes],
) -> Ending
    requires of { IsOf task.now.plan lock.now task.now.worker pass.old }
    requires good { (last : Option ℕ)
        × HasAnswered task.now (length task.now.unit.goals) last pass.old }
    requires own { own.now ≡ kept_of (stood_by task.now pass.old).goals }
    requires installs { task.now.unit.installs ≡ true }
    requires lacks { lacks_artifact task.now.unit own.now ≡ false }
    ensures ended { HasEnded task.now lock.now result pass.old pass.new }
    ensures fits { (remote : Option Files) (gate : Option Test) → KeepsFit task.now.plan
        task.now.worker (told_by remote (is_some (S.Area.contents area.old)) gate)
        pass.old pass.new }
    ensures area { IsAreaLeft S.Area.contents S.Area.faults S.Area.pieces
        area.old area.new (Some result) }
    ensures end { is_install_end result ≡ true }
{
    let name = task.unit.own_name;
    let from = task.unit.fetch.len();
    take_name(rt, lock, pass, task, name, Mode::Exclusive, from);
    let stop = put_files(rt, lock, pass, task, area, own);
    let ending = stop.unwrap_or(Ending::Built);
    end_holding(rt, lock, pass, task, &[name], ending)
}

/// Ends a module whose goals are all answered well: it is installed under its own name, where it is to be. The answer is how it ended. May
/// wait. Costs a turn for each file, and its bytes once. Maven's install plugin.
pub fn install<'b, W: Wait, S: Shelf>(
    rt: &W,
    lock: &TurnLock<Board<'b, S>>,
    pass: &mut Pass<Board<'b, S>>,
    task: &Task,
    area: &mut S::Area,
    own: &[OwnBytes],
) -> Ending
    requires of { IsOf task.now.plan lock.now task.now.worker pass.old }
    requires good { (last : Option ℕ)
        × HasAnswered task.now (length task.now.unit.goals) last pass.old }
    requires own { own.now ≡ kept_of (stood_by task.now pass.old).goals }
    ensures ended { HasEnded task.now lock.now result pass.old pass.new }
    ensures fits { (remote : Option Files) (gate : Option Test) → KeepsFit task.now.plan
        task.now.worker (told_by remote (is_some (S.Area.contents area.old)) gate)
        pass.old pass.new }
    ensures area { IsAreaLeft S.Area.contents S.Area.faults S.Area.pieces
        area.old area.new (Some result) }
    ensures others { is_install_end result ≡ true }
{
    if !task.unit.installs {
        return end_holding(rt, lock, pass, task, &[], Ending::Built);
    }
    if lacks_artifact(task.unit, own) {
        return end_holding(rt, lock, pass, task, &[], Ending::NoArtifact);
    }
    put_and_end(rt, lock, pass, task, area, own)
}
