// The entries of a module's classpaths, with their bytes: files are read under the batch's locks, each once, and upstreams' outputs copied.
// Introduction to the Dependency Mechanism; project rule for the limit.
ghost use Rattle.std.specs.Prelude.{◌≡◌, ◌<◌, ◌≤◌, true, None, Some, length, option_map, slice_get, IfErr, IfOk, OnOk};
ghost use Rattle.build_core.specs.OneThread.{entries_len, most_classpath};
ghost use Rattle.build_core.specs.declared.ending.Ending.TheVariants.{Memory};
ghost use Rattle.build_core.specs.declared.plan.Origin.TheVariants as origin;
ghost use Rattle.scripts.specs.Outlines.{files_read};
ghost use Rattle.event_core.specs.Worlds.{IsWithin};
ghost use Rattle.run_law.specs.Gathered.{files_before};
ghost use Rattle.crew_turns.specs.Parts.{place_before};
ghost use Rattle.crew_turns.specs.Seen.{AlwaysFits, Follows, IsOf, names_by};
ghost use Rattle.crew_turns.specs.Tasks.{IsTask, stood_by};
ghost use Rattle.crew_turns.specs.Endings.{is_gather_end, read_end};
ghost use Rattle.crew_turns.specs.Paths.{IsGathered, IsPath};
ghost use Rattle.crew_turns.specs.Stages.{IsReading};
ghost use Rattle.crew_turns.specs.Stops.{MayStopAlways};
ghost use Rattle.crew_modules.specs.Had.{GoesOn, HasEach, HasMore, IsHad, origin_at};

use board::Board;
use build_core::{Device, Ending, Entry, Origin};
use crew_turns::{Gathered, Task, copy_output, place_before, read_file};
use goal_types::{PathEntry, Slot};
use mvn_outside::{ReadFault, Shelf};
use mvn_shared::{Bytes, List};
use std::alloc::Global;
use std::sync::Wait;
use turn_lock::{Pass, TurnLock};

// How a module ends whose file isn't read.
fn read_end(fault: ReadFault) -> Ending
    ensures { result ≡ read_end fault }
{
    match fault {
        ReadFault::Failed => Ending::Fault(Device::Shelf),
        ReadFault::TooLarge => Ending::ClasspathTooLarge,
        ReadFault::Memory => Ending::Memory,
    }
}

// The bytes of a file that no entry so far comes from: a turn, in which it is read if there is room for it.
fn new_bytes<'b, W: Wait, S: Shelf>(
    rt: &W,
    lock: &TurnLock<Board<'b, S>>,
    pass: &mut Pass<Board<'b, S>>,
    task: &Task,
    gathered: &Gathered,
    at: usize,
    file: u32,
) -> Result<Option<Bytes>, Ending>
    requires of { IsOf task.now.plan lock.now task.now.worker pass.old }
    requires gathered { IsGathered task.now at gathered.now pass.old }
    requires is_task { IsTask task.now }
    requires from { origin_at task.now at ≡ Some (origin.File file) }
    requires new { place_before task.now.unit.entries at file ≡ None }
    ensures goes { GoesOn task.now lock.now pass.old pass.new }
    ensures had { IsHad task.now at result pass.new }
{
    let limit = gathered.room();
    match read_file(rt, lock, pass, task, file, limit) {
        Ok(bytes) => Ok(Some(bytes)),
        Err(fault) => Err(read_end(fault)),
    }
}

// The bytes of a file, where an entry that was gathered comes from it too.
fn same_bytes(gathered: &Gathered, before: usize) -> Result<Option<Bytes>, Ending>
    requires { before < length gathered.now }
    ensures ok { IfOk result (λ bytes.
        option_map (λ p. p.bytes) (slice_get gathered.now before) ≡ Some bytes) }
    ensures err { IfErr result (λ ending. ending ≡ Memory) }
{
    match gathered.copy_at(before) {
        Ok(bytes) => Ok(bytes),
        Err(_) => Err(Ending::Memory),
    }
}

// The bytes of a file: those of an entry that was gathered, if one comes from it too, and else read.
fn file_bytes<'b, W: Wait, S: Shelf>(
    rt: &W,
    lock: &TurnLock<Board<'b, S>>,
    pass: &mut Pass<Board<'b, S>>,
    task: &Task,
    gathered: &Gathered,
    at: usize,
    file: u32,
) -> Result<Option<Bytes>, Ending>
    requires of { IsOf task.now.plan lock.now task.now.worker pass.old }
    requires gathered { IsGathered task.now at gathered.now pass.old }
    requires from { origin_at task.now at ≡ Some (origin.File file) }
    ensures goes { GoesOn task.now lock.now pass.old pass.new }
    ensures had { IsHad task.now at result pass.new }
{
    let entries = task.unit.entries.as_slice();
    match place_before(entries, at, file) {
        Some(before) => same_bytes(gathered, before),
        None => new_bytes(rt, lock, pass, task, gathered, at, file),
    }
}

// The bytes of an upstream's output: a turn, in which they are copied.
fn output_bytes<'b, W: Wait, S: Shelf>(
    rt: &W,
    lock: &TurnLock<Board<'b, S>>,
    pass: &mut Pass<Board<'b, S>>,
    task: &Task,
    at: usize,
    number: u32,
    slot: Slot,
) -> Result<Option<Bytes>, Ending>
    requires of { IsOf task.now.plan lock.now task.now.worker pass.old }
    requires reading { IsReading task.now (length (files_before task.now.unit at)) pass.old }
    requires is_task { IsTask task.now }
    requires from { origin_at task.now at ≡ Some (origin.Module number slot) }
    ensures goes { GoesOn task.now lock.now pass.old pass.new }
    ensures had { IsHad task.now at result pass.new }
{
    match copy_output(rt, lock, pass, task, number, slot) {
        Ok(bytes) => Ok(bytes),
        Err(_) => Err(Ending::Memory),
    }
}

// Where the entry at a place comes from.
#[tactic(auto, using(std::proofs::lemmas::Option::slice_get_read))]
fn origin_of(entries: &[Entry], at: usize) -> Origin
    requires { at < length entries.now }
    ensures { option_map (λ e. e.origin) (slice_get entries.now at) ≡ Some result }
{
    entries[at].origin
}

// The bytes of the entry at a place, with those before it at hand, by where it comes from.
fn entry_bytes<'b, W: Wait, S: Shelf>(
    rt: &W,
    lock: &TurnLock<Board<'b, S>>,
    pass: &mut Pass<Board<'b, S>>,
    task: &Task,
    gathered: &Gathered,
    at: usize,
) -> Result<Option<Bytes>, Ending>
    requires of { IsOf task.now.plan lock.now task.now.worker pass.old }
    requires gathered { IsGathered task.now at gathered.now pass.old }
    requires some_entry { at < length task.now.unit.entries }
    ensures goes { GoesOn task.now lock.now pass.old pass.new }
    ensures had { IsHad task.now at result pass.new }
{
    let entries = task.unit.entries.as_slice();
    match origin_of(entries, at) {
        Origin::File(file) => file_bytes(rt, lock, pass, task, gathered, at, file),
        Origin::Module(number, slot) => output_bytes(rt, lock, pass, task, at, number, slot),
        Origin::Nothing => Ok(None),
    }
}

// One entry more with its bytes, or how the module ends.
fn next_entry<'b, W: Wait, S: Shelf>(
    rt: &W,
    lock: &TurnLock<Board<'b, S>>,
    pass: &mut Pass<Board<'b, S>>,
    task: &Task,
    gathered: &mut Gathered,
    at: usize,
) -> Result<(), Ending>
    requires of { IsOf task.now.plan lock.now task.now.worker pass.old }
    requires gathered { IsGathered task.now at gathered.old pass.old }
    requires some_entry { at < length task.now.unit.entries }
    ensures goes { GoesOn task.now lock.now pass.old pass.new }
    ensures more { HasMore task.now at gathered.new result pass.new }
{
    let entries = task.unit.entries.as_slice();
    match entry_bytes(rt, lock, pass, task, gathered, at) {
        Ok(bytes) => gathered.add(&entries[at], bytes),
        Err(ending) => Err(ending),
    }
}

// All entries with their bytes, or how the module ends.
fn gather_each<'b, W: Wait, S: Shelf>(
    alloc: Global,
    rt: &W,
    lock: &TurnLock<Board<'b, S>>,
    pass: &mut Pass<Board<'b, S>>,
    task: &Task,
) -> Result<Gathered, Ending>
    requires of { IsOf task.now.plan lock.now task.now.worker pass.old }
    requires at { IsReading task.now 0 pass.old }
    ensures goes { GoesOn task.now lock.now pass.old pass.new }
    ensures each { HasEach task.now result pass.new }
{
    let mut gathered = Gathered::new(alloc);
    for at in 0..task.unit.entries.len() {
        match next_entry(rt, lock, pass, task, &mut gathered, at) {
            Ok(()) => {}
            Err(ending) => return Err(ending),
        }
    }
    Ok(gathered)
}

// The entries, which are within the limit.
fn finished(gathered: Gathered) -> List<PathEntry>
    ensures is { result ≡ gathered }
    ensures within { entries_len gathered ≤ most_classpath }
{
    let _room = gathered.room();
    gathered.into_paths()
}

/// All entries of the module with their bytes, read under the batch's locks; or how the module ends that can't have them: by the
/// repository, by the limit of 128 MiB for all of them, or for want of memory. May wait. Costs a turn for each file and each upstream's
/// output, and the bytes: once, and where a file stands twice, twice. Introduction to the Dependency Mechanism; project rule for the limit.
pub fn gather<'b, W: Wait, S: Shelf>(
    alloc: Global,
    rt: &W,
    lock: &TurnLock<Board<'b, S>>,
    pass: &mut Pass<Board<'b, S>>,
    task: &Task,
) -> Result<List<PathEntry>, Ending>
    requires of { IsOf task.now.plan lock.now task.now.worker pass.old }
    requires at { IsReading task.now 0 pass.old }
    ensures of { IsOf task.now.plan lock.now task.now.worker pass.new }
    ensures follows { Follows pass.old pass.new }
    ensures all { OnOk result (IsReading task.now (length (files_read task.now.unit)) pass.new) }
    ensures path { IfOk result (λ paths. IsPath task.now paths pass.new) }
    ensures beside { IfOk result (λ paths. length paths ≡ length task.now.unit.entries) }
    ensures within { OnOk result (IsWithin (stood_by task.now pass.new)) }
    ensures stop { IfErr result (λ ending. MayStopAlways task.now ending pass.new) }
    ensures held { names_by task.now.plan task.now.worker pass.new ≡ task.now.unit.batch }
    ensures fits { AlwaysFits task.now.plan task.now.worker pass.old pass.new }
    ensures end { IfErr result (λ ending. is_gather_end ending ≡ true) }
{
    match gather_each(alloc, rt, lock, pass, task) {
        Ok(gathered) => Ok(finished(gathered)),
        Err(ending) => Err(ending),
    }
}
