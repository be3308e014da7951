// Numbers that workers note under a turn lock.
ghost use Rattle.std.specs.Prelude.{◌≡◌, ℕ, ◌+◌, ◌-◌, ◌<◌, ◌≤◌, ◌^◌, ◌∷◌, [], ◌++◌, None, length, IfOk, OnOk, OnErr};
ghost use Rattle.std.specs.Thread.{IsSync};
ghost use Rattle.turn_lock.specs.Noted.{AddsNote, AllBegin, AllNoted, NoneNoted, SameNotes, in_order, noted, notes_of, with_next};
ghost use Rattle.turn_lock.specs.Passes.{lock_of, view_of};
ghost use Rattle.turn_lock.specs.Resting.{IsAtRest, IsBack, IsFor, Rests, RestsAgain};
ghost use Rattle.turn_lock.specs.Turns.{Begins};

use crate::{Kept, Pass, Turn, TurnLock};
use mvn_shared::{Mem, OutOfMemory};
use std::alloc::Global;
use std::sync::Wait;
use std::thread;
use std::thread::{Threads, join_mut};
use std::time::{Clock, Duration};

/// A number that a worker noted. Project rule.
#[derive(Clone, Copy)]
pub struct Note {
    pub worker: u32,
    pub number: u32,
}

/// What so many workers noted: a value to try the lock with, and to measure it. Project rule.
#[derive(Drop)]
pub struct Tally {
    pub workers: u32,
    pub notes: Vec<Note>,
    ghost short: { length notes.items < 2 ^ 62 },
}

impl Kept for Tally {
    type Fixed = ();

    type Entry = Note;

    ghost use Rattle.turn_lock.specs.declared.kept.Role.TheVariants.{GoesOn};

    ghost fixed = { λ tally. tt };

    ghost log = { λ tally. tally.notes.items };

    ghost count = { λ tally. tally.workers };

    ghost role = { λ note. GoesOn note.worker };

    fn workers(&self) -> u32 {
        self.workers
    }

    fn entries(&self) -> u64 {
        self.notes.len() as u64
    }
}

impl Tally {
    /// No notes yet. Takes room for 4,096. Project rule.
    pub fn empty(alloc: Global, workers: u32) -> Mem<Tally>
        ensures { IfOk result (λ tally. (tally.workers ≡ workers) × (tally.notes.items ≡ [])) }
    {
        let notes = Vec::with_capacity(alloc, 4096)?;
        Ok(Tally { workers, notes })
    }

    // A note more. More than 2^32 are want of memory.
    fn add(&mut self, worker: u32, number: u32) -> Mem<()>
        ensures workers { self.new.workers ≡ self.old.workers }
        ensures ok { OnOk result
            (self.new.notes.items ≡ self.old.notes.items
            ++ (record { worker = worker; number = number }) ∷ []) }
        ensures err { OnErr result (self.new.notes.items ≡ self.old.notes.items) }
    {
        if self.notes.len() >= 1 << 32 {
            return Err(OutOfMemory);
        }
        self.notes.push(Note { worker, number })?;
        Ok(())
    }

    /// How many numbers a worker noted in their order, from 0 on. One look at all notes. Project rule.
    pub fn in_order(&self, worker: u32) -> u64
        ensures { result ≡ in_order worker self.now.notes.items }
    {
        let mut next = 0u64;
        for at in 0..self.notes.len() {
            next = with_note(next, self.notes[at], worker);
        }
        next
    }
}

// The next number of a worker after a note.
fn with_note(next: u64, note: Note, worker: u32) -> u64
    requires { next ≤ 2 ^ 32 }
    ensures value { result ≡ with_next worker next note }
    ensures small { result ≤ 2 ^ 32 }
{
    if note.worker == worker && note.number as u64 == next {
        next + 1
    } else {
        next
    }
}

/// A lock over no notes of so many workers, and its first pass. Project rule.
pub fn opened(alloc: Global, workers: u32) -> Mem<(TurnLock<Tally>, Pass<Tally>)>
    requires { 0 < workers }
    ensures rest { IfOk result (λ r. IsAtRest r.0 0 workers workers workers r.1) }
    ensures seen { IfOk result (λ r. (view_of r.1).seen ≡ []) }
{
    let tally = Tally::empty(alloc, workers)?;
    match TurnLock::new(alloc, tally) {
        Ok(made) => Ok(made),
        Err(_) => Err(OutOfMemory),
    }
}

/// A note of a pass's worker, in a turn of its own. May wait. Where memory is missing nothing is noted. Project rule.
#[inline]
pub fn note_down<R: Wait>(
    rt: &R,
    lock: &TurnLock<Tally>,
    pass: &mut Pass<Tally>,
    worker: u32,
    number: u32,
) -> Mem<()>
    requires own { lock_of pass.old ≡ lock.now }
    requires free { ((view_of pass.old).turn ≡ None) × ((view_of pass.old).number ≡ worker) }
    ensures own { lock_of pass.new ≡ lock.now }
    ensures free { ((view_of pass.new).turn ≡ None) × ((view_of pass.new).owed ≡ None) }
    ensures number { (view_of pass.new).number ≡ worker }
    ensures reach { (view_of pass.new).reach ≡ (view_of pass.old).reach }
    ensures weight { (view_of pass.new).weight ≡ (view_of pass.old).weight }
    ensures workers { (view_of pass.new).workers ≡ (view_of pass.old).workers }
    ensures noted { OnOk result (AddsNote worker number pass.old pass.new) }
    ensures err { OnErr result (SameNotes worker pass.old pass.new) }
{
    let Turn { mut value } = lock.take(rt, pass);
    let added = value.add(worker, number);
    lock.give(pass, Turn { value });
    added
}

/// What each worker does: how many numbers it notes; whether they go in rounds of so many workers, each resting until
/// all before it have noted (0: none rests); and how many milliseconds it sleeps before each note, without a turn and
/// with one. Project rule.
#[derive(Drop)]
pub struct Task {
    pub count: u32,
    pub round: u32,
    pub idle: u32,
    pub held: u32,
}

// Sleeps for so many milliseconds.
fn pause<R: Clock>(rt: &R, millis: u32) {
    if millis > 0 {
        thread::sleep(rt, Duration::from_millis(millis as u64));
    }
}

// A turn that is held for so many milliseconds and adds nothing: how many notes there are. May wait.
fn held<R: Wait + Clock>(
    rt: &R,
    lock: &TurnLock<Tally>,
    pass: &mut Pass<Tally>,
    worker: u32,
    millis: u32,
) -> u64
    requires rest { Rests lock.now worker pass.old }
    ensures rest { RestsAgain lock.now worker pass.old pass.new }
    ensures noted { SameNotes worker pass.old pass.new }
{
    let Turn { value } = lock.take(rt, pass);
    let notes = value.entries();
    pause(rt, millis);
    lock.give(pass, Turn { value });
    notes
}

// Rests until there are so many notes. May wait.
fn rest_until<R: Wait + Clock>(
    rt: &R,
    lock: &TurnLock<Tally>,
    pass: &mut Pass<Tally>,
    worker: u32,
    notes: u64,
)
    requires rest { Rests lock.now worker pass.old }
    ensures rest { RestsAgain lock.now worker pass.old pass.new }
    ensures noted { SameNotes worker pass.old pass.new }
{
    for _ in rt.forever() {
        if held(rt, lock, pass, worker, 0) >= notes {
            return;
        }
        lock.rest(rt, pass);
    }
    unreachable!()
}

// What a worker does before it notes a number. May wait.
fn come<R: Wait + Clock>(
    rt: &R,
    lock: &TurnLock<Tally>,
    pass: &mut Pass<Tally>,
    worker: u32,
    number: u32,
    task: &Task,
)
    requires rest { Rests lock.now worker pass.old }
    ensures rest { RestsAgain lock.now worker pass.old pass.new }
    ensures noted { SameNotes worker pass.old pass.new }
{
    if task.round > 0 {
        let before = (number as u64).wrapping_mul(task.round as u64);
        rest_until(rt, lock, pass, worker, before.wrapping_add(worker as u64));
    }
    pause(rt, task.idle);
    if task.held > 0 {
        held(rt, lock, pass, worker, task.held);
    }
}

// The worker's numbers, each noted in a turn. Where memory is missing it stops.
fn work<R: Wait + Clock>(
    rt: &R,
    lock: &TurnLock<Tally>,
    pass: &mut Pass<Tally>,
    worker: u32,
    task: &Task,
) -> Mem<()>
    requires rest { Rests lock.now worker pass.old }
    requires fresh { notes_of worker (view_of pass.old).seen ≡ [] }
    ensures rest { RestsAgain lock.now worker pass.old pass.new }
    ensures noted { OnOk result
        (notes_of worker (view_of pass.new).seen ≡ noted worker task.now.count) }
{
    for number in 0..task.count {
        come(rt, lock, pass, worker, number, task);
        note_down(rt, lock, pass, worker, number)?;
    }
    Ok(())
}

// The workers from `first` on below `reach`, by halves, each in a thread of its own.
#[cycle(halves)]
fn crew<R: Threads + Wait + Clock + Sync>(
    rt: &R,
    lock: &TurnLock<Tally>,
    pass: &mut Pass<Tally>,
    first: u32,
    reach: u32,
    task: &Task,
) -> Mem<()>
    requires rest { IsFor lock.now first reach pass.old }
    requires some_worker { first < reach }
    requires fresh { NoneNoted first reach pass.old }
    ensures rest { IsBack lock.now first reach pass.old pass.new }
    ensures noted { OnOk result (AllNoted first reach task.now.count pass.new) }
{
    if reach - first < 2 {
        return work(rt, lock, pass, first, task);
    }
    let middle = reach - (reach - first) / 2;
    let Ok(mut other) = lock.split(pass) else {
        unreachable!()
    };
    let (one, two) = fork(rt, lock, pass, &mut other, first, middle, reach, task);
    lock.join(pass, other);
    one?;
    two
}

// The workers below `middle` by the first pass and those from it on by the other, at the same time.
#[cycle(halves)]
fn fork<R: Threads + Wait + Clock + Sync>(
    rt: &R,
    lock: &TurnLock<Tally>,
    pass: &mut Pass<Tally>,
    other: &mut Pass<Tally>,
    first: u32,
    middle: u32,
    reach: u32,
    task: &Task,
) -> (Mem<()>, Mem<()>)
    requires rest { IsFor lock.now first middle pass.old }
    requires other_rest { IsFor lock.now middle reach other.old }
    requires some_worker { (first < middle) × (middle < reach) }
    requires fresh { NoneNoted first middle pass.old }
    requires other_fresh { NoneNoted middle reach other.old }
    ensures rest { IsBack lock.now first middle pass.old pass.new }
    ensures other_rest { IsBack lock.now middle reach other.old other.new }
    ensures noted { OnOk result.0 (AllNoted first middle task.now.count pass.new) }
    ensures other_noted { OnOk result.1 (AllNoted middle reach task.now.count other.new) }
{
    join_mut(
        rt,
        &mut || -> Mem<()>
            requires { IsSync R.row × IsFor lock.now first middle pass.now × (first < middle) ×
                NoneNoted first middle pass.now }
            ensures rest { IsBack lock.entry.now first middle pass.entry.now pass.exit.now }
            ensures noted { OnOk result (AllNoted first middle task.entry.now.count pass.exit.now) }
        { crew(rt, lock, pass, first, middle, task) },
        &mut || -> Mem<()>
            requires { IsSync R.row × IsFor lock.now middle reach other.now × (middle < reach) ×
                NoneNoted middle reach other.now }
            ensures rest { IsBack lock.entry.now middle reach other.entry.now other.exit.now }
            ensures noted { OnOk result
                (AllNoted middle reach task.entry.now.count other.exit.now) }
        { crew(rt, lock, other, middle, reach, task) },
    )
}

/// What so many workers note, each its task's numbers in a thread of its own: whatever the threads do, of each
/// worker's notes the first are just these numbers, in their order. May wait; where one has no memory, those that
/// rest until it has noted wait for ever. A turn for each note, and more where they go in rounds. Project rule.
pub fn tallied<R: Threads + Wait + Clock + Sync>(
    rt: &R,
    alloc: Global,
    workers: u32,
    task: &Task,
) -> Mem<Tally>
    requires { 0 < workers }
    ensures workers { IfOk result (λ tally. tally.workers ≡ workers) }
    ensures noted { IfOk result (λ tally. AllBegin workers task.now.count tally.notes.items) }
{
    let (lock, mut pass) = opened(alloc, workers)?;
    let noted = crew(rt, &lock, &mut pass, 0, workers, task);
    let tally = lock.close(pass);
    noted?;
    Ok(tally)
}
