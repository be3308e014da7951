// The board and its calls that leave the repository alone.
ghost use Rattle.std.specs.Prelude.{◌≡◌, ℕ, ◌<◌, ◌≤◌, ◌^◌, [], ◌∷◌, ◌++◌, true, false, None, Some, is_some, length, replicate, slice_set, IfErr, IfOk, IfSome, OnOk};
ghost use Rattle.mvn_outside.specs.Shelf.{files_now};
ghost use Rattle.build_core.specs.declared.table.Tried.TheVariants.{Busy};
ghost use Rattle.build_core.specs.declared.event.Event.TheVariants as event;
ghost use Rattle.scripts.specs.Bounds.{most_events};
ghost use Rattle.event_core.specs.Causes.{cause_now};
ghost use Rattle.event_core.specs.Enabled.{Enabled, is_due};
ghost use Rattle.scripts.specs.Outlines.{outline_of};
ghost use Rattle.event_core.specs.Runs.{IsQuiet, IsRunOf, answers_in, contents, events_of, is_quiet_event};
ghost use Rattle.scripts.specs.Scripts.{is_there};
ghost use Rattle.event_core.specs.SoundPlans.{IsSoundPlan};
ghost use Rattle.event_core.specs.Standing.{course_of, is_complete, standing_of};
ghost use Rattle.scripts.specs.declared.deed.Deed.TheVariants.{Take};
ghost use Rattle.event_core.specs.declared.refused.NotEnabled.TheVariants.{Lock};
ghost use Rattle.board.specs.Tables.{goal_counts};
ghost use Rattle.run_law.specs.Given.{IsPresent, states_after};
ghost use Rattle.board.specs.Builds.{AnotherGoesOn, AreBusy, AreCaused, HasFiles, IsCalm, MayCome, NoneLeft, after_next, after_try, is_marked, module_at, next_at, next_in, opened, standing_at, tried_at, with_event, with_mark};
ghost use Rattle.board.specs.Keeping.{is_ending, is_plain};
ghost use Rattle.board.specs.Logs.{AreCarried, is_shelf_end, told_after};
ghost use Rattle.board.specs.declared.board.BoardError.TheVariants.{Memory};
ghost use Rattle.board.specs.declared.next.Next.TheVariants as next;

use crate::AnswerTable;
use crate::next::Next;
use crate::states::StateRoom;
use build_core::{Answered, Ending, Event, Mode, Plan, State, Tried};
use event_core::{Core, NotEnabled};
use mvn_outside::Shelf;
use mvn_shared::{List, Mem};
use run_law::bound::runs_fit_in;
use std::alloc::Global;
use std::marker::Model;
use std::snapshot::Snapshot;

/// What all workers of a build share: the build event by event, the repository, and the answers of its goals. Contracts see a
/// [`Build`]: the plan, the repository as it was given and as it is, the log, and of each worker a mark, which says that the repository
/// failed in the module that it builds. No call copies an event, an answer or the bytes of a file. Project rule.
#[derive(Drop)]
pub struct Board<'a, S: Shelf> {
    pub(crate) plan: &'a Plan,
    pub(crate) core: Core,
    pub(crate) shelf: S,
    pub(crate) opening: Snapshot<S>,
    pub(crate) answers: AnswerTable,
    pub(crate) marks: Vec<bool>,
    pub(crate) states: StateRoom,
}

impl<'a, S: Shelf> Model for Board<'a, S> {
    ghost use Rattle.board.specs.Builds.{Build};

    ghost Value = { Build S };

    ghost use Rattle.mvn_base.specs.contracts.setting.Setting as setting;
    ghost use Rattle.std.specs.Coded.{codes};

    ghost coded = { Prim.hlevel (codes, setting.the_row.coded) };

    ghost use Rattle.board.specs.Keeping.{IsBoard, log_by, room_of};

    ghost view = { λ b. record { plan = b.plan.now; opening = b.opening.value; shelf = b.shelf; log = log_by (S.told b.opening.value) (S.told b.shelf) b.answers.kept b.core.1; marks = b.marks.items } };

    ghost invariant = { λ b. IsBoard S.told S.faults b.plan.now b.core b.opening.value b.shelf b.answers.kept b.marks.items (room_of b.answers b.states) };
}

/// There was no memory; the repository comes back. Project rule.
#[derive(Drop)]
pub enum BoardError<S> {
    Memory(S),
}

/// What a whole build leaves: the repository, the events in order, the answers in the order in which they were kept, and how each
/// module ended. Project rule.
#[derive(Drop)]
pub struct Finished<S> {
    pub shelf: S,
    pub trace: List<Event>,
    pub answers: List<Answered>,
    pub states: List<State>,
}

// An event that may come.
pub(crate) fn step(core: &mut Core, event: Event)
    requires { Enabled core.old.0 core.old.1 event }
    ensures { core.new ≡ (core.old.0, core.old.1 ++ event ∷ []) }
{
    match core.step(event) {
        Ok(()) => {}
        Err(_) => unreachable!(),
    }
}

// What an idle worker does next.
fn next_in(core: &Core) -> Next
    ensures { result ≡ next_in core.now.0 (standing_of core.now.0 core.now.1) }
{
    if let Some(module) = core.skippable() {
        return Next::Skipped(module);
    }
    match core.ready() {
        Some(module) => Next::Module(module),
        None if core.is_complete() => Next::Done,
        None => Next::Wait,
    }
}

// Who keeps a worker from a name, where that is why it may not take it.
fn holder_of(why: NotEnabled) -> u32
    requires { (h : ℕ) × (why ≡ Lock h) }
    ensures { why ≡ Lock result }
{
    match why {
        NotEnabled::Lock(holder) => holder,
        _ => unreachable!(),
    }
}

pub(crate) fn set_mark(marks: &mut Vec<bool>, worker: u32, mark: bool)
    ensures { marks.new.items ≡ slice_set marks.old.items worker mark }
{
    if (worker as usize) < marks.len() {
        marks[worker as usize] = mark;
    }
}

// What a board is made of: a core without events, and room for answers, marks and states.
fn make_parts(alloc: Global, plan: &Plan) -> Mem<(Core, AnswerTable, Vec<bool>, StateRoom)>
    requires room { most_events (outline_of plan.now) ≤ plan.now.events }
    requires short { plan.now.events < 2 ^ 32 }
    requires few { length plan.now.modules < 2 ^ 32 }
    requires names { length plan.now.names < 2 ^ 32 }
    ensures core { IfOk result (λ r. r.0 ≡ (outline_of plan.now, [])) }
    ensures answers { IfOk result (λ r. (r.1.kept ≡ [])
        × (r.1.goals ≡ goal_counts plan.now.modules)
        × (plan.now.events ≤ r.1.room)) }
    ensures marks { IfOk result (λ r. r.2.items ≡ replicate plan.now.workers false) }
    ensures states { IfOk result (λ r. length plan.now.modules ≤ r.3) }
{
    let answers = AnswerTable::new(alloc, plan)?;
    let marks = vec![in alloc; false; plan.workers as usize]?;
    let states = StateRoom::new(alloc, plan.modules.len())?;
    let core = Core::new(alloc, plan)?;
    Ok((core, answers, marks, states))
}

impl<'a, S: Shelf> Board<'a, S> {
    /// The board of a build that hasn't begun, over a repository, for a plan of fewer than 2^32 events and names. Reserves for the plan's
    /// events first; costs the plan's lists. Where memory is missing the repository comes back. Project rule.
    pub fn new(alloc: Global, plan: &'a Plan, shelf: S) -> Result<Board<'a, S>, BoardError<S>>
        requires sound { IsSoundPlan plan.now }
        requires few { plan.now.events < 2 ^ 32 }
        requires names { length plan.now.names < 2 ^ 32 }
        requires present { IfSome (S.told shelf) (λ told. IsPresent plan.now (files_now told)) }
        ensures ok { IfOk result (λ board. board ≡ opened plan.now shelf) }
        ensures err { IfErr result (λ error. error ≡ Memory shelf) }
    {
        runs_fit_in();
        match make_parts(alloc, plan) {
            Ok((core, answers, marks, states)) => {
                let opening = Snapshot::of(&shelf);
                Ok(Board {
                    plan,
                    core,
                    shelf,
                    opening,
                    answers,
                    marks,
                    states,
                })
            }
            Err(_) => Err(BoardError::Memory(shelf)),
        }
    }

    // An event that carries nothing, where it may come; else the first cause for which it may not, and nothing is changed.
    fn try_event(&mut self, event: Event) -> Result<(), NotEnabled>
        requires plain { is_plain event ≡ true }
        requires within { is_ending event ≡ false }
        ensures ok { OnOk result (MayCome self.old event × (self.new ≡ with_event self.old event)) }
        ensures err { IfErr result (λ why.
            (cause_now (outline_of self.old.plan) (standing_at self.old) event ≡ Some why)
            × (self.new ≡ self.old)) }
    {
        self.core.step(event)
    }

    // An event that carries nothing and may come.
    fn go(&mut self, event: Event)
        requires plain { is_plain event ≡ true }
        requires within { is_ending event ≡ false }
        requires may { MayCome self.old event }
        ensures { self.new ≡ with_event self.old event }
    {
        match self.try_event(event) {
            Ok(()) => {}
            Err(_) => unreachable!(),
        }
    }

    /// What an idle worker does next: the first module that is to be skipped is skipped, else the first that may begin is begun, which is
    /// one event; else it waits, or all is done, without one. Where it waits and no worker has left its script, another goes on. Takes no
    /// memory; costs a look at words of bits, one for 4,096 modules. Guide to Working with Multiple Modules, for what is skipped;
    /// project rule.
    pub fn start(&mut self, worker: u32) -> Next
        requires worker { worker < self.old.plan.workers }
        requires idle { module_at self.old worker ≡ None }
        ensures next { result ≡ next_at self.old }
        ensures entry { self.new ≡ after_next self.old worker result }
        ensures wait { result ≡ next.Wait → NoneLeft self.old → AnotherGoesOn self.old worker }
    {
        self.core.never_stuck();
        let next = next_in(&self.core);
        match next {
            Next::Skipped(module) => self.go(Event::Skip { module }),
            Next::Module(module) => self.go(Event::Start { worker, module }),
            Next::Wait | Next::Done => {}
        }
        next
    }

    /// Takes a name that is due: one event; or none, where another's hold excludes it: then the least such worker is told, and where no
    /// worker has left its script another goes on. Takes no memory; costs the number of workers. Resolver, "Named Locks"; project rule.
    pub fn take(&mut self, worker: u32, name: u32, mode: Mode) -> Tried
        requires worker { worker < self.old.plan.workers }
        requires due { is_due (course_of (standing_at self.old) worker) (Take mode name) ≡ true }
        ensures tried { result ≡ tried_at self.old worker name mode }
        ensures entry { self.new ≡ after_try self.old worker name mode result }
        ensures busy { (h : ℕ) → result ≡ Busy h → NoneLeft self.old
            → AnotherGoesOn self.old worker }
    {
        self.core.never_stuck();
        match self.try_event(Event::Take { worker, name, mode }) {
            Ok(()) => Tried::Taken,
            Err(why) => Tried::Busy(holder_of(why)),
        }
    }

    /// Frees a name that the worker holds: one event. Takes no memory; constant time. Resolver, "Named Locks".
    pub fn free(&mut self, worker: u32, name: u32)
        requires may { MayCome self.old (event.Free worker name) }
        ensures entry { self.new ≡ with_event self.old (event.Free worker name) }
    {
        self.go(Event::Free { worker, name });
    }

    /// Ends the worker's module: one event. It may end by a fault of the repository only where the worker is marked, and where it is
    /// marked only by a fault or for want of memory; it is marked no more. Takes no memory; costs a look at each module that it is an
    /// upstream of. Project rule.
    pub fn end(&mut self, worker: u32, ending: Ending)
        requires may { MayCome self.old (event.End worker ending) }
        requires marked { is_shelf_end (event.End worker ending) ≡ true
            → is_marked self.old worker ≡ true }
        requires honest { is_marked self.old worker ≡ true
            → is_quiet_event (event.End worker ending) ≡ false }
        ensures entry { self.new
            ≡ with_mark (with_event self.old (event.End worker ending)) worker false }
    {
        step(&mut self.core, Event::End { worker, ending });
        set_mark(&mut self.marks, worker, false);
    }

    /// Whether a file is there by now: it was there at the start, or was published. No event; takes no memory; constant time.
    pub fn has(&self, file: u32) -> bool
        ensures { result ≡ is_there (standing_at self.now).there file }
    {
        self.core.has(file)
    }

    /// A worker's mark: whether the repository failed in the module that it builds. No event; takes no memory; constant time.
    pub fn shelf_failed(&self, worker: u32) -> bool
        ensures { result ≡ is_marked self.now worker }
    {
        self.marks.get(worker as usize).copied().unwrap_or(false)
    }

    /// The repository as it was given, where nothing has happened. Takes no memory; constant time.
    pub fn give_up(self) -> S
        requires unbegun { self.log ≡ [] }
        ensures given { result ≡ self.entry.opening }
    {
        let Board { shelf, .. } = self;
        shelf
    }

    /// What the build leaves, where each module has ended or was skipped. The repository's count of faults is never less than at the start;
    /// if no module ended by a fault or for want of memory, the repository never failed: its count is as at the start. Takes no memory;
    /// costs a look at each module. Project rule.
    pub fn finish(self) -> Finished<S>
        requires complete { is_complete (standing_at self) ≡ true }
        ensures shelf { result.shelf ≡ self.entry.shelf }
        ensures trace { result.trace ≡ events_of self.entry.log }
        ensures answers { result.answers ≡ answers_in self.entry.plan self.entry.log }
        ensures states { result.states ≡ states_after self.entry.plan self.entry.log }
        ensures calm { IsQuiet self.entry.log
            → S.faults result.shelf ≡ S.faults self.entry.opening }
        ensures no_fall { S.faults self.entry.opening ≤ S.faults result.shelf }
    {
        self.core.runs_within_bound();
        let Board {
            plan,
            core,
            shelf,
            answers,
            states,
            ..
        } = self;
        let all = states.states(&core, plan);
        Finished {
            shelf,
            trace: core.into_events(),
            answers: answers.into_answers(),
            states: all,
        }
    }

    /// A law: what a board keeps. Its log is a run of its plan, no longer than the plan's events, and each entry
    /// carries what it has to; what the repository tells is what it told at the start with the log's publishes after
    /// it; `present` says which of the plan's files it had then, and `has` which it has now, as the log puts them;
    /// where it tells, its faults are at least as many as the modules that ended by them and the workers that are
    /// marked; where no module ended by a fault or for want of memory and none is marked, they are as many as at the
    /// start; and who is marked builds a module. Does nothing. Project rule.
    pub fn keeps(&self)
        ensures run { IsRunOf self.now.plan self.now.log }
        ensures bound { length self.now.log ≤ self.now.plan.events }
        ensures told { S.told self.now.shelf
            ≡ told_after self.now.plan self.now.log (S.told self.now.opening) }
        ensures caused { AreCaused (S.told self.now.opening) (S.faults self.now.opening)
            (S.faults self.now.shelf) self.now.log self.now.marks }
        ensures calm { IsCalm (S.faults self.now.opening) (S.faults self.now.shelf)
            self.now.log self.now.marks }
        ensures busy { AreBusy (standing_at self.now) self.now.marks }
        ensures marks { length self.now.marks ≡ self.now.plan.workers }
        ensures sound { IsSoundPlan self.now.plan }
        ensures present { IfSome (S.told self.now.opening)
            (λ told. IsPresent self.now.plan (files_now told)) }
        ensures carried { AreCarried (is_some (S.told self.now.opening)) self.now.log }
        ensures there { IfSome (S.told self.now.shelf) (HasFiles self.now) }
        ensures contents { IfSome (S.told self.now.opening) (λ first.
            IfSome (S.told self.now.shelf) (λ told.
            files_now told ≡ contents self.now.plan (files_now first) self.now.log)) }
    {
        self.core.runs_within_bound();
    }
}
