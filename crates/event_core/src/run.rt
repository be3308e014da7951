// A build under way: the events so far, and whether one more may come.
ghost use Rattle.std.specs.Prelude.{◌≡◌, ◌<◌, ◌≤◌, ◌^◌, vec_capacity, [], ◌∷◌, ◌++◌, ◌↔◌, None, Some, find, length, IfErr, IfOk, OnOk};
ghost use Rattle.build_core.specs.Locks.{below};
ghost use Rattle.scripts.specs.Bounds.{most_events};
ghost use Rattle.event_core.specs.Causes.{cause_now};
ghost use Rattle.event_core.specs.Enabled.{Enabled, IsRun};
ghost use Rattle.event_core.specs.Fitting.{IsFit};
ghost use Rattle.event_core.specs.Going.{NamesAscend, NeverLocked, NeverWaits};
ghost use Rattle.scripts.specs.Outlines.{outline_of};
ghost use Rattle.scripts.specs.Scripts.{is_there};
ghost use Rattle.event_core.specs.HowFar.{is_ready, is_skippable, state_of};
ghost use Rattle.event_core.specs.Standing.{course_of, is_complete, module_of, standing_of};

use crate::refused::NotEnabled;
use crate::standing::Standing;
use build_core::{Event, Plan, State};
use mvn_shared::{List, Mem};
use scripts::outline::Outline;
use std::alloc::Global;
use std::marker::Model;

/// A build under way: the plan without its bytes, and the events so far. Project rule.
#[derive(Drop)]
pub struct Core {
    outline: Outline,
    history: Vec<Event>,
    standing: Standing,
}

// An event more, where there is room.
fn note(history: &mut Vec<Event>, event: Event)
    requires { length history.old.items < vec_capacity history.old }
    ensures items { history.new.items ≡ history.old.items ++ event ∷ [] }
    ensures capacity { vec_capacity history.old ≤ vec_capacity history.new }
{
    let _pushed = history.push(event);
}

impl Model for Core {
    ghost use Rattle.std.specs.Prelude.{List, vec_capacity};
    ghost use Rattle.build_core.specs.declared.event.Event.{Event};
    ghost use Rattle.scripts.specs.declared.outline.Outline.{Outline};
    ghost use Rattle.event_core.specs.Kept.{IsCore};

    ghost Value = { Outline × List Event };

    ghost view = { λ core. (core.outline, core.history.items) };

    ghost invariant = { λ core. IsCore core.outline core.history.items core.standing (vec_capacity core.history) };
}

impl Core {
    /// No event of a plan that has room, and fewer than 2^32 modules and names, has come. Reserves for the plan's greatest number of
    /// events; costs the plan's lists, and its names times its workers. Project rule.
    pub fn new(alloc: Global, plan: &Plan) -> Mem<Core>
        requires room { most_events (outline_of plan.now) ≤ plan.now.events }
        requires few { length plan.now.modules < 2 ^ 32 }
        requires names { length plan.now.names < 2 ^ 32 }
        ensures { IfOk result (λ core. core ≡ (outline_of plan.now, [])) }
    {
        Core::over(alloc, Outline::of(alloc, plan)?)
    }

    /// No event of an outline that has room has come. Reserves as `new` does.
    pub fn over(alloc: Global, outline: Outline) -> Mem<Core>
        requires room { most_events outline ≤ outline.events }
        requires few { length outline.modules < 2 ^ 32 }
        ensures { IfOk result (λ core. core ≡ (outline, [])) }
    {
        let history = Vec::with_capacity(alloc, outline.events as usize)?;
        let standing = Standing::new(alloc, &outline)?;
        Ok(Core {
            outline,
            history,
            standing,
        })
    }

    // Adds an event that may come.
    fn push(&mut self, event: Event)
        requires { Enabled self.old.0 self.old.1 event }
        ensures { self.new ≡ (self.old.0, self.old.1 ++ event ∷ []) }
    {
        self.standing.go(&self.outline, event);
        note(&mut self.history, event);
    }

    // The first cause for which an event may not come.
    fn first_cause(&self, event: Event) -> Option<NotEnabled>
        ensures first { result ≡ cause_now self.now.0 (standing_of self.now.0 self.now.1) event }
        ensures fit { IsFit self.now.0 (standing_of self.now.0 self.now.1) }
    {
        self.standing.cause(&self.outline, event)
    }

    /// The first cause for which an event may not come now: none exactly where `step` takes it. Costs what `step` does; takes no
    /// memory. Project rule.
    pub fn cause(&self, event: Event) -> Option<NotEnabled>
        ensures first { result ≡ cause_now self.now.0 (standing_of self.now.0 self.now.1) event }
        ensures none { (result ≡ None) ↔ Enabled self.now.0 self.now.1 event }
    {
        self.first_cause(event)
    }

    /// An event more, where it may come; else the first cause for which it may not, and nothing is changed. Takes no memory. Constant
    /// time on the average over a build, but for a take, which costs the number of workers: with each module that ends or is skipped,
    /// those that it is an upstream of are looked at, each once, and with the last name of a batch, a fetched file and a start the files
    /// of the fetch list that are there are passed over, each once or twice. Nothing grows with the events so far. Project rule.
    pub fn step(&mut self, event: Event) -> Result<(), NotEnabled>
        ensures ok { OnOk result (Enabled self.old.0 self.old.1 event
            × (self.new ≡ (self.old.0, self.old.1 ++ event ∷ []))) }
        ensures err { IfErr result (λ why.
            (cause_now self.old.0 (standing_of self.old.0 self.old.1) event ≡ Some why)
            × (self.new ≡ self.old)) }
    {
        match self.first_cause(event) {
            Some(cause) => Err(cause),
            None => {
                self.push(event);
                Ok(())
            }
        }
    }

    /// A law: where the plan is sound and no worker has left its script, a build never comes to a stand. Where a
    /// worker's due name is excluded by another's hold (`lock`), some other worker has an event that is due and may
    /// come; and where nothing may begin or be skipped and not all is over (`wait`), some worker has one. It rests on
    /// names being taken in ascending order (`names`, which needs no worker on its script). Does nothing. Resolver,
    /// "Named Locks"; a project rule as a law.
    pub fn never_stuck(&self)
        ensures lock { NeverLocked self.now.0 (standing_of self.now.0 self.now.1) }
        ensures wait { NeverWaits self.now.0 (standing_of self.now.0 self.now.1) }
        ensures names { NamesAscend self.now.0 (standing_of self.now.0 self.now.1) }
    {
        let _events = self.history.len();
    }

    /// A law: the events of a core are a run, in which each could follow those before it, and there are no more of them than its plan
    /// reserves. Does nothing. Project rule.
    pub fn runs_within_bound(&self)
        ensures run { IsRun self.now.0 [] self.now.1 }
        ensures bound { length self.now.1 ≤ self.now.0.events }
    {
        let _events = self.history.len();
    }

    /// The events so far. Constant time.
    pub fn events(&self) -> &[Event]
        ensures { result.now ≡ self.now.1 }
    {
        self.history.as_slice()
    }

    /// The first waiting module whose upstreams are all built. Takes no memory; costs a look at words of bits, one for 4,096 modules.
    pub fn ready(&self) -> Option<u32>
        ensures { result ≡ find (is_ready self.now.0 (standing_of self.now.0 self.now.1).progress)
            (below (length self.now.0.modules)) }
    {
        self.standing.modules.ready()
    }

    /// The first waiting module of which an upstream was skipped, or ended otherwise than built. Takes no memory; costs a look at words
    /// of bits, one for 4,096 modules.
    pub fn skippable(&self) -> Option<u32>
        ensures { result ≡ find (is_skippable self.now.0
            (standing_of self.now.0 self.now.1).progress) (below (length self.now.0.modules)) }
    {
        self.standing.modules.skippable()
    }

    /// The module that a worker builds. Constant time.
    pub fn module(&self, worker: u32) -> Option<u32>
        ensures { result ≡ module_of (course_of (standing_of self.now.0 self.now.1) worker) }
    {
        self.standing.course(worker).module()
    }

    /// The events, when nothing more is asked of the core. Takes no memory.
    pub fn into_events(self) -> List<Event>
        ensures { result ≡ self.1 }
    {
        let Core { history, .. } = self;
        List::of(history)
    }

    /// How a module stands. Constant time.
    pub fn state(&self, number: u32) -> State
        ensures { result ≡ state_of self.now.0 (standing_of self.now.0 self.now.1).progress number }
    {
        self.standing.modules.state(number)
    }

    /// Whether a file is there by now. Constant time.
    pub fn has(&self, file: u32) -> bool
        ensures { result ≡ is_there (standing_of self.now.0 self.now.1).there file }
    {
        self.standing
            .there
            .get(file as usize)
            .copied()
            .unwrap_or(false)
    }

    /// Whether each module has ended or was skipped. Constant time.
    pub fn is_complete(&self) -> bool
        ensures { result ≡ is_complete (standing_of self.now.0 self.now.1) }
    {
        self.standing.modules.is_complete()
    }
}
