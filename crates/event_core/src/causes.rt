// Why an event may not come: the first cause, in its order.
ghost use Rattle.std.specs.Prelude.{◌≡◌, ◌&&◌, ℕ, List, nat_lt, None, Some, if◌then◌else◌};
ghost use Rattle.build_core.specs.Locks.{names_of, workers_of};
ghost use Rattle.scripts.specs.declared.outline.Outline.{Outline};
ghost use Rattle.event_core.specs.declared.refused.NotEnabled.TheVariants.{Unordered, Upstream, Worker};
ghost use Rattle.event_core.specs.Fronts.{upstreams};
ghost use Rattle.event_core.specs.HowFar.{first_not_built};
ghost use Rattle.event_core.specs.Standing.{course_of, held_by, module_of};
ghost use Rattle.scripts.specs.Outlines.{is_empty};
ghost use Rattle.event_core.specs.Standing as definition;
ghost use Rattle.event_core.specs.Enabled.{ending_in_range, is_due, may_end_so};
ghost use Rattle.event_core.specs.Causes.{answer_cause, begin_cause, by_file, cause_now, end_cause, file_cause, free_cause, free_end, hold_cause, last_of, not_below, number_of, skip_cause, stage_at, start_cause, take_cause, unless, where_found, wrong_end};
ghost use Rattle.event_core.specs.Kept.{course_at, standing_in};

use crate::course::Course;
use crate::module_steps::is_waiting;
use crate::refused::NotEnabled;
use crate::standing::Standing;
use build_core::{Ending, Event, Mode};
use scripts::deed::Deed;
use scripts::outline::Outline;

// The greatest name that is held, where it isn't below this one.
fn not_below(greatest: Option<u32>, name: u32) -> Option<u32>
    ensures { (held : List ℕ) → greatest ≡ last_of held → result ≡ not_below name held }
{
    match greatest {
        Some(greatest) => above(greatest, name),
        None => None,
    }
}

fn above(greatest: u32, name: u32) -> Option<u32>
    ensures { result ≡ (if nat_lt greatest name then None else Some greatest) }
{
    if greatest < name {
        None
    } else {
        Some(greatest)
    }
}

fn by_file(due: Option<u32>, stage: u32) -> NotEnabled
    ensures { (course : definition.Course) → stage ≡ stage_at course → result ≡ by_file due course }
{
    match due {
        Some(file) => NotEnabled::File(file),
        None => NotEnabled::Stage(stage),
    }
}

// The number of an ending.
fn number_of(ending: Ending) -> u32
    ensures { result ≡ number_of ending }
{
    match ending {
        Ending::Goal(goal) => goal,
        Ending::OutputTooLarge(goal) => goal,
        Ending::Missing(file) => file,
        _ => 0,
    }
}

// Why a worker that holds no name may not end so.
fn free_end(outline: &Outline, course: Course, ending: Ending) -> NotEnabled
    ensures { result ≡ free_end (course_at outline.now course) ending }
{
    match ending {
        Ending::Missing(_) => by_file(course.missing(outline), course.stage(outline)),
        _ => NotEnabled::Stage(course.stage(outline)),
    }
}

impl Standing {
    pub(crate) fn start_cause(
        &self,
        outline: &Outline,
        worker: u32,
        number: u32,
    ) -> Option<NotEnabled>
        requires upstreams { self.now.modules.0 ≡ upstreams outline.now }
        ensures { result ≡ start_cause outline.now (standing_in outline.now self.now) worker
            number }
    {
        if worker >= outline.workers {
            return Some(NotEnabled::Range(worker));
        }
        if number as usize >= outline.modules.len() {
            return Some(NotEnabled::Range(number));
        }
        if !is_waiting(self.modules.progress(number)) {
            return Some(NotEnabled::Module(self.modules.state(number)));
        }
        self.begin_cause(outline, worker, number)
    }

    fn begin_cause(&self, outline: &Outline, worker: u32, number: u32) -> Option<NotEnabled>
        requires upstreams { self.now.modules.0 ≡ upstreams outline.now }
        ensures { result ≡ begin_cause outline.now (standing_in outline.now self.now) worker
            number }
    {
        match self.upstream_cause(outline, number) {
            Some(cause) => Some(cause),
            None => self.busy_cause(worker),
        }
    }

    fn upstream_cause(&self, outline: &Outline, number: u32) -> Option<NotEnabled>
        requires upstreams { self.now.modules.0 ≡ upstreams outline.now }
        ensures { result ≡ where_found
            (first_not_built outline.now (standing_in outline.now self.now).progress number)
            (λ u. Upstream u) None }
    {
        match self.modules.first_unbuilt(number) {
            Some(upstream) => Some(NotEnabled::Upstream(upstream)),
            None => None,
        }
    }

    fn busy_cause(&self, worker: u32) -> Option<NotEnabled>
        ensures { (outline : Outline)
            → result ≡ where_found (module_of (course_of (standing_in outline self.now) worker))
            (λ at. Worker at) None }
    {
        match self.course(worker).module() {
            Some(number) => Some(NotEnabled::Worker(number)),
            None => None,
        }
    }

    pub(crate) fn skip_cause(&self, outline: &Outline, number: u32) -> Option<NotEnabled>
        requires upstreams { self.now.modules.0 ≡ upstreams outline.now }
        ensures { result ≡ skip_cause outline.now (standing_in outline.now self.now) number }
    {
        if number as usize >= outline.modules.len() {
            return Some(NotEnabled::Range(number));
        }
        if is_waiting(self.modules.progress(number)) && self.modules.first_lost(number).is_some() {
            return None;
        }
        Some(NotEnabled::Module(self.modules.state(number)))
    }

    // Why a deed that no name is taken by may not come: unless it is due, the file that is, or the stage.
    fn deed_cause(
        &self,
        outline: &Outline,
        worker: u32,
        deed: Deed,
        due: Option<u32>,
    ) -> Option<NotEnabled>
        ensures { result ≡ unless (is_due (course_of (standing_in outline.now self.now) worker)
            deed) (by_file due (course_of (standing_in outline.now self.now) worker)) None }
    {
        let course = self.course(worker);
        if course.is_due(outline, deed) {
            return None;
        }
        Some(by_file(due, course.stage(outline)))
    }

    fn order_cause(&self, worker: u32, name: u32) -> Option<NotEnabled>
        ensures { (outline : Outline)
            → result ≡ where_found (not_below name (held_by (standing_in outline self.now) worker))
            (λ h. Unordered h) None }
    {
        match not_below(self.holdings.greatest(worker), name) {
            Some(greatest) => Some(NotEnabled::Unordered(greatest)),
            None => None,
        }
    }

    pub(crate) fn take_cause(
        &self,
        outline: &Outline,
        worker: u32,
        name: u32,
        mode: Mode,
    ) -> Option<NotEnabled>
        requires seats { (names_of self.now.holdings.0 ≡ outline.now.names)
            × (workers_of self.now.holdings.0 ≡ outline.now.workers) }
        ensures cause { result ≡ take_cause outline.now (standing_in outline.now self.now) worker
            name mode }
    {
        if worker >= outline.workers {
            return Some(NotEnabled::Range(worker));
        }
        if name >= outline.names {
            return Some(NotEnabled::Range(name));
        }
        if let Some(holder) = self.holdings.blocker(name, worker, mode) {
            return Some(NotEnabled::Lock(holder));
        }
        self.hold_cause(outline, worker, name, mode)
    }

    fn hold_cause(
        &self,
        outline: &Outline,
        worker: u32,
        name: u32,
        mode: Mode,
    ) -> Option<NotEnabled>
        ensures { result ≡ hold_cause (standing_in outline.now self.now) worker name mode }
    {
        match self.order_cause(worker, name) {
            Some(cause) => Some(cause),
            None => self.deed_cause(outline, worker, Deed::Take(mode, name), None),
        }
    }

    pub(crate) fn free_cause(&self, outline: &Outline, worker: u32, name: u32) -> Option<NotEnabled>
        ensures { result ≡ free_cause outline.now (standing_in outline.now self.now) worker name }
    {
        if worker >= outline.workers {
            return Some(NotEnabled::Range(worker));
        }
        if name >= outline.names {
            return Some(NotEnabled::Range(name));
        }
        if self.holdings.holds(name, worker).is_some() {
            return None;
        }
        Some(NotEnabled::Stage(self.course(worker).stage(outline)))
    }

    pub(crate) fn file_cause(
        &self,
        outline: &Outline,
        worker: u32,
        file: u32,
        deed: Deed,
        due: Option<u32>,
    ) -> Option<NotEnabled>
        ensures { result ≡ file_cause outline.now (standing_in outline.now self.now) worker file
            deed due }
    {
        if worker >= outline.workers {
            return Some(NotEnabled::Range(worker));
        }
        if file as usize >= outline.present.len() {
            return Some(NotEnabled::Range(file));
        }
        self.deed_cause(outline, worker, deed, due)
    }

    pub(crate) fn answer_cause(
        &self,
        outline: &Outline,
        worker: u32,
        goal: u32,
    ) -> Option<NotEnabled>
        ensures { result ≡ answer_cause outline.now (standing_in outline.now self.now) worker goal }
    {
        if worker >= outline.workers {
            return Some(NotEnabled::Range(worker));
        }
        if !self.course(worker).has_goal(outline, goal) {
            return Some(NotEnabled::Range(goal));
        }
        self.deed_cause(outline, worker, Deed::Answer(goal), None)
    }

    fn is_in_range(&self, outline: &Outline, worker: u32, ending: Ending) -> bool
        ensures { result ≡ ending_in_range outline.now
            (course_of (standing_in outline.now self.now) worker) ending }
    {
        match ending {
            Ending::Goal(goal) => self.course(worker).has_goal(outline, goal),
            Ending::OutputTooLarge(goal) => self.course(worker).has_goal(outline, goal),
            Ending::Missing(file) => (file as usize) < outline.present.len(),
            _ => true,
        }
    }

    fn wrong_end(&self, outline: &Outline, worker: u32, ending: Ending) -> NotEnabled
        ensures { result ≡ wrong_end (course_of (standing_in outline.now self.now) worker)
            (held_by (standing_in outline.now self.now) worker) ending }
    {
        let course = self.course(worker);
        if self.holds_none(worker) {
            free_end(outline, course, ending)
        } else {
            NotEnabled::Stage(course.stage(outline))
        }
    }

    fn may_end(&self, outline: &Outline, worker: u32, ending: Ending) -> bool
        ensures { result ≡ (is_empty (held_by (standing_in outline.now self.now) worker) &&
            may_end_so outline.now (course_of (standing_in outline.now self.now) worker) ending) }
    {
        self.holds_none(worker) && self.course(worker).may_end(outline, ending)
    }

    pub(crate) fn end_cause(
        &self,
        outline: &Outline,
        worker: u32,
        ending: Ending,
    ) -> Option<NotEnabled>
        ensures { result ≡ end_cause outline.now (standing_in outline.now self.now) worker ending }
    {
        if worker >= outline.workers {
            return Some(NotEnabled::Range(worker));
        }
        if !self.is_in_range(outline, worker, ending) {
            return Some(NotEnabled::Range(number_of(ending)));
        }
        if self.may_end(outline, worker, ending) {
            return None;
        }
        Some(self.wrong_end(outline, worker, ending))
    }

    /// The first cause for which an event may not come.
    #[tactic(auto, unfolding(crate::specs::Causes::cause_now))]
    pub(crate) fn cause(&self, outline: &Outline, event: Event) -> Option<NotEnabled>
        requires seats { (names_of self.now.holdings.0 ≡ outline.now.names)
            × (workers_of self.now.holdings.0 ≡ outline.now.workers) }
        requires upstreams { self.now.modules.0 ≡ upstreams outline.now }
        ensures cause { result ≡ cause_now outline.now (standing_in outline.now self.now) event }
    {
        match event {
            Event::Start { worker, module } => self.start_cause(outline, worker, module),
            Event::Skip { module } => self.skip_cause(outline, module),
            Event::Take { worker, name, mode } => self.take_cause(outline, worker, name, mode),
            Event::Free { worker, name } => self.free_cause(outline, worker, name),
            Event::Read { worker, file } => {
                let due = self.course(worker).to_read(outline);
                self.file_cause(outline, worker, file, Deed::Read(file), due)
            }
            Event::Publish { worker, file } => {
                let due = self.course(worker).to_publish(outline);
                self.file_cause(outline, worker, file, Deed::Publish(file), due)
            }
            Event::Answer { worker, goal } => self.answer_cause(outline, worker, goal),
            Event::End { worker, ending } => self.end_cause(outline, worker, ending),
        }
    }
}
