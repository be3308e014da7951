// The steps of a build: what an event that may come changes.
ghost use Rattle.std.specs.Prelude.{◌≡◌, ◌<◌, ℕ, false, true, None, List, [], Some, length, nat_lt, slice_set, slice_index_or, is_some};
ghost use Rattle.std.specs.List.{list_all};
ghost use Rattle.build_core.specs.Locks.{IsSeat, blocker, hold};
ghost use Rattle.scripts.specs.declared.outline.Outline.{Outline};
ghost use Rattle.event_core.specs.Enabled.{IsEnabled, is_due};
ghost use Rattle.scripts.specs.declared.deed.Deed.TheVariants.{Publish, Take};
ghost use Rattle.event_core.specs.declared.course.Course.{Course as KeptCourse};
ghost use Rattle.event_core.specs.declared.course.Course.TheVariants.{Idle};
ghost use Rattle.event_core.specs.Fitting.{IsFit, IsTied};
ghost use Rattle.event_core.specs.Holders.{CourseHolds, IsHeldThen};
ghost use Rattle.scripts.specs.Outlines.{is_listed};
ghost use Rattle.event_core.specs.HowFar.{is_over, progress_of};
ghost use Rattle.event_core.specs.Standing.{after, after_end, after_freed, after_publish, after_skip, after_start, after_take, closed, course_of, deed_done, held_by, module_of, turned_to};
ghost use Rattle.event_core.specs.Kept.{IsHolding, course_at, standing_in};

use crate::course::Course;
use crate::module_steps::Progress;
use crate::standing::Standing;
use build_core::{Ending, Event, Mode};
use scripts::deed::Deed;
use scripts::outline::Outline;

fn set_course(courses: &mut Vec<Course>, at: u32, value: Course)
    ensures { courses.new.items ≡ slice_set courses.old.items at value }
{
    if (at as usize) < courses.len() {
        courses[at as usize] = value;
    }
}

fn set_there(there: &mut Vec<bool>, at: u32)
    ensures { there.new.items ≡ slice_set there.old.items at true }
{
    if (at as usize) < there.len() {
        there[at as usize] = true;
    }
}

impl Standing {
    fn turn(&mut self, worker: u32, course: Course)
        ensures upstreams { self.new.modules.0 ≡ self.old.modules.0 }
        ensures at { (outline : Outline)
            → standing_in outline self.new ≡ turned_to (standing_in outline self.old) worker
            (course_at outline course) }
        ensures holdings { self.new.holdings ≡ self.old.holdings }
        ensures courses { self.new.courses.items ≡ slice_set self.old.courses.items worker course }
    {
        set_course(&mut self.courses, worker, course);
    }

    fn start(&mut self, outline: &Outline, worker: u32, number: u32)
        requires low { number < length self.old.modules.1 }
        requires open { is_over (progress_of self.old.modules.1 number) ≡ false }
        ensures upstreams { self.new.modules.0 ≡ self.old.modules.0 }
        ensures at { standing_in outline.now self.new
            ≡ after_start outline.now (standing_in outline.now self.old) worker number }
        ensures holdings { self.new.holdings ≡ self.old.holdings }
        ensures holding { IsHolding outline.now self.old
            → held_by (standing_in outline.now self.old) worker ≡ []
            → IsHolding outline.now self.new }
    {
        let empty = self.holds_none(worker);
        let course = Course::begun(outline, self.there.as_slice(), empty, number);
        self.modules.set(number, Progress::Running(worker));
        self.turn(worker, course);
    }

    fn skip(&mut self, number: u32)
        requires low { number < length self.old.modules.1 }
        requires open { is_over (progress_of self.old.modules.1 number) ≡ false }
        ensures upstreams { self.new.modules.0 ≡ self.old.modules.0 }
        ensures at { (outline : Outline)
            → standing_in outline self.new ≡ after_skip (standing_in outline self.old) number }
        ensures holdings { self.new.holdings ≡ self.old.holdings }
        ensures holding { (outline : Outline) → IsHolding outline self.old
            → IsHolding outline self.new }
    {
        self.modules.set(number, Progress::Skipped);
    }

    fn deed(&mut self, outline: &Outline, worker: u32, deed: Deed, answer: Option<u32>)
        ensures upstreams { self.new.modules.0 ≡ self.old.modules.0 }
        ensures at { standing_in outline.now self.new
            ≡ deed_done (standing_in outline.now self.old) worker deed answer }
        ensures holdings { self.new.holdings ≡ self.old.holdings }
        ensures holding { (course : KeptCourse)
            × (self.new.courses.items ≡ slice_set self.old.courses.items worker course)
            × ((before : List ℕ) → CourseHolds outline.now
            (slice_index_or self.old.courses.items worker Idle) before
            → is_due (course_of (standing_in outline.now self.old) worker) deed ≡ true
            → IsHeldThen deed before (held_by (standing_in outline.now self.old) worker)
            → CourseHolds outline.now course (held_by (standing_in outline.now self.old) worker)) }
    {
        let empty = self.holds_none(worker);
        let course = self.course(worker);
        let course = course.after_deed(outline, self.there.as_slice(), empty, deed, answer);
        self.turn(worker, course);
    }

    fn take(&mut self, outline: &Outline, worker: u32, name: u32, mode: Mode)
        requires seat { IsSeat self.old.holdings.0 name worker }
        requires free { hold self.old.holdings.0 name worker ≡ None }
        requires allowed { blocker self.old.holdings.0 name worker mode ≡ None }
        requires above { list_all (λ h. nat_lt h name)
            (held_by (standing_in outline.now self.old) worker) ≡ true }
        ensures upstreams { self.new.modules.0 ≡ self.old.modules.0 }
        ensures at { standing_in outline.now self.new
            ≡ after_take (standing_in outline.now self.old) worker name mode }
        ensures holding { IsHolding outline.now self.old → worker < outline.now.workers
            → is_due (course_of (standing_in outline.now self.old) worker) (Take mode name) ≡ true
            → IsHolding outline.now self.new }
    {
        self.holdings.take(name, worker, mode);
        self.deed(outline, worker, Deed::Take(mode, name), None);
    }

    fn free(&mut self, outline: &Outline, worker: u32, name: u32)
        requires seat { IsSeat self.old.holdings.0 name worker }
        requires holds { is_some (hold self.old.holdings.0 name worker) ≡ true }
        ensures upstreams { self.new.modules.0 ≡ self.old.modules.0 }
        ensures at { standing_in outline.now self.new
            ≡ after_freed outline.now (standing_in outline.now self.old) worker name }
        ensures holding { IsHolding outline.now self.old → worker < outline.now.workers
            → is_listed name (held_by (standing_in outline.now self.old) worker) ≡ true
            → IsHolding outline.now self.new }
    {
        self.holdings.free(name, worker);
        let empty = self.holds_none(worker);
        let course = self.course(worker);
        let course = course.after_free(outline, self.there.as_slice(), empty);
        self.turn(worker, course);
    }

    fn publish(&mut self, outline: &Outline, worker: u32, file: u32)
        ensures upstreams { self.new.modules.0 ≡ self.old.modules.0 }
        ensures at { standing_in outline.now self.new
            ≡ after_publish (standing_in outline.now self.old) worker file }
        ensures holdings { self.new.holdings ≡ self.old.holdings }
        ensures holding { IsHolding outline.now self.old → worker < outline.now.workers
            → is_due (course_of (standing_in outline.now self.old) worker) (Publish file) ≡ true
            → IsHolding outline.now self.new }
    {
        set_there(&mut self.there, file);
        self.deed(outline, worker, Deed::Publish(file), None);
    }

    fn close(&mut self, worker: u32, ending: Ending)
        requires running { (outline : Outline)
            × ((m : ℕ) → module_of (course_of (standing_in outline self.old) worker) ≡ Some m
            → (m < length self.old.modules.1)
            × (is_over (progress_of self.old.modules.1 m) ≡ false)) }
        ensures upstreams { self.new.modules.0 ≡ self.old.modules.0 }
        ensures at { (outline : Outline)
            → standing_in outline self.new ≡ closed (standing_in outline self.old) worker ending }
        ensures holdings { self.new.holdings ≡ self.old.holdings }
        ensures courses { self.new.courses ≡ self.old.courses }
    {
        match self.course(worker).module() {
            Some(number) => self.modules.set(number, Progress::Ended(ending)),
            None => {}
        }
    }

    fn end(&mut self, worker: u32, ending: Ending)
        requires running { (outline : Outline)
            × ((m : ℕ) → module_of (course_of (standing_in outline self.old) worker) ≡ Some m
            → (m < length self.old.modules.1)
            × (is_over (progress_of self.old.modules.1 m) ≡ false)) }
        ensures upstreams { self.new.modules.0 ≡ self.old.modules.0 }
        ensures at { (outline : Outline)
            → standing_in outline self.new ≡ after_end (standing_in outline self.old) worker
            ending }
        ensures holdings { self.new.holdings ≡ self.old.holdings }
        ensures holding { (outline : Outline) → IsHolding outline self.old
            → held_by (standing_in outline self.old) worker ≡ [] → IsHolding outline self.new }
    {
        self.close(worker, ending);
        self.turn(worker, Course::Idle);
    }

    /// What an event that may come changes.
    #[tactic(auto, unfolding(crate::specs::Standing::after))]
    pub(crate) fn go(&mut self, outline: &Outline, event: Event)
        requires fit { IsFit outline.now (standing_in outline.now self.old) }
        requires tied { IsTied outline.now (standing_in outline.now self.old) }
        requires enabled { IsEnabled outline.now (standing_in outline.now self.old) event }
        ensures upstreams { self.new.modules.0 ≡ self.old.modules.0 }
        ensures at { standing_in outline.now self.new
            ≡ after outline.now (standing_in outline.now self.old) event }
        ensures holding { IsHolding outline.now self.old → IsHolding outline.now self.new }
    {
        match event {
            Event::Start { worker, module } => self.start(outline, worker, module),
            Event::Skip { module } => self.skip(module),
            Event::Take { worker, name, mode } => self.take(outline, worker, name, mode),
            Event::Free { worker, name } => self.free(outline, worker, name),
            Event::Read { worker, file } => self.deed(outline, worker, Deed::Read(file), None),
            Event::Publish { worker, file } => self.publish(outline, worker, file),
            Event::Answer { worker, goal } => {
                self.deed(outline, worker, Deed::Answer(goal), Some(goal))
            }
            Event::End { worker, ending } => self.end(worker, ending),
        }
    }
}
