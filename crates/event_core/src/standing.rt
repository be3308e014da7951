// Where a build stands, and each step of it.
ghost use Rattle.std.specs.Prelude.{◌≡◌, ◌<◌, ◌^◌, slice_index_or, length, IfOk};
ghost use Rattle.scripts.specs.declared.outline.Outline.{Outline};
ghost use Rattle.event_core.specs.Fronts.{upstreams};
ghost use Rattle.event_core.specs.Standing.{at_first, course_of, held_by};
ghost use Rattle.scripts.specs.Outlines.{is_empty};
ghost use Rattle.event_core.specs.declared.course.Course.TheVariants.{Idle};
ghost use Rattle.event_core.specs.Kept.{IsHolding, course_at, standing_in};

use crate::course::Course;
use crate::holdings::Holdings;
use crate::modules::Modules;
use mvn_shared::Mem;
use scripts::outline::Outline;
use std::alloc::Global;

/// Where a build stands, as a core keeps it: how far each module is, what each worker is at, which names it holds and how, and which files
/// are there.
#[derive(Drop)]
pub(crate) struct Standing {
    pub(crate) modules: Modules,
    pub(crate) courses: Vec<Course>,
    pub(crate) holdings: Holdings,
    pub(crate) there: Vec<bool>,
}

impl Standing {
    /// Where nothing has happened.
    pub(crate) fn new(alloc: Global, outline: &Outline) -> Mem<Standing>
        requires { length outline.now.modules < 2 ^ 32 }
        ensures at { IfOk result (λ standing. standing_in outline.now standing
            ≡ at_first outline.now) }
        ensures holding { IfOk result (IsHolding outline.now) }
        ensures upstreams { IfOk result (λ standing. standing.modules.0 ≡ upstreams outline.now) }
    {
        let modules = Modules::new(alloc, outline)?;
        let courses = vec![in alloc; Course::Idle; outline.workers as usize]?;
        let holdings = Holdings::new(alloc, outline.names, outline.workers)?;
        let there = Vec::from_slice(alloc, outline.present.as_slice())?;
        Ok(Standing {
            modules,
            courses,
            holdings,
            there,
        })
    }

    pub(crate) fn course(&self, worker: u32) -> Course
        ensures at { (outline : Outline)
            → course_at outline result ≡ course_of (standing_in outline self.now) worker }
        ensures item { result ≡ slice_index_or self.now.courses.items worker Idle }
    {
        self.courses
            .get(worker as usize)
            .copied()
            .unwrap_or(Course::Idle)
    }

    pub(crate) fn holds_none(&self, worker: u32) -> bool
        ensures { (outline : Outline)
            → result ≡ is_empty (held_by (standing_in outline self.now) worker) }
    {
        self.holdings.has_none(worker)
    }
}
