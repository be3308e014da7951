//! The event core takes the events of a build one by one, each only where it may come, and tells where the build
//! stands.
//!
//! 1. `run::Core::new` keeps a plan without its bytes, and reserves room for the events of a whole run.
//! 2. An event, `build_core::Event`, is one step of a worker: it starts or ends a module, takes or frees a name,
//!    reads or publishes a file, or keeps an answer. Or a module is skipped.
//! 3. `causes::Standing::cause` says whether an event may come, and else the first cause, a `refused::NotEnabled`.
//! 4. A start wants a module that waits, upstreams that are all built, and an idle worker. A skip wants a module
//!    that waits and an upstream that is lost.
//! 5. A take wants that no other worker's hold excludes it, that the name is above those that the worker holds, and
//!    that the script has it next. A free wants only that the name is held.
//! 6. A read, a publish and an answer want that the script has them next. An end wants that no name is held, and
//!    that `course::Course` allows this ending.
//! 7. `moves::Standing::go` changes where the build stands, `standing::Standing`: `modules::Modules` (how far each
//!    module is), `course::Course` (where each worker is), `holdings::Holdings` (who holds which name), and which
//!    files are there.
//! 8. `run::Core::step` does both, and notes the event; `run::Core::cause` asks only.
//! 9. `run::Core::ready` and `run::Core::skippable` give the module that may begin or is to be skipped, without a
//!    look at each module.
//!
//! Laws, functions that do nothing: `run::Core::never_stuck` and `run::Core::runs_within_bound`.
#![tactic(auto)]

mod causes;
pub mod course;
pub mod entry;
mod follow;
mod holdings;
mod marks;
pub mod module_steps;
pub mod modules;
mod moves;
pub mod progress_edges;
pub mod refused;
mod run;
mod standing;

pub use entry::{Carried, RunEntry};
pub use module_steps::Progress;
pub use modules::Modules;
pub use refused::NotEnabled;
pub use run::Core;
pub use scripts::{ModuleOutline, Outline, deed, outline, rest, script_place};
