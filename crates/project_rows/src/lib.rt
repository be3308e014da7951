//! Rows about projects over objects in memory are answered: which POMs are found, which modules are selected, and what the plan is.
//!
//! A row is a word and fields, with a bar between two of these. A field is spelled as `row_models` says.
//!
//! Rows of the table `plan` (`plans::push_told`): the first field has the words of a command line, and each further one a file:
//!
//! - `order WORDS|FILE|..`: the artifacts of the modules that are built, in their order, each with the places of those that it stands on
//! - `plan WORDS|FILE|..`: the names and the files of the plan, with a star after each file that is there at the start, and a line for
//!   each module: what its numbers are, the entries of its classpaths, and its sources
//! - `count WORDS|FILE|..`: how many modules, names and files the plan has, its workers, its events, and the first module's budget
//! - `failing DEVICE N WORDS|FILE|..`: the first of these, where the device's call with this number fails
//! - `faults DEVICE WORDS|FILE|..`: the same for each call of the device in turn: how many there are, and what is told once none fails
//! - `wide N WORDS`: the counts of a project with a root and N modules, of which each depends on the first
//! - `many N WORDS`: the first of these, of a root and the modules `a` and `b`, where `b` has N sources
//!
//! A file of a plan's project is one of these:
//!
//! - `m PATH ARTIFACT POM`: a POM of the project, after the coordinates demo:ARTIFACT:1.0; `f PATH BYTES`: any file of the project
//! - `l GROUP ARTIFACT VERSION POM`, `r GROUP ARTIFACT VERSION POM`: a POM of the local or of the remote repository, after these
//!   coordinates
//!
//! Where there is no plan, the answer is the refusal, `word N UnknownModule`, or the device that failed.
//!
//! Rows of the table `discovery` (`discovered::push_told`): the answer is one line, the paths of the POMs in order or why there are none:
//!
//! - `discover IDS|PATH POM|PATH POM ..`: the project of these files, with these profiles switched on. A POM stands after the coordinates
//!   g:a:1
//! - `discover-failing N|PATH POM ..`: the same, where the call with this number fails
//! - `discover-wide N`: how many POMs there are of a root that lists N modules; `discover-deep N`: of N POMs of which each lists the next
//! - `select WORDS|PATH ARTIFACT POM|..`: the artifacts of the modules that the words of a command line select, in the order in which
//!   they are built; a POM stands after the coordinates demo:ARTIFACT:1.0
#![tactic(auto)]

pub mod discovered;
mod ordering;
mod planning;
mod plans;

pub use plans::push_told;
