//! Gives every crate that reads a project Maven's names, keys, coordinates, phases, paths, limits and refusals,
//! each defined in one place.
#![tactic(auto)]

pub mod fail_mode;
pub mod fault;
pub mod file_name;
pub mod gav;
mod joining;
pub mod key;
pub mod law;
pub mod limits;
pub mod machine;
pub mod names;
pub mod phase;
pub mod refusal;
pub mod rule;
pub mod setting;
pub mod type_rule;

pub use fail_mode::FailMode;
pub use fault::ModelError;
pub use file_name::{
    FileName, artifact_folder, entry_name, file_of, index_file, sidecar_name, version_in,
};
pub use gav::{Gav, lock_name};
pub use joining::joined;
pub use key::{Key, key_text};
pub use law::one_coordinate;
pub use limits::{
    MAVEN_PLUGINS, MOST_FILES, MOST_MODULES, MOST_OUTPUT, MOST_SOURCES, MOST_VERSIONS, POM_LIMIT,
};
pub use machine::{Choice, Machine, Pair};
pub use mvn_shared::{Bytes, FileMap, List, Mem, OutOfMemory, Text, TextError};
pub use names::{valid_group, valid_name, valid_version};
pub use phase::{Phase, phase_of};
pub use refusal::{Place, PomId, Refusal};
pub use rule::Rule;
pub use setting::Setting;
pub use type_rule::{TypeRule, handler};
