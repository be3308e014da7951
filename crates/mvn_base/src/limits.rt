//! The limits and fixed names that several crates keep, each in this one place.

/// The group of Maven's own plugins, which a plugin has where it declares none. POM Reference, "Plugins".
pub const MAVEN_PLUGINS: &str = "org.apache.maven.plugins";

/// The greatest number of bytes of a POM's text. Project rule.
pub const POM_LIMIT: u64 = 1_048_576;

/// The greatest number of names that a folder lists. Project rule.
pub const MOST_FILES: usize = 65_536;

/// The greatest number of bytes of a goal's output. Project rule.
pub const MOST_OUTPUT: u64 = 67_108_864;

/// The greatest number of bytes of a module's sources together. Project rule.
pub const MOST_SOURCES: u64 = 268_435_456;

/// The greatest number of versions of an artifact that a listing gives. Project rule.
pub const MOST_VERSIONS: usize = 4096;

/// The greatest number of POMs of a project besides its root's. Project rule.
pub const MOST_MODULES: u32 = 1_023;
