//! The text and the exit status of a call, and the five statuses.

use mvn_shared::Bytes;

/// What a call answers: the text that it writes, and the exit status.
#[derive(Drop)]
pub struct Outcome {
    pub text: Bytes,
    pub status: u8,
}

/// The status of a build whose modules are all built.
pub const BUILT: u8 = 0;

/// The status of a build of which some module isn't built.
pub const FAILED: u8 = 1;

/// The status of words or a project that are refused.
pub const REFUSED: u8 = 2;

/// The status after a fault of a device.
pub const FAULT: u8 = 3;

/// The status where memory ran out.
pub const NO_MEMORY: u8 = 4;
