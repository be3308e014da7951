//! The program `mvn` does what its words ask for, and ends with the exit status of that.
#![tactic(auto)]

use mvn_call::NO_MEMORY;
use program::run;
use std::process::ExitCode;

fn main(rt: HostRuntime) -> ExitCode {
    ExitCode::from(run(&rt, &rt).unwrap_or(NO_MEMORY))
}
