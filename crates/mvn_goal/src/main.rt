//! The program `mvn_goal` runs one built-in goal as a child: it reads the request from standard input, and writes the answer to standard
//! output.
#![tactic(auto)]

use children::RealSource;
use goal_program::{FAULT, goal_main};
use outside_real::RealSink;
use std::os::fd::AsFd;
use std::process::{ChildStdin, ChildStdout, ExitCode};

// A duplicate of standard input, which is closed at its end.
fn input(rt: &HostRuntime) -> Option<ChildStdout> {
    let Ok(input) = rt.stdin().as_fd().try_clone_to_owned() else {
        return None;
    };
    Some(ChildStdout::from(input))
}

// A duplicate of standard output, which is written without a signal where nobody reads: a closed pipe is then a fault.
fn output(rt: &HostRuntime) -> Option<ChildStdin> {
    let Ok(out) = rt.stdout().as_fd().try_clone_to_owned() else {
        return None;
    };
    Some(ChildStdin::from(out))
}

fn run(rt: &HostRuntime) -> u8 {
    let Some(input) = input(rt) else {
        return FAULT;
    };
    let Some(out) = output(rt) else {
        return FAULT;
    };
    let mut source = RealSource::new(input);
    let mut sink = RealSink::new(out);
    goal_main(rt.alloc(), &mut source, &mut sink)
}

fn main(rt: HostRuntime) -> ExitCode {
    ExitCode::from(run(&rt))
}
