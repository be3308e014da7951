// One child of the system. While its input takes no more, its output is read ahead, so that neither waits for the other.
ghost use Rattle.std.specs.Prelude.{◌≤◌, ◌<◌, length, IfOk};

use crate::Failed;
use crate::count::fault_of;
use crate::pipes::{read_some, wait_for_either, write_some};
use mvn_outside::DeviceFault;
use mvn_shared::Text;
use std::alloc::Global;
use std::os::fd::AsRawFd;
use std::os::unix::process::ExitStatusExt;
use std::process::{Child, ChildStdin, Command, ExitStatus, Processes, Stdio, SystemProcess};

/// How many bytes of output are read ahead at most: more than an answer has. What is longer is no answer, so its child
/// needs no more input.
const MOST_AHEAD: usize = 67_174_402;

/// How many bytes are read ahead at a time.
const PART: usize = 8192;

/// The status of a child that a signal ended is 128 and the signal's number, as shells have it.
const SIGNALLED: i32 = 128;

/// A child of the system, and what was read of its output ahead of time.
#[derive(Drop)]
pub(crate) struct RealChild {
    process: Child<SystemProcess>,
    ahead: Vec<u8>,
    taken: usize,
    ended: bool,
}

impl RealChild {
    /// Starts a program without arguments, with pipes as its input and output.
    pub(crate) fn start<R: Processes<Started = SystemProcess>>(
        rt: &R,
        alloc: Global,
        program: &Text,
    ) -> Result<RealChild, DeviceFault> {
        let Ok(mut command) = Command::new(alloc, program.as_str()) else {
            return Err(DeviceFault::Memory);
        };
        command.stdin(Stdio::piped()).stdout(Stdio::piped());
        match command.spawn(rt) {
            Ok(process) => Ok(RealChild {
                process,
                ahead: Vec::new(alloc),
                taken: 0,
                ended: false,
            }),
            Err(e) => Err(fault_of(&e)),
        }
    }

    // Reads a part of the output ahead.
    fn read_ahead(&mut self) -> Result<(), DeviceFault> {
        let Some(stdout) = &mut self.process.stdout else {
            self.ended = true;
            return Ok(());
        };
        let mut part = [0u8; PART];
        let Ok(count) = read_some(stdout, &mut part) else {
            return Err(DeviceFault::Failed);
        };
        if count == 0 {
            self.ended = true;
        }
        match self.ahead.extend_from_slice(&part[..count]) {
            Ok(()) => Ok(()),
            Err(_) => Err(DeviceFault::Memory),
        }
    }

    // The number of the output's descriptor, below 0 once it has ended.
    fn output_fd(&self) -> i32 {
        match &self.process.stdout {
            Some(stdout) => if self.ended { -1 } else { stdout.as_raw_fd() },
            None => -1,
        }
    }

    // Writes a part of the bytes as soon as the input takes some, and reads the output ahead until then.
    fn write_in_turn(&mut self, stdin: &mut ChildStdin, bytes: &[u8]) -> Result<usize, DeviceFault>
        ensures within { IfOk result (λ count. count ≤ length bytes.now) }
        ensures progress { IfOk result (λ count. 0 < length bytes.now → 0 < count) }
    {
        for _ in 0..u64::MAX {
            if self.ahead.len() >= MOST_AHEAD {
                return Ok(bytes.len());
            }
            let Ok(ready) = wait_for_either(stdin.as_raw_fd(), self.output_fd()) else {
                return Err(DeviceFault::Failed);
            };
            if ready.input {
                return write_some(stdin, bytes);
            }
            if ready.output {
                self.read_ahead()?;
            }
        }
        Err(DeviceFault::Failed)
    }

    /// Gives the child a part of the bytes, at least one where there is one. A child that has ended, or has closed its input, takes all
    /// of them. An input that was closed here takes none.
    pub(crate) fn write(&mut self, bytes: &[u8]) -> Result<usize, DeviceFault>
        ensures within { IfOk result (λ count. count ≤ length bytes.now) }
        ensures progress { IfOk result (λ count. 0 < length bytes.now → 0 < count) }
    {
        let Some(mut stdin) = self.process.stdin.take() else {
            return Err(DeviceFault::Failed);
        };
        let answer = self.write_in_turn(&mut stdin, bytes);
        self.process.stdin = Some(stdin);
        answer
    }

    /// Closes the child's input.
    pub(crate) fn close_input(&mut self) {
        drop(self.process.stdin.take());
    }

    // Gives bytes that were read ahead, as many as fit, and says how many.
    fn read_kept(&mut self, into: &mut [u8]) -> usize
        ensures { result ≤ length into.new }
    {
        let Some(rest) = self.ahead.get(self.taken..) else {
            return 0;
        };
        let count = into.len().min(rest.len());
        into[..count].copy_from_slice(&rest[..count]);
        self.taken = self.taken.saturating_add(count);
        count
    }

    /// The next bytes of the output, first those that were read ahead.
    pub(crate) fn read(&mut self, into: &mut [u8]) -> Result<usize, Failed>
        ensures { IfOk result (λ count. count ≤ length into.new) }
    {
        let count = self.read_kept(into);
        if count > 0 {
            return Ok(count);
        }
        match &mut self.process.stdout {
            Some(stdout) => if self.ended {
                Ok(0)
            } else {
                read_some(stdout, into)
            },
            None => Ok(0),
        }
    }

    /// Waits for the child's end.
    pub(crate) fn wait(&mut self) -> Result<i32, Failed> {
        match self.process.wait() {
            Ok(status) => Ok(status_of(status)),
            Err(_) => Err(Failed),
        }
    }

    /// Ends the child, and waits until it has ended, so that nothing of it stays.
    pub(crate) fn kill(&mut self) {
        let _ = self.process.kill();
        let _ = self.process.wait();
    }
}

// A child's status as a number.
fn status_of(status: ExitStatus) -> i32 {
    match (status.code(), status.signal()) {
        (Some(code), _) => code,
        (None, Some(signal)) => SIGNALLED.saturating_add(signal),
        (None, None) => SIGNALLED,
    }
}
