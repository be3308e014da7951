//! A sink that writes to a stream of the system.

use crate::count::counted;
use crate::writing::write_some;
use mvn_outside::{DeviceFault, Sink};
use std::io::Write;

/// A sink over a stream, such as standard output.
#[derive(Drop)]
pub struct RealSink<W: Write + Drop> {
    out: W,
    faults: u64,
}

impl<W: Write + Drop> RealSink<W> {
    ghost use Rattle.std.specs.Prelude.{◌≡◌};
    ghost use Rattle.outside_real.specs.Sink.{sink_faults};

    /// The sink over this stream.
    pub fn new(out: W) -> RealSink<W>
        ensures { sink_faults result ≡ 0 }
    {
        RealSink { out, faults: 0 }
    }
}

impl<W: Write + Drop> Sink for RealSink<W> {
    ghost use Rattle.std.specs.Prelude.{None, false};

    ghost written = { λ _. None };

    ghost faults = { λ sink. sink.faults };

    ghost never_fails = { λ _. false };

    ghost no_faults = { λ _ e. cc };

    fn write(&mut self, bytes: &[u8]) -> Result<usize, DeviceFault> {
        let answer = write_some(&mut self.out, bytes);
        counted(&mut self.faults, answer)
    }
}
