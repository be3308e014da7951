//! A stream of the system, as a source.

ghost use Rattle.std.specs.Prelude.{◌≡◌};

use crate::count::counted_failed;
use crate::pipes::read_some;
use crate::{Failed, Source};
use std::io::Read;

/// A stream of the system, such as standard input. It tells nothing of its bytes.
#[derive(Drop)]
pub struct RealSource<I: Read + Drop> {
    input: I,
    faults: u64,
}

impl<I: Read + Drop> RealSource<I> {
    ghost use Rattle.children.specs.RealSources.{source_faults};

    /// The bytes of this stream.
    pub fn new(input: I) -> RealSource<I>
        ensures { source_faults result ≡ 0 }
    {
        RealSource { input, faults: 0 }
    }
}

impl<I: Read + Drop> Source for RealSource<I> {
    ghost use Rattle.std.specs.Prelude.{None, false};

    ghost left = { λ _. None };

    ghost faults = { λ source. source.faults };

    ghost never_fails = { λ _. false };

    ghost no_faults = { λ _ e. cc };

    fn read(&mut self, into: &mut [u8]) -> Result<usize, Failed> {
        let answer = read_some(&mut self.input, into);
        counted_failed(&mut self.faults, answer)
    }
}
