// How many bytes a module's outputs have.
ghost use Rattle.std.specs.Prelude.{◌≡◌};
ghost use Rattle.board.specs.Walks.{no_sizes, sizes_with, total_of};

use goal_types::Slot;

/// Of each slot how many bytes its output has: none where there is none.
#[derive(Clone, Copy)]
pub(crate) struct Sizes {
    pub pom: u64,
    pub classes: u64,
    pub test_classes: u64,
    pub main: u64,
    pub tests: u64,
    pub sources: u64,
    pub javadoc: u64,
}

impl Sizes {
    pub fn none() -> Sizes
        ensures { result ≡ no_sizes }
    {
        Sizes {
            pom: 0,
            classes: 0,
            test_classes: 0,
            main: 0,
            tests: 0,
            sources: 0,
            javadoc: 0,
        }
    }

    // With an output of so many bytes in the slot, in place of any that was there.
    pub fn with(self, slot: Slot, len: u64) -> Sizes
        ensures { result ≡ sizes_with self slot len }
    {
        match slot {
            Slot::Nowhere => self,
            Slot::Pom => Sizes { pom: len, ..self },
            Slot::Classes => Sizes {
                classes: len,
                ..self
            },
            Slot::TestClasses => Sizes {
                test_classes: len,
                ..self
            },
            Slot::Main => Sizes { main: len, ..self },
            Slot::Tests => Sizes { tests: len, ..self },
            Slot::Sources => Sizes {
                sources: len,
                ..self
            },
            Slot::Javadoc => Sizes {
                javadoc: len,
                ..self
            },
        }
    }

    // The bytes of all outputs together.
    pub fn total(self) -> u128
        ensures { result ≡ total_of self }
    {
        self.pom as u128
            + self.classes as u128
            + self.test_classes as u128
            + self.main as u128
            + self.tests as u128
            + self.sources as u128
            + self.javadoc as u128
    }
}
