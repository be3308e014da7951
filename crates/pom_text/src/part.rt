//! The pieces of a text, borrowed from it: tags, character data, references and comments.

ghost use Rattle.std.specs.Prelude.{◌≡◌};
ghost use Rattle.pom_text.specs.Runs.{said};
ghost use Rattle.pom_text.specs.Running.{begins_element};

/// A start tag or an empty tag: its name, and a text that begins with its attributes.
#[derive(Clone, Copy)]
pub(crate) struct Tag<'a> {
    pub(crate) name: &'a str,
    pub(crate) attributes: &'a str,
}

/// What a piece of a text says. It lends from the text, so that nothing is copied before it may stand.
#[derive(Clone, Copy)]
pub(crate) enum Part<'a> {
    /// A comment or an instruction, which are skipped.
    Passed,
    /// A carriage return that stands for itself.
    Return,
    /// What stands in a CDATA part.
    Section(&'a str),
    /// A reference to a character.
    Reference(char),
    Start(Tag<'a>),
    Empty(Tag<'a>),
    /// An end tag, by its name.
    End(&'a str),
}

impl<'a> Part<'a> {
    /// Whether an element begins.
    pub(crate) fn begins_element(&self) -> bool
        ensures { result ≡ begins_element (said self.now) }
    {
        matches!(self, Part::Start(_) | Part::Empty(_))
    }
}
