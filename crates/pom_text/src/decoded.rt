//! The text that bytes were decoded to, borrowed where it is the bytes themselves.

ghost use Rattle.std.specs.Prelude.{◌≡◌};
ghost use Rattle.pom_text.specs.Lent.{decoded_bytes};

/// The text of bytes: the bytes themselves, or a text made of them.
#[derive(Drop)]
pub enum Decoded<'a> {
    Lent(&'a str),
    Made(String),
}

impl<'a> Decoded<'a> {
    /// The text.
    pub fn as_str(&self) -> &str
        ensures { result.now ≡ decoded_bytes self.now }
    {
        match self {
            Decoded::Lent(text) => text,
            Decoded::Made(text) => text.as_str(),
        }
    }
}
