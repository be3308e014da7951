//! Reads the bytes of a POM into elements, or gives the first rule that they break and the byte at which that shows.
//!
//! The grammar is that of XML 1.0 without document type definitions:
//!
//! 1. `read::read_text` refuses more bytes than a POM may have, and skips a byte order mark.
//! 2. `declaration::named_encoding` finds the encoding that the XML declaration names.
//! 3. `encoding::Encoding::decode` makes a text of the bytes.
//! 4. `allowed::allowed_of` cuts the text at the first character that XML doesn't allow.
//! 5. `front::opening` skips the XML declaration.
//! 6. `reader::read_pieces` takes one piece after another: runs of characters, and those that `piece::piece_of` reads.
//! 7. `tree::Tree::take` adds each piece to the elements that are open.
#![tactic(auto)]

pub mod allowed;
mod attribute;
pub mod attribute_words;
mod character;
pub mod cuts;
pub mod declaration;
pub mod decoded;
mod document;
pub mod encoding;
mod fault;
pub mod front;
mod law;
mod names;
mod node;
mod part;
mod piece;
mod read;
mod reader;
pub mod reference;
mod spelled;
mod tree;
mod words;

pub use fault::TextFault;
pub use law::one_reading;
pub use node::{Node, PomText};
pub use read::read_text;
pub use reader::DEPTH;
