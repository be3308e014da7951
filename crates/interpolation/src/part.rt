//! `Part`: a piece of a text, plain or an expression.

use mvn_shared::Text;

/// A piece of a text: as it stands, or the name between `${` and the next `}`. POM Reference, "Properties".
#[derive(Drop)]
pub enum Part {
    Plain(Text),
    Name(Text),
}
