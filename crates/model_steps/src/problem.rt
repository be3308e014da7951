//! `Problem`: a rule that a model doesn't meet, and the text that its refusal names.

use mvn_base::Rule;
use mvn_shared::Text;

/// A rule that a model doesn't meet, and the text that the refusal names. Public for definitions alone.
#[derive(Drop)]
pub struct Problem {
    pub rule: Rule,
    pub place: Text,
}
