//! Whether a text has an expression.

ghost use Rattle.std.specs.Prelude.{◌≡◌};
ghost use Rattle.mvn_base.specs.Names.{has_expression};

/// Whether `${` stands somewhere. One pass.
#[tactic(auto, using(crate::proofs::Expressions::opens_more, crate::proofs::Expressions::opens_none))]
pub fn has_expression(text: &[u8]) -> bool
    ensures { result ≡ has_expression text.now }
{
    let mut after_dollar = false;
    for b in text {
        if after_dollar && *b == b'{' {
            return true;
        }
        after_dollar = *b == b'$';
    }
    false
}
