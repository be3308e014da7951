//! A filled value together with the next one, unless that is refused.

ghost use Rattle.std.specs.Prelude.{◌≡◌};
ghost use Rattle.interpolation.specs.Told.{beside};

use crate::FillFault;

/// What is filled already, beside what comes next, where that isn't refused.
pub(crate) fn beside<A: Drop, B: Drop>(
    first: A,
    second: Result<B, FillFault>,
) -> Result<(A, B), FillFault>
    ensures { result ≡ beside first second }
{
    match second {
        Ok(second) => Ok((first, second)),
        Err(fault) => Err(fault),
    }
}
