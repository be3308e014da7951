// Reading from the front of bytes.
ghost use Rattle.std.specs.Prelude.{◌≡◌, length, min};
ghost use Rattle.children.specs.Reading.{IsFront};

/// Copies as many bytes as there are and fit, and says how many.
pub(crate) fn copy_front(rest: &[u8], into: &mut [u8]) -> usize
    ensures count { result ≡ min (length into.old) (length rest.now) }
    ensures front { IsFront rest.now into.new result }
{
    let count = into.len().min(rest.len());
    into[..count].copy_from_slice(&rest[..count]);
    count
}
