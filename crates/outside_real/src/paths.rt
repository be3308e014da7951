// Paths of the system.
ghost use Rattle.std.specs.Prelude.{◌≡◌, IfOk};
ghost use Rattle.std.specs.String.{string_bytes};
ghost use Rattle.outside_real.specs.FullPath.{full_path};

use mvn_shared::Mem;
use std::alloc::Global;

/// A path of the system: the folder, and a path below it; the folder's own for the empty path. Costs one text. Project rule.
pub fn full_path(alloc: Global, root: &str, path: &str) -> Mem<String>
    ensures { IfOk result (λ full. string_bytes full ≡ full_path root.now path.now) }
{
    if path.is_empty() {
        return Ok(String::from_str(alloc, root)?);
    }
    Ok(format!(in alloc; "{root}/{path}")?)
}
