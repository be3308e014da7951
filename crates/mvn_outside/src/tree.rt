//! `Tree`: the folder of the project, which files are read from.

ghost use Rattle.std.specs.Prelude.{◌≡◌, ◌≤◌, Bool, List, ℕ, Option, length, IfOk, IfSome};
ghost use Rattle.mvn_shared.specs.Cause.{HasCause};
ghost use Rattle.mvn_shared.specs.Files as told;
ghost use Rattle.mvn_outside.specs.Faults.{read_failed, list_failed};
ghost use Rattle.mvn_outside.specs.Reading.{Reads, Lists};

use crate::fault::{ListFault, ReadFault};
use crate::files::Files;
use mvn_shared::{Bytes, List, Text};

/// The project's folder. Paths are relative to its root, with `/` between steps.
pub trait Tree: Files {
    /// The files, where it tells them.
    ghost files: { Self → Option told.Files };

    /// The bytes of a file of at most `limit` bytes; nothing where no file is there. A folder is no file.
    fn read(&mut self, path: &Text, limit: u64) -> Result<Option<Bytes>, ReadFault>
        ensures reads { IfSome (files self.old) (λ files.
            Reads (told.file_at files path.now) limit result) }
        ensures fit { (world : List ℕ → Bool) → Self.fits self.old world →
            Self.fits self.new world }
        ensures within { IfOk result (λ found. IfSome found (λ bytes. length bytes ≤ limit)) }
        ensures same { Self.tells_same self.old self.new }
        ensures never { Self.never_fails self.new ≡ Self.never_fails self.old }
        ensures cause { HasCause (Self.faults self.old) (Self.faults self.new)
            (read_failed result) };

    /// The paths of the files below a folder, ascending by bytes; none where it is a file or isn't there.
    fn list(&mut self, folder: &Text) -> Result<List<Text>, ListFault>
        ensures lists { IfSome (files self.old) (λ files. Lists files folder.now result) }
        ensures fit { (world : List ℕ → Bool) → Self.fits self.old world →
            Self.fits self.new world }
        ensures same { Self.tells_same self.old self.new }
        ensures never { Self.never_fails self.new ≡ Self.never_fails self.old }
        ensures cause { HasCause (Self.faults self.old) (Self.faults self.new)
            (list_failed result) };

    ghost same_files: { (before now : Self) → Self.tells_same before now → files now ≡ files before };

    /// Where it tells its files, a path is there as these files say.
    ghost agrees: { (tree : Self) → IfSome (files tree) (λ files. Self.fits tree (told.is_there files)) };
}
