//! `Remote`: a repository that files are fetched from.

ghost use Rattle.std.specs.Prelude.{◌≡◌, ◌≤◌, ℕ, Bool, true, Option, length, IfOk, IfSome};
ghost use Rattle.mvn_shared.specs.Cause.{HasCause};
ghost use Rattle.mvn_shared.specs.Files as told;
ghost use Rattle.mvn_outside.specs.Faults.{read_failed, list_failed};
ghost use Rattle.mvn_outside.specs.Reading.{Reads};
ghost use Rattle.mvn_outside.specs.Versions.{ListsVersions};
ghost use Rattle.mvn_base.specs.Names.{is_group, is_name};

use crate::fault::{ListFault, ReadFault};
use mvn_base::FileName;
use mvn_shared::{Bytes, List, Text};

/// A repository that files are fetched from.
pub trait Remote {
    /// The files, where it tells them.
    ghost files: { Self → Option told.Files };

    /// The faults so far. The count never falls.
    ghost faults: { Self → ℕ };

    /// Whether no call fails. The count of faults is then the constant 0.
    ghost never_fails: { Self → Bool };

    /// The bytes of a file of at most `limit` bytes; nothing where no file is there.
    fn fetch(&mut self, name: &FileName, limit: u64) -> Result<Option<Bytes>, ReadFault>
        ensures reads { IfSome (files self.old) (λ files.
            Reads (told.file_at files name.now) limit result) }
        ensures within { IfOk result (λ found. IfSome found (λ bytes. length bytes ≤ limit)) }
        ensures same { files self.new ≡ files self.old }
        ensures never { never_fails self.new ≡ never_fails self.old }
        ensures cause { HasCause (faults self.old) (faults self.new) (read_failed result) };

    /// The valid versions of an artifact whose POMs are there, each once.
    fn versions(&mut self, group: &Text, artifact: &Text) -> Result<List<Text>, ListFault>
        requires group { is_group group.now ≡ true }
        requires artifact { is_name artifact.now ≡ true }
        ensures lists { IfSome (files self.old) (λ files.
            ListsVersions files group.now artifact.now result) }
        ensures same { files self.new ≡ files self.old }
        ensures never { never_fails self.new ≡ never_fails self.old }
        ensures cause { HasCause (faults self.old) (faults self.new) (list_failed result) };

    /// Where no call fails, there is no fault.
    ghost no_faults: { (remote : Self) → never_fails remote ≡ true → faults remote ≡ 0 };
}
