//! A folder that stands for the remote repository.

ghost use Rattle.std.specs.Prelude.{◌≡◌, ◌≤◌, true, IfOk, IfSome, length};
ghost use Rattle.mvn_base.specs.Names.{is_group, is_name};

use crate::count::{counted_list, counted_read};
use crate::paths::full_path;
use crate::reading::read_file;
use crate::versions::versions_below;
use mvn_base::FileName;
use mvn_outside::{ListFault, ReadFault, Remote};
use mvn_shared::{Bytes, List, Text};
use std::rt;

/// A repository that is a folder on a disk, to fetch from. It tells nothing of what stands there.
#[derive(Drop)]
pub struct RealRemote<'a, R: rt::Files + AllocGlobal + Clone + Drop> {
    rt: &'a R,
    root: Text,
    faults: u64,
}

impl<'a, R: rt::Files + AllocGlobal + Clone + Drop> RealRemote<'a, R> {
    ghost use Rattle.std.specs.Prelude.{◌≡◌};
    ghost use Rattle.outside_real.specs.Remote.{remote_faults};

    /// The folder at a path of the system.
    pub fn new(rt: &'a R, root: Text) -> RealRemote<'a, R>
        ensures { remote_faults result ≡ 0 }
    {
        RealRemote {
            rt,
            root,
            faults: 0,
        }
    }

    fn bytes_at(&self, name: &FileName, limit: u64) -> Result<Option<Bytes>, ReadFault>
        ensures { IfOk result (λ found. IfSome found (λ bytes. length bytes ≤ limit)) }
    {
        let alloc = self.rt.alloc();
        let path = full_path(alloc, self.root.as_str(), name.as_text().as_str())?;
        read_file(self.rt, alloc, path.as_str(), limit)
    }
}

impl<'a, R: rt::Files + AllocGlobal + Clone + Drop> Remote for RealRemote<'a, R> {
    ghost use Rattle.std.specs.Prelude.{None, false};

    ghost files = { λ _. None };

    ghost faults = { λ remote. remote.faults };

    ghost never_fails = { λ _. false };

    ghost no_faults = { λ _ e. cc };

    fn fetch(&mut self, name: &FileName, limit: u64) -> Result<Option<Bytes>, ReadFault> {
        let answer = self.bytes_at(name, limit);
        counted_read(&mut self.faults, answer)
    }

    fn versions(&mut self, group: &Text, artifact: &Text) -> Result<List<Text>, ListFault> {
        let answer = versions_below(self.rt, self.root.as_str(), group, artifact);
        counted_list(&mut self.faults, answer)
    }
}
