//! A folder in memory that never fails a call, so that what a caller does to its files can be seen
//! whole.
ghost use Rattle.std.specs.Prelude.{◌≡◌, ◌≢◌, Some, None, OnOk, OnErr, IfErr, option_map};
ghost use Rattle.std.specs.FinMap as map;
ghost use Rattle.cocoon_io.specs.Calls.{AnswersFile};

use crate::{Folder, FolderFault};
use cocoon_num::NoMemory;
use std::alloc::Global;
use std::collections::BTreeMap;
use std::marker::Model;

/// Files in memory.
#[derive(Drop)]
pub struct HonestFolder {
    alloc: Global,
    files: BTreeMap<String, Vec<u8>>,
}

impl Model for HonestFolder {
    ghost use Rattle.cocoon_io.specs.CodedFiles.{coded_files};
    ghost use Rattle.cocoon_io.specs.Files.{Files};
    ghost use Rattle.cocoon_io.specs.Entries.{files_of};

    ghost Value = { Files };

    ghost coded = { coded_files };

    ghost view = { λ a. files_of a.files.entries };
}

impl HonestFolder {
    /// A folder with no file.
    pub fn new(alloc: Global) -> HonestFolder
        ensures { result ≡ map.empty }
    {
        HonestFolder {
            alloc,
            files: BTreeMap::new(alloc),
        }
    }

    /// Puts bytes under a name, as a test sets up its files.
    pub fn place_file(&mut self, name: &str, bytes: &[u8]) -> Result<(), NoMemory>
        ensures ok { OnOk result (self.new ≡ map.insert self.old name.now bytes.now) }
        ensures err { OnErr result (self.new ≡ self.old) }
    {
        let key = String::from_str(self.alloc, name)?;
        let value = bytes.to_vec(self.alloc)?;
        self.files.insert(key, value)?;
        Ok(())
    }

    /// The bytes of a file, as a test looks at them.
    pub fn file(&self, name: &str) -> Option<&[u8]>
        ensures { option_map (λ s. s.now) result ≡ map.get self.now name.now }
    {
        match self.files.get(name) {
            Some(bytes) => Some(bytes.as_slice()),
            None => None,
        }
    }
}

impl Folder for HonestFolder {
    ghost content = { λ files. Some files };

    ghost read_faults = { λ _. 0 };

    ghost write_faults = { λ _. 0 };

    ghost last_read_fault = { None };

    ghost last_write_fault = { None };

    ghost last_failure = { λ _ _. ⊥ };

    fn read(
        &mut self,
        alloc: Global,
        name: &str,
        limit: u64,
    ) -> Result<Option<Vec<u8>>, FolderFault>
        ensures answers { AnswersFile (map.get self.old name.now) limit result }
        ensures never_fails { result ≢ Err FolderFault.Failed }
        ensures same { self.new ≡ self.old }
    {
        let Some(bytes) = self.file(name) else {
            return Ok(None);
        };
        if bytes.len() as u64 > limit {
            return Err(FolderFault::TooLong(limit));
        }
        Ok(Some(bytes.to_vec(alloc)?))
    }

    fn write(&mut self, _alloc: Global, name: &str, bytes: &[u8]) -> Result<(), FolderFault>
        ensures ok { OnOk result (self.new ≡ map.insert self.old name.now bytes.now) }
        ensures err { OnErr result (self.new ≡ self.old) }
        ensures never_fails { IfErr result (λ e. e ≡ FolderFault.NoMemory) }
    {
        self.place_file(name, bytes)?;
        Ok(())
    }
}
