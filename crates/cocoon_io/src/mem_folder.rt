//! A folder in memory that fails the calls that a test chose, so that a caller's answer to each
//! fault can be tried.
ghost use Rattle.std.specs.Prelude.{◌≡◌, ◌↔◌, Some, None, IsTrue, OnOk, OnErr, IfErr, ◌⊎◌, option_map};
ghost use Rattle.std.specs.FinMap as map;
ghost use Rattle.cocoon_io.specs.Calls.{AnswersFile};
ghost use Rattle.cocoon_io.specs.Plans.{fails_next, after_read, after_write};

use crate::plan::Plan;
use crate::{Folder, FolderFault, HonestFolder};
use cocoon_num::NoMemory;
use std::alloc::Global;
use std::marker::Model;

/// Files in memory, and the numbers of the calls that fail. Reads and writes are counted together,
/// from 1, and no call after number 2^64 - 1 fails. A write that fails keeps the old file.
#[derive(Drop)]
pub struct MemFolder {
    held: HonestFolder,
    planned: Plan,
    failed_reads: u64,
    failed_writes: u64,
}

impl Model for MemFolder {
    ghost use Rattle.std.specs.Prelude.{◌+◌, ◌≤◌};
    ghost use Rattle.cocoon_io.specs.Plans.{PlannedFolder, coded_folder};

    ghost Value = { PlannedFolder };

    ghost coded = { coded_folder };

    ghost view = { λ a. record {
      files = a.held;
      plan = a.planned;
      read_faults = a.failed_reads;
      write_faults = a.failed_writes;
    } };

    ghost invariant = { λ a. a.failed_reads + a.failed_writes ≤ a.planned.calls };
}

impl MemFolder {
    /// A folder with no file and no call so far, whose calls with these numbers fail.
    pub fn new(alloc: Global, fail: Vec<u64>) -> MemFolder
        ensures { result ≡ record {
          files = map.empty;
          plan = record { failing = fail.items; calls = 0 };
          read_faults = 0;
          write_faults = 0;
        } }
    {
        MemFolder {
            held: HonestFolder::new(alloc),
            planned: Plan::new(fail),
            failed_reads: 0,
            failed_writes: 0,
        }
    }

    /// Puts bytes under a name. This call is not counted.
    pub fn place_file(&mut self, name: &str, bytes: &[u8]) -> Result<(), NoMemory>
        ensures ok { OnOk result (self.new
            ≡ record self.old { files = map.insert self.old.files name.now bytes.now }) }
        ensures err { OnErr result (self.new ≡ self.old) }
    {
        self.held.place_file(name, bytes)
    }

    /// The bytes of a file. This call is not counted.
    pub fn file(&self, name: &str) -> Option<&[u8]>
        ensures { option_map (λ s. s.now) result ≡ map.get self.now.files name.now }
    {
        self.held.file(name)
    }
}

impl Folder for MemFolder {
    ghost content = { λ folder. Some folder.files };

    ghost read_faults = { λ folder. folder.read_faults };

    ghost write_faults = { λ folder. folder.write_faults };

    ghost last_read_fault = { None };

    ghost last_write_fault = { None };

    // the names of failed calls are not kept, which would need memory
    ghost last_failure = { λ _ _. Unit {0} };

    fn read(
        &mut self,
        alloc: Global,
        name: &str,
        limit: u64,
    ) -> Result<Option<Vec<u8>>, FolderFault>
        ensures answers { AnswersFile (map.get self.old.files name.now) limit result }
        ensures fails { (result ≡ Err FolderFault.Failed) ↔ IsTrue (fails_next self.old.plan) }
        ensures after { self.new ≡ after_read self.old }
    {
        if self.planned.next_fails() {
            self.failed_reads += 1;
            return Err(FolderFault::Failed);
        }
        self.held.read(alloc, name, limit)
    }

    fn write(&mut self, alloc: Global, name: &str, bytes: &[u8]) -> Result<(), FolderFault>
        ensures ok { OnOk result (self.new
            ≡ after_write self.old (map.insert self.old.files name.now bytes.now)) }
        ensures err { OnErr result (self.new ≡ after_write self.old self.old.files) }
        ensures fails { (result ≡ Err FolderFault.Failed) ↔ IsTrue (fails_next self.old.plan) }
        ensures never_too_long { IfErr result
            (λ e. (e ≡ FolderFault.Failed) ⊎ (e ≡ FolderFault.NoMemory)) }
    {
        if self.planned.next_fails() {
            self.failed_writes += 1;
            return Err(FolderFault::Failed);
        }
        self.held.write(alloc, name, bytes)
    }
}
