//! Folders: files under names.
ghost use Rattle.std.specs.Prelude.{◌≡◌, ◌≢◌, ◌≤◌, ◌⊎◌, ℕ, List, Option, OnOk, OnErr, IfErr};
ghost use Rattle.cocoon_io.specs.Files.{Files};
ghost use Rattle.cocoon_io.specs.Calls.{ReadAnswers, with_file, Rose};

use cocoon_num::NoMemory;
use std::alloc::{AllocError, Global};
use thiserror::Error;

/// Why a call of a folder gave no file or wrote none.
#[derive(Debug, Drop, Error)]
pub enum FolderFault {
    #[error("the folder failed")]
    Failed,
    /// The file is longer than the number of bytes that the call allowed.
    #[error("the file is longer than {0} bytes")]
    TooLong(u64),
    #[error("there was no memory")]
    NoMemory,
}

impl From<NoMemory> for FolderFault {
    ghost use Rattle.std.specs.Prelude.{◌≡◌};
    ghost use Rattle.cocoon_io.specs.declared.folder.FolderFault.TheVariants.{NoMemory};

    ghost from_gives = { λ _ fault. fault ≡ NoMemory };

    fn from(_: NoMemory) -> FolderFault {
        FolderFault::NoMemory
    }
}

impl From<AllocError> for FolderFault {
    ghost use Rattle.std.specs.Prelude.{◌≡◌};
    ghost use Rattle.cocoon_io.specs.declared.folder.FolderFault.TheVariants.{NoMemory};

    ghost from_gives = { λ _ fault. fault ≡ NoMemory };

    fn from(_: AllocError) -> FolderFault {
        FolderFault::NoMemory
    }
}

/// Files under names. A name may have `/` in it.
pub trait Folder {
    /// The files, where they are known.
    ghost content: { Self → Option Files };

    /// How many reads failed so far, and how many writes.
    ghost read_faults: { Self → ℕ };

    ghost write_faults: { Self → ℕ };

    /// The value at which each count stays, where there is one.
    ghost last_read_fault: { Option ℕ };

    ghost last_write_fault: { Option ℕ };

    /// Whether the last call that failed was of this name, as far as the folder knows.
    ghost last_failure: { Self → List ℕ → Type 0 };

    /// The bytes of a file: `None` where there is no file of this name, and `TooLong(limit)` where
    /// it has more than `limit` bytes.
    fn read(
        &mut self,
        alloc: Global,
        name: &str,
        limit: u64,
    ) -> Result<Option<Vec<u8>>, FolderFault>
        ensures answers { ReadAnswers (content self.old) name.now limit result }
        ensures failed { result ≡ Err FolderFault.Failed
            → Rose last_read_fault (read_faults self.old) (read_faults self.new) }
        ensures counted { result ≢ Err FolderFault.Failed
            → read_faults self.new ≡ read_faults self.old }
        ensures named { result ≡ Err FolderFault.Failed → last_failure self.new name.now }
        ensures kept { result ≢ Err FolderFault.Failed
            → (n : List ℕ) → last_failure self.old n → last_failure self.new n }
        ensures same { content self.new ≡ content self.old }
        ensures reads { read_faults self.old ≤ read_faults self.new }
        ensures writes { write_faults self.new ≡ write_faults self.old };

    /// Puts bytes under a name. After a failure the file is as it was or has the new bytes.
    fn write(&mut self, alloc: Global, name: &str, bytes: &[u8]) -> Result<(), FolderFault>
        ensures ok { OnOk result
            (content self.new ≡ with_file (content self.old) name.now bytes.now) }
        ensures err { OnErr result ((content self.new ≡ content self.old)
            ⊎ (content self.new ≡ with_file (content self.old) name.now bytes.now)) }
        ensures failed { result ≡ Err FolderFault.Failed
            → Rose last_write_fault (write_faults self.old) (write_faults self.new) }
        ensures counted { result ≢ Err FolderFault.Failed
            → write_faults self.new ≡ write_faults self.old }
        ensures named { result ≡ Err FolderFault.Failed → last_failure self.new name.now }
        ensures kept { result ≢ Err FolderFault.Failed
            → (n : List ℕ) → last_failure self.old n → last_failure self.new n }
        ensures no_memory { result ≡ Err FolderFault.NoMemory
            → (content self.new ≡ content self.old)
            × (write_faults self.new ≡ write_faults self.old) }
        ensures never_too_long { IfErr result
            (λ e. (e ≡ FolderFault.Failed) ⊎ (e ≡ FolderFault.NoMemory)) }
        ensures reads { read_faults self.new ≡ read_faults self.old }
        ensures writes { write_faults self.old ≤ write_faults self.new };
}
