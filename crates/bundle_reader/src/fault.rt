//! Why a bundle is not read.
use cocoon_io::FolderFault;
use cocoon_num::{NoMemory, Text};
use net_bundle::BundleFile;
use p4_read::P4Fault;
use p4_run::LoadFault;
use std::alloc::AllocFailed;

/// Why a bundle is not read, with the file that it is about. A fault that is held here is never its own `NoMemory`.
#[derive(Drop)]
pub enum ReadFault {
    /// There is no such file.
    Missing(BundleFile),
    /// The folder failed at this file, or the file has more bytes than it may.
    Folder(BundleFile, FolderFault),
    /// The digest of the file's bytes, and the one that is kept of it in the file of the network.
    Stale(BundleFile, Text, Text),
    /// The bytes are not the JSON text of any value.
    NotJson(BundleFile),
    /// The text is no P4 program.
    P4(BundleFile, P4Fault),
    /// The value is not of its form: the pointer of the first member that is not, or no text.
    Shape(BundleFile, Text),
    /// The rows do not load into the program of their switch.
    Load(BundleFile, LoadFault),
    NoMemory,
}

impl From<NoMemory> for ReadFault {
    ghost use Rattle.std.specs.Prelude.{◌≡◌};
    ghost use Rattle.bundle_reader.specs.declared.fault.ReadFault.TheVariants.{NoMemory};

    ghost from_gives = { λ _ fault. fault ≡ NoMemory };

    fn from(_: NoMemory) -> ReadFault {
        ReadFault::NoMemory
    }
}

impl<T: Drop> From<AllocFailed<T>> for ReadFault {
    ghost use Rattle.std.specs.Prelude.{◌≡◌};
    ghost use Rattle.bundle_reader.specs.declared.fault.ReadFault.TheVariants.{NoMemory};

    ghost from_gives = { λ _ fault. fault ≡ NoMemory };

    fn from(_: AllocFailed<T>) -> ReadFault {
        ReadFault::NoMemory
    }
}
