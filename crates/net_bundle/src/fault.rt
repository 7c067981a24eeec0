//! Why a bundle is not written.

use crate::file::BundleFile;
use cocoon_io::FolderFault;
use cocoon_num::NoMemory;
use std::alloc::{AllocError, AllocFailed};

/// Why a bundle is not written, with the file that it is about.
#[derive(Debug, Drop)]
pub enum BundleFault {
    /// The folder failed at this file; a write fails with `Failed` alone.
    Folder(BundleFile, FolderFault),
    /// The file, the first of these in the bundle's order, would have more bytes than it may. Nothing was written.
    Limit(BundleFile),
    NoMemory,
}

impl From<NoMemory> for BundleFault {
    ghost use Rattle.std.specs.Prelude.{◌≡◌};
    ghost use Rattle.net_bundle.specs.declared.fault.BundleFault.TheVariants.{NoMemory};

    ghost from_gives = { λ _ r. r ≡ NoMemory };

    fn from(_: NoMemory) -> BundleFault {
        BundleFault::NoMemory
    }
}

impl From<AllocError> for BundleFault {
    ghost use Rattle.std.specs.Prelude.{◌≡◌};
    ghost use Rattle.net_bundle.specs.declared.fault.BundleFault.TheVariants.{NoMemory};

    ghost from_gives = { λ _ r. r ≡ NoMemory };

    fn from(_: AllocError) -> BundleFault {
        BundleFault::NoMemory
    }
}

impl<T: Drop> From<AllocFailed<T>> for BundleFault {
    ghost use Rattle.std.specs.Prelude.{◌≡◌};
    ghost use Rattle.net_bundle.specs.declared.fault.BundleFault.TheVariants.{NoMemory};

    ghost from_gives = { λ _ r. r ≡ NoMemory };

    fn from(_: AllocFailed<T>) -> BundleFault {
        BundleFault::NoMemory
    }
}
