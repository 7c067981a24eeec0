//! Why a text is not read.

use json::Invalid;
use std::alloc::{AllocError, AllocFailed};

/// Why a text is not read.
#[derive(Drop)]
pub enum ScanFault {
    /// The bytes are not the JSON text of any value.
    NotJson,
    NoMemory,
}

impl From<AllocError> for ScanFault {
    ghost use Rattle.std.specs.Prelude.{◌≡◌};
    ghost use Rattle.json_scan.specs.declared.fault.ScanFault.TheVariants.{NoMemory};

    ghost from_gives = { λ _ r. r ≡ NoMemory };

    fn from(_: AllocError) -> ScanFault {
        ScanFault::NoMemory
    }
}

impl<T: Drop> From<AllocFailed<T>> for ScanFault {
    ghost use Rattle.std.specs.Prelude.{◌≡◌};
    ghost use Rattle.json_scan.specs.declared.fault.ScanFault.TheVariants.{NoMemory};

    ghost from_gives = { λ _ r. r ≡ NoMemory };

    fn from(_: AllocFailed<T>) -> ScanFault {
        ScanFault::NoMemory
    }
}

impl From<Invalid> for ScanFault {
    ghost use Rattle.std.specs.Prelude.{◌≡◌};
    ghost use Rattle.json_scan.specs.declared.fault.ScanFault.TheVariants.{NotJson};

    ghost from_gives = { λ _ r. r ≡ NotJson };

    fn from(_: Invalid) -> ScanFault {
        ScanFault::NotJson
    }
}
