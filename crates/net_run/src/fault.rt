//! Why a packet is not followed to its ends.

use cocoon_num::NoMemory;
use std::alloc::AllocFailed;

/// How many runs of ingress and of egress all copies of a packet may make.
pub const MOST_RUNS: u64 = 65_536;

/// Why a packet is not followed to its ends.
#[derive(Debug, Drop)]
pub enum RunFault {
    /// The network has no such host.
    NoSuchHost,
    /// The runs of ingress and of egress would be more than may be made; it is how many there are at the first one too many.
    Copies(u64),
    NoMemory,
}

impl From<NoMemory> for RunFault {
    ghost use Rattle.std.specs.Prelude.{◌≡◌};
    ghost use Rattle.net_run.specs.declared.fault.RunFault.TheVariants.{NoMemory};

    ghost from_gives = { λ _ r. r ≡ NoMemory };

    fn from(_: NoMemory) -> RunFault {
        RunFault::NoMemory
    }
}

impl<T: Drop> From<AllocFailed<T>> for RunFault {
    ghost use Rattle.std.specs.Prelude.{◌≡◌};
    ghost use Rattle.net_run.specs.declared.fault.RunFault.TheVariants.{NoMemory};

    ghost from_gives = { λ _ r. r ≡ NoMemory };

    fn from(_: AllocFailed<T>) -> RunFault {
        RunFault::NoMemory
    }
}
