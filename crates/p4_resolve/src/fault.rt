//! Why a text stands for no program.
use cocoon_num::NoMemory;
use std::alloc::AllocFailed;

/// Why a text stands for no program.
#[derive(Clone, Copy, Debug, Drop)]
pub enum KindFault {
    /// What begins at this token is the first declaration or statement, in the order of the text, that breaks a kind rule.
    Kind(u32),
    NoMemory,
}

impl From<NoMemory> for KindFault {
    ghost use Rattle.std.specs.Prelude.{◌≡◌};
    ghost use Rattle.p4_resolve.specs.declared.fault.KindFault.TheVariants.{NoMemory};

    ghost from_gives = { λ _ fault. fault ≡ NoMemory };

    fn from(_: NoMemory) -> KindFault {
        KindFault::NoMemory
    }
}

impl<T: Drop> From<AllocFailed<T>> for KindFault {
    ghost use Rattle.std.specs.Prelude.{◌≡◌};
    ghost use Rattle.p4_resolve.specs.declared.fault.KindFault.TheVariants.{NoMemory};

    ghost from_gives = { λ _ fault. fault ≡ NoMemory };

    fn from(_: AllocFailed<T>) -> KindFault {
        KindFault::NoMemory
    }
}
