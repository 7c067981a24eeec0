//! Why a phrase was not read.
use cocoon_num::NoMemory;
use std::alloc::AllocFailed;

/// Why a phrase was not read.
#[derive(Clone, Copy, Drop)]
pub enum Stop {
    /// The token at this index cannot be taken.
    Unexpected(usize),
    NoMemory,
}

impl From<NoMemory> for Stop {
    ghost use Rattle.std.specs.Prelude.{◌≡◌};
    ghost use Rattle.parsing.specs.declared.stop.Stop.TheVariants.{NoMemory as Wanting};

    ghost from_gives = { λ _ stop. stop ≡ Wanting };

    fn from(_: NoMemory) -> Stop {
        Stop::NoMemory
    }
}

impl<T: Drop> From<AllocFailed<T>> for Stop {
    ghost use Rattle.std.specs.Prelude.{◌≡◌};
    ghost use Rattle.parsing.specs.declared.stop.Stop.TheVariants.{NoMemory as Wanting};

    ghost from_gives = { λ _ stop. stop ≡ Wanting };

    fn from(_: AllocFailed<T>) -> Stop {
        Stop::NoMemory
    }
}
