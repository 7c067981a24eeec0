//! Why definitions are refused.
use cocoon_num::NoMemory;
use declarations::FunId;

/// Why definitions are refused. Faults of entries hold the token index of the entry's name. The
/// variants stand in the order in which their faults are looked for; docs/LANGUAGE.md has an example
/// of each.
#[derive(Clone, Copy, Drop)]
pub enum DefsFault {
    /// The name is no function that is defined at run time.
    UnknownFunction(u32),
    /// Another number of patterns than the function has parameters, or a pattern, mask or value of another type.
    WrongRow(u32),
    /// A second default of a function.
    TwoDefaults(u32),
    /// The first function in the order of declaration that has no default.
    NoDefault(FunId),
    /// An entry of a function of a host or switch guard that is neither literal nor the default `false`.
    GuardRows(u32),
    /// The same of a function under a `fork` of the last level.
    ForkRows(u32),
    /// No fault, and so many rows, over the limit.
    Limit(u64),
    NoMemory,
}

impl From<NoMemory> for DefsFault {
    ghost use Rattle.std.specs.Prelude.{◌≡◌};
    ghost use Rattle.runtime_defs.specs.declared.fault.DefsFault.TheVariants.{NoMemory};

    ghost from_gives = { λ _ f. f ≡ NoMemory };

    fn from(_: NoMemory) -> DefsFault {
        DefsFault::NoMemory
    }
}
