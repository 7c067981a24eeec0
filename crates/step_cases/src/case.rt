//! A case, and what may be wrong with the lines that should be one.

use cocoon_num::NoMemory;
use declarations::RoleId;

/// A location at which a body is run, a packet, and the choices for it.
#[derive(Drop)]
pub struct Case {
    /// The number of the role: roles are numbered by their first declarations, from 0.
    pub role: RoleId,
    /// The values of its parameters, in their order; each fits its width.
    pub values: Vec<u64>,
    /// The values of all fields, header by header; each fits its width.
    pub fields: Vec<u64>,
    /// The choices, in the order in which the run takes them. Nothing is asked of them here.
    pub choices: Vec<u64>,
}

/// Why some bytes are no case.
#[derive(Clone, Copy, Debug, Drop, PartialEq, Eq)]
pub enum CaseFault {
    /// The line of this number is the first that is not of its form; numbers count empty lines, from 1.
    Form(u64),
    NoMemory,
}

impl From<NoMemory> for CaseFault {
    ghost use Rattle.std.specs.Prelude.{◌≡◌};
    ghost use Rattle.step_cases.specs.declared.case.CaseFault.TheVariants.{NoMemory};

    ghost from_gives = { λ _ fault. fault ≡ NoMemory };

    fn from(_: NoMemory) -> CaseFault {
        CaseFault::NoMemory
    }
}
