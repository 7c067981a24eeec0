//! The clauses of a goal.
ghost use Rattle.std.specs.Prelude.{◌≡◌, ◌≤◌, ◌<◌, IfOk, IfErr, length};
ghost use Rattle.bv_terms.specs.Arenas.{term_at, width_at};
ghost use Rattle.cnf_core.specs.Satisfying.{WellNamed};
ghost use Rattle.bit_blast.specs.Blasting.{IsClauses, IsFault, MapsInputs, most_clauses};
ghost use Rattle.bit_blast.specs.Clauses.{count_of};
ghost use Rattle.bit_blast.specs.Goals.{IsUnapplied};

use crate::counts::clause_count;
use crate::emit::assemble;
use crate::inputs::InputMap;
use bv_terms::{TermId, Terms, distinct};
use cnf_core::Cnf;
use cocoon_num::NoMemory;
use std::alloc::Global;

/// More clauses are refused.
const MOST_CLAUSES: u64 = 4_000_000;

/// Why a goal has no list of clauses.
#[derive(Clone, Copy, Debug)]
pub enum BlastFault {
    /// It has so many, more than 4,000,000.
    Clauses(u64),
    NoMemory,
}

impl From<NoMemory> for BlastFault {
    ghost use Rattle.std.specs.Prelude.{◌≡◌};
    ghost use Rattle.bit_blast.specs.declared.blasting.BlastFault.TheVariants.{NoMemory};

    ghost from_gives = { λ _ fault. fault ≡ NoMemory };

    fn from(_: NoMemory) -> BlastFault {
        BlastFault::NoMemory
    }
}

/// The clauses of a goal in the order that docs/CLAUSES.md says, and the bits of its inputs. A goal is a term of width 1 without
/// functions. They are counted before they are made. A goal with at most 4,000,000 clauses, but 2^31 variables or more, is out
/// of memory.
pub fn blast(alloc: Global, terms: &Terms, goal: TermId) -> Result<(Cnf, InputMap), BlastFault>
    requires there { goal < length terms.now }
    requires truth { width_at terms.now goal ≡ 1 }
    requires unapplied { IsUnapplied (term_at terms.now goal) }
    ensures clauses { IfOk result (λ made. IsClauses made.0 (term_at terms.now goal)) }
    ensures named { IfOk result (λ made. WellNamed made.0) }
    ensures inputs { IfOk result (λ made. MapsInputs terms.now (term_at terms.now goal) made.1) }
    ensures few { IfOk result (λ made. count_of (term_at terms.now goal) ≤ most_clauses) }
    ensures fault { IfErr result (λ fault. IsFault (term_at terms.now goal) fault) }
{
    prove!(goal < terms.count());
    let order = distinct(alloc, terms, goal)?;
    let count = clause_count(terms, &order)?;
    if count > MOST_CLAUSES {
        return Err(BlastFault::Clauses(count));
    }
    Ok(assemble(alloc, terms, goal, &order)?)
}
