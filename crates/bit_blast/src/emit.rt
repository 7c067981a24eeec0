//! Terms' gates in their order.
ghost use Rattle.std.specs.Prelude.{◌<◌, ◌^◌, IfOk};
ghost use Rattle.bv_terms.specs.Arenas.{term_at};
ghost use Rattle.bit_blast.specs.Blasting.{IsClauses, MapsInputs};
ghost use Rattle.bit_blast.specs.Orders.{IsEmitted, IsOrder, IsWalked, terms_of};

use crate::bit::Bit;
use crate::inputs::InputMap;
use crate::made::Gates;
use crate::parts::first;
use crate::table::Table;
use bv_terms::{TermId, Terms};
use cnf_core::Cnf;
use cocoon_num::NoMemory;
use std::alloc::Global;
use std::collections::BTreeMap;

/// The gates of terms, each after those that it is made of.
fn emit(alloc: Global, terms: &Terms, order: &[TermId]) -> Result<(Gates, Table), NoMemory>
    requires { IsOrder terms.now order.now }
    ensures { IfOk result (λ made.
        IsEmitted terms.now (terms_of terms.now order.now) made.0 made.1) }
{
    let mut gates = Gates::new(alloc);
    gates.add(alloc, &[Bit::constant(true)])?;
    let mut table = Table {
        rows: BTreeMap::new(alloc),
    };
    for term in order {
        let bits = gates.node_bits(alloc, &table, terms.node(*term))?;
        table.rows.insert(*term, bits)?;
    }
    Ok((gates, table))
}

/// The clauses of a goal, by its terms in the order of the walk, and the bits of the inputs.
pub(crate) fn assemble(
    alloc: Global,
    terms: &Terms,
    goal: TermId,
    order: &[TermId],
) -> Result<(Cnf, InputMap), NoMemory>
    requires { IsWalked terms.now goal order.now }
    ensures clauses { IfOk result (λ made. IsClauses made.0 (term_at terms.now goal)) }
    ensures small { IfOk result (λ made. made.0.vars < 2 ^ 31) }
    ensures inputs { IfOk result (λ made. MapsInputs terms.now (term_at terms.now goal) made.1) }
{
    let (mut gates, table) = emit(alloc, terms, order)?;
    let inputs = InputMap::new(alloc, terms, &table)?;
    let bit = first(table.bits(goal));
    gates.add(alloc, &[bit])?;
    Ok((gates.into_cnf(), inputs))
}
