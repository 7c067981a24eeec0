//! Terms of instances, and terms that are joined.
ghost use Rattle.std.specs.Prelude.{◌≡◌, ◌<◌, ◌∷◌, ◌++◌, IfOk, length, map, OnOk};
ghost use Rattle.std.specs.List.{AllByRecursion};
ghost use Rattle.cocoon_syntax.specs.TreeOf.{design_of};
ghost use Rattle.bv_terms.specs.Arenas.{term_at, width_at};
ghost use Rattle.bv_terms.specs.TermTrees.{binary, constant, width};
ghost use Rattle.bv_terms.specs.declared.node.TermOp.TheVariants as op;
ghost use Rattle.expr_terms.specs.Variables.{AreThere, Keeps, Makes, MakesAll, terms_at};
ghost use Rattle.bv_terms.specs.Chains.{chain};
ghost use Rattle.query_laws.specs.Queries as spec;
ghost use Rattle.queries.specs.Asked.{AreOfAssumptions, IsOfAssumption};

use bv_terms::{TermId, TermOp, Terms};
use cnf_core::Instance;
use cocoon_num::NoMemory;
use cocoon_resolve::Checked;
use fun_instances::value_instance;
use std::alloc::Global;

/// The term of an instance.
fn instance_term(
    alloc: Global,
    checked: &Checked,
    instance: &Instance,
    terms: &mut Terms,
) -> Result<TermId, NoMemory>
    requires { IsOfAssumption (design_of checked.now) instance.now }
    ensures made { IfOk result (λ id.
        Makes terms.new id (spec.instance_term (design_of checked.now) instance.now)) }
    ensures kept { Keeps terms.old terms.new }
{
    value_instance(
        alloc,
        checked,
        instance.number,
        instance.values.items(),
        terms,
    )
}

/// The terms of some instances behind these terms.
pub(crate) fn put_instances(
    alloc: Global,
    checked: &Checked,
    instances: &[Instance],
    terms: &mut Terms,
    ids: &mut Vec<TermId>,
) -> Result<(), NoMemory>
    requires fit { AreOfAssumptions (design_of checked.now) instances.now }
    requires there { AreThere terms.old ids.old.items }
    ensures made { OnOk result (MakesAll terms.new ids.new.items (terms_at terms.old ids.old.items
        ++ map (spec.instance_term (design_of checked.now)) instances.now)) }
    ensures kept { Keeps terms.old terms.new }
{
    for instance in instances {
        ids.push(instance_term(alloc, checked, instance, terms)?)?;
    }
    Ok(())
}

/// Two terms that are both true.
fn both(terms: &mut Terms, first: TermId, second: TermId) -> Result<TermId, NoMemory>
    requires there { (first < length terms.old) × (second < length terms.old) }
    requires widths { width_at terms.old first ≡ width_at terms.old second }
    ensures made { IfOk result (λ id. Makes terms.new id
        (binary op.And (term_at terms.old first) (term_at terms.old second))) }
    ensures kept { Keeps terms.old terms.new }
{
    terms.binary(TermOp::And, first, second)
}

/// A term and others, joined from the left: all are true.
pub(crate) fn all_true(
    terms: &mut Terms,
    first: TermId,
    others: &[TermId],
) -> Result<TermId, NoMemory>
    requires there { first < length terms.old }
    requires others { AreThere terms.old others.now }
    requires width { width_at terms.old first ≡ 1 }
    requires widths { AllByRecursion (λ t. width t ≡ 1) (terms_at terms.old others.now) }
    ensures made { IfOk result (λ id. Makes terms.new id (chain op.And (constant 1 1)
        (term_at terms.old first ∷ terms_at terms.old others.now))) }
    ensures kept { Keeps terms.old terms.new }
{
    let mut joined = first;
    for other in others {
        joined = both(terms, joined, *other)?;
    }
    Ok(joined)
}
