//! Failures of obligations.
ghost use Rattle.std.specs.Prelude.{◌≡◌, ◌≤◌, IfOk, IfSome, None};
ghost use Rattle.cocoon_resolve.specs.Readers.{HasRole};
ghost use Rattle.cocoon_syntax.specs.TreeOf.{design_of};
ghost use Rattle.cocoon_types.specs.Design.{last_level};
ghost use Rattle.failures.specs.Found.{BeginsAt, CanFail, FailureFits, IsOfBlock, NoneBegins};
ghost use Rattle.failures.specs.declared.failure.Begin.{Begin as AsBegin};
ghost use Rattle.bv_terms.specs.Values.{values_of};
ghost use Rattle.obligation_gen.specs.Shown.{kind_in};
ghost use Rattle.failure_reading.specs.OfObligation as spec;
ghost use Rattle.failure_reading.specs.OfObligation.{AreShort, Fails, FailsIn, IsBegin, IsOwedSomewhere};

use crate::beginning::{all_within, begin_of};
use bv_terms::InputValues;
use cocoon_num::NoMemory;
use cocoon_resolve::Checked;
use failures::{Failure, over, refuted};
use obligation_gen::{Kind, Obligation};
use runtime_defs::Defs;
use std::alloc::Global;

/// The obligation is of a role that the block of its level refines. The call does nothing.
fn know_block(checked: &Checked, obligation: &Obligation)
    requires { IsOwedSomewhere (design_of checked.now) obligation.now }
    ensures level { (1 ≤ obligation.now.level)
        × (obligation.now.level ≤ last_level (design_of checked.now)) }
    ensures role { HasRole (design_of checked.now) obligation.now.role obligation.now.level }
    ensures refined { (b : AsBegin) → b.at.role ≡ obligation.now.role
        → IsOfBlock obligation.now.level (design_of checked.now) b }
{
    checked.design();
}

/// The failure of an obligation's leaf: where its run leads that has these values of the inputs, under
/// definitions that meet the assumptions up to its level. Of each value the low 64 bits count. `None` if
/// that run does not fail.
pub fn failure(
    alloc: Global,
    checked: &Checked,
    obligation: &Obligation,
    values: &InputValues<'_>,
    defs: Defs,
) -> Result<Option<Failure>, NoMemory>
    requires owed { IsOwedSomewhere (design_of checked.now) obligation.now }
    requires defs { CanFail obligation.now.level (design_of checked.now) defs }
    ensures fails { IfOk result (λ failure. IfSome failure
        (FailsIn (design_of checked.now) obligation.now)) }
    ensures fits { IfOk result (λ failure. IfSome failure
        (FailureFits obligation.now.level (design_of checked.now))) }
    ensures begins { IfOk result (λ failure. IfSome failure (λ f. AreShort
        (spec.begin_of (values_of values.now.inputs.now values.now.values.now) obligation.now)
        → BeginsAt defs
        (spec.begin_of (values_of values.now.inputs.now values.now.values.now) obligation.now) f)) }
    ensures none { IfOk result (λ failure. failure ≡ None → IsBegin (design_of checked.now)
        (spec.begin_of (values_of values.now.inputs.now values.now.values.now) obligation.now)
        → NoneBegins (Fails (kind_in obligation.now.kind)) obligation.now.level
        (design_of checked.now) defs
        (spec.begin_of (values_of values.now.inputs.now values.now.values.now) obligation.now)) }
{
    know_block(checked, obligation);
    let begin = begin_of(alloc, obligation, values)?;
    if !all_within(checked.field_widths(), begin.packet.fields.items()) {
        return Ok(None);
    }
    match obligation.kind {
        Kind::Contained => refuted(alloc, checked, obligation.level, defs, begin),
        Kind::Bounded => over(alloc, checked, obligation.level, defs, begin),
    }
}
