//! Failures, tested by runs.
ghost use Rattle.std.specs.Prelude.{◌≡◌, ◌≤◌, ◌-◌, ◌↔◌, IfOk, IfSome, IsTrue, MatchOption};
ghost use Rattle.cocoon_num.specs.PacketForms.{FieldsFit};
ghost use Rattle.cocoon_resolve.specs.Readers.{field_widths, HasRole};
ghost use Rattle.cocoon_syntax.specs.TreeOf.{design_of};
ghost use Rattle.cocoon_types.specs.Design.{last_level};
ghost use Rattle.cocoon_types.specs.Runs.{world};
ghost use Rattle.runtime_defs.specs.Printable.{FitsDesign};
ghost use Rattle.refinement.specs.Segments.{IsOld};
ghost use Rattle.role_meaning.specs.Located.{loc_of, sent_of};
ghost use Rattle.refinement.specs.Sending.{CanSend};
ghost use Rattle.failures.specs.Ending.{Ends};
ghost use Rattle.failures.specs.Failures.{IsOver, IsRefuted, OfLevel};
ghost use Rattle.failures.specs.Found.{BeginFits, BeginsAt, CanFail, defined, FailureFits, failure_of, IsOfBlock, NoneBegins};

use crate::failure::{Begin, Failure, joined};
use cocoon_num::NoMemory;
use cocoon_resolve::Checked;
use refinement::laws::segments_are_hops;
use refinement::table_laws::tables_are_definitions;
use role_meaning::{Followed, can_send, follow};
use runtime_defs::Defs;
use sound_types::laws::code_literals_fit;
use std::alloc::Global;

/// Where the segment of a refined role ends that begins so.
fn ended(
    alloc: Global,
    checked: &Checked,
    level: u32,
    defs: &Defs,
    begin: &Begin,
) -> Result<Option<Followed>, NoMemory>
    requires level { (1 ≤ level) × (level ≤ last_level (design_of checked.now)) }
    requires defs { CanFail level (design_of checked.now) defs.now }
    requires begin { BeginFits level (design_of checked.now) begin.now }
    requires refined { IsOfBlock level (design_of checked.now) begin.now }
    ensures ends { IfOk result (Ends level (design_of checked.now) defs.now begin.now) }
    ensures at { IfOk result (λ end. IfSome end (λ e.
        HasRole (design_of checked.now) e.to.role level)) }
    ensures fits { IfOk result (λ end. IfSome end (λ e.
        FieldsFit (field_widths (design_of checked.now)) e.sent.fields)) }
{
    tables_are_definitions();
    checked.design();
    let above = level - 1;
    let (from, packet) = (&begin.at, &begin.packet);
    follow(
        alloc,
        checked,
        defs,
        above,
        from,
        packet,
        begin.choices.items(),
    )
}

/// Whether the body of the level above sends what the segment does.
fn is_sent_above(
    alloc: Global,
    checked: &Checked,
    level: u32,
    defs: &Defs,
    begin: &Begin,
    end: &Followed,
) -> Result<bool, NoMemory>
    requires level { (1 ≤ level) × (level ≤ last_level (design_of checked.now)) }
    requires defs { CanFail level (design_of checked.now) defs.now }
    requires begin { BeginFits level (design_of checked.now) begin.now }
    requires refined { IsOfBlock level (design_of checked.now) begin.now }
    requires to { HasRole (design_of checked.now) end.now.to.role level }
    requires old { IsOld (level - 1) (design_of checked.now)
        (loc_of (design_of checked.now) end.now.to) }
    requires sent { FieldsFit (field_widths (design_of checked.now)) end.now.sent.fields }
    ensures { IfOk result (λ is_sent. IsTrue is_sent
        ↔ CanSend (world (level - 1) (design_of checked.now)
        (defined (design_of checked.now) defs.now))
        (loc_of (design_of checked.now) begin.now.at)
        (sent_of (design_of checked.now) begin.now.packet)
        (loc_of (design_of checked.now) end.now.to)
        (sent_of (design_of checked.now) end.now.sent)) }
{
    tables_are_definitions();
    checked.design();
    let above = level - 1;
    let (from, packet) = (&begin.at, &begin.packet);
    can_send(
        alloc, checked, defs, above, from, packet, &end.to, &end.sent,
    )
}

/// The failure of a segment that begins so, under definitions that meet the assumptions up to this
/// level: it leads to an old role, or to the sink, and the body of the level above does not send what
/// it sends. `None` if there is no such segment.
///
/// The time is that of the segment's run, and of one run of the body above for each of its paths.
pub fn refuted(
    alloc: Global,
    checked: &Checked,
    level: u32,
    defs: Defs,
    begin: Begin,
) -> Result<Option<Failure>, NoMemory>
    requires level { (1 ≤ level) × (level ≤ last_level (design_of checked.now)) }
    requires defs { CanFail level (design_of checked.now) defs }
    requires begin { BeginFits level (design_of checked.now) begin }
    requires refined { IsOfBlock level (design_of checked.now) begin }
    ensures fails { IfOk result (λ failure. IfSome failure (λ f.
        OfLevel IsRefuted level (design_of checked.now) (failure_of (design_of checked.now) f))) }
    ensures fits { IfOk result (λ failure. IfSome failure
        (FailureFits level (design_of checked.now))) }
    ensures begins { IfOk result (λ failure. IfSome failure (BeginsAt defs begin)) }
    ensures none { IfOk result (λ failure. failure ≡ None
        → NoneBegins IsRefuted level (design_of checked.now) defs begin) }
{
    segments_are_hops();
    tables_are_definitions();
    code_literals_fit();
    checked.design();
    let Some(end) = ended(alloc, checked, level, &defs, &begin)? else {
        return Ok(None);
    };
    if end.is_new {
        return Ok(None);
    }
    let is_sent = is_sent_above(alloc, checked, level, &defs, &begin, &end)?;
    if is_sent {
        return Ok(None);
    }
    Ok(Some(joined(defs, begin, end)))
}

/// The failure of a segment that begins so, under definitions that meet the assumptions up to this
/// level: it has as many bodies as the block allows, and leads to a new role. `None` if there is no
/// such segment.
///
/// The time is that of the segment's run.
pub fn over(
    alloc: Global,
    checked: &Checked,
    level: u32,
    defs: Defs,
    begin: Begin,
) -> Result<Option<Failure>, NoMemory>
    requires level { (1 ≤ level) × (level ≤ last_level (design_of checked.now)) }
    requires defs { CanFail level (design_of checked.now) defs }
    requires begin { BeginFits level (design_of checked.now) begin }
    requires refined { IsOfBlock level (design_of checked.now) begin }
    ensures fails { IfOk result (λ failure. IfSome failure (λ f.
        OfLevel IsOver level (design_of checked.now) (failure_of (design_of checked.now) f))) }
    ensures fits { IfOk result (λ failure. IfSome failure
        (FailureFits level (design_of checked.now))) }
    ensures begins { IfOk result (λ failure. IfSome failure (BeginsAt defs begin)) }
    ensures none { IfOk result (λ failure. failure ≡ None
        → NoneBegins IsOver level (design_of checked.now) defs begin) }
{
    segments_are_hops();
    tables_are_definitions();
    code_literals_fit();
    checked.design();
    let Some(end) = ended(alloc, checked, level, &defs, &begin)? else {
        return Ok(None);
    };
    if !end.is_new {
        return Ok(None);
    }
    Ok(Some(joined(defs, begin, end)))
}
