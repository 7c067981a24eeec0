//! Faults that are noted where a test says so.
ghost use Rattle.cocoon_types.specs.Noting.{Notes};
ghost use Rattle.cocoon_types.specs.RuleNames.{rule_of};
ghost use Rattle.cocoon_types.specs.Rules.{too_wide};
ghost use Rattle.cocoon_num.specs.Sorts.{is_declared_width};
ghost use Rattle.std.specs.Prelude.{◌≡◌, ◌&&◌, not};
ghost use Rattle.type_rules.specs.Tests.{fails_if, held_if};

use cocoon_syntax::Name;
use cocoon_types::first_faults::noting_laws;
use cocoon_types::{Noted, TypeRule};

/// Notes the fault of a rule at a token index, where there is one.
pub(crate) fn note_if(noted: &mut Noted, fails: bool, rule: TypeRule, at: u32)
    ensures { Notes (fails_if (rule_of rule) fails at) noted.old noted.new }
{
    noting_laws();
    if fails {
        noted.note(rule, at);
    }
}

/// The same under one more test.
pub(crate) fn note_where(noted: &mut Noted, tested: bool, fails: bool, rule: TypeRule, at: u32)
    ensures { Notes (fails_if (rule_of rule) (tested && fails) at) noted.old noted.new }
{
    note_if(noted, tested && fails, rule, at);
}

/// Notes what another one holds, where a test says so.
pub(crate) fn note_held_if(noted: &mut Noted, tested: bool, held: &Noted)
    ensures { Notes (held_if tested held.now) noted.old noted.new }
{
    noting_laws();
    if tested {
        noted.note_held(held);
    }
}

/// The same under one more test.
pub(crate) fn note_held_where(noted: &mut Noted, tested: bool, so: bool, held: &Noted)
    ensures { Notes (held_if (tested && so) held.now) noted.old noted.new }
{
    note_held_if(noted, tested && so, held);
}

/// Notes the fault of a width that may not be declared.
pub(crate) fn note_width(noted: &mut Noted, name: &Name, width: u32)
    ensures { Notes (fails_if too_wide (not (is_declared_width width)) name.now.at)
        noted.old noted.new }
{
    note_if(noted, !may_be_declared(width), TypeRule::TooWide, name.at);
}

/// A width from 1 to 64.
fn may_be_declared(width: u32) -> bool
    ensures { result ≡ is_declared_width width }
{
    1 <= width && width <= 64
}
