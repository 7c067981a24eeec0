//! What notes a fault where a test fails, and the laws on lists of token indices.
ghost use Rattle.cocoon_types.specs.Noting.{Notes};
ghost use Rattle.cocoon_types.specs.RuleNames.{rule_of};
ghost use Rattle.cocoon_types.specs.RuleParts.{unless};
ghost use Rattle.cocoon_types.specs.Among.{among, AmongLaws};

use crate::first_faults::noting_laws;
use crate::{Noted, TypeRule};

/// Notes the fault of a rule at a token index, unless a test holds.
pub fn note_unless(noted: &mut Noted, holds: bool, rule: TypeRule, at: u32)
    ensures { Notes (among (rule_of rule) (unless holds at)) noted.old noted.new }
{
    noting_laws();
    if !holds {
        noted.note(rule, at);
    }
}

/// What is noted of lists of token indices is put together by these laws.
pub fn among_laws()
    ensures { AmongLaws }
{
    noting_laws();
}
