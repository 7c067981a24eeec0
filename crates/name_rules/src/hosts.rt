//! Declarations of hosts and switches that are missing.
ghost use Rattle.std.specs.Prelude.{is_some};
ghost use Rattle.cocoon_syntax.specs.TreeOf.{design_of};
ghost use Rattle.cocoon_types.specs.Noting.{Notes};
ghost use Rattle.cocoon_types.specs.Rules.{fails_at, no_host, no_switch};
ghost use Rattle.declarations.specs.Declares.{Declares};
ghost use Rattle.cocoon_types.specs.Among.{among};

use cocoon_syntax::Design;
use cocoon_types::{Noted, TypeRule, note_unless};
use declarations::Declarations;

/// Notes that no hosts are declared.
pub(crate) fn note_no_host(names: &Declarations, design: &Design, noted: &mut Noted)
    requires { Declares names.now (design_of design.now) }
    ensures { Notes (among no_host (fails_at no_host (design_of design.now))) noted.old noted.new }
{
    note_unless(noted, names.host(design).is_some(), TypeRule::NoHost, 0);
}

/// Notes that no switches are declared.
pub(crate) fn note_no_switch(names: &Declarations, design: &Design, noted: &mut Noted)
    requires { Declares names.now (design_of design.now) }
    ensures { Notes (among no_switch (fails_at no_switch (design_of design.now)))
        noted.old noted.new }
{
    note_unless(noted, names.switch(design).is_some(), TypeRule::NoSwitch, 0);
}
