//! Names in the lists of blocks.
ghost use Rattle.std.specs.Prelude.{flat_map, map};
ghost use Rattle.cocoon_syntax.specs.TreeOf.{design_of, name_of, refine_of};
ghost use Rattle.cocoon_types.specs.Noting.{Notes};
ghost use Rattle.cocoon_types.specs.Rules.{fails_at, sink_refined};
ghost use Rattle.declarations.specs.Declares.{Declares};
ghost use Rattle.cocoon_types.specs.Among.{among};
ghost use Rattle.name_rules.specs.Among.{sink_in, unless_other};

use cocoon_syntax::{Design, Name, Refine};
use cocoon_types::{Noted, TypeRule, among_laws, note_unless};
use declarations::Declarations;

/// Notes the sink in the list of one block.
fn note_sink_in(sink: &Name, roles: &[Name], noted: &mut Noted)
    ensures { Notes (among sink_refined
        (flat_map (unless_other (name_of sink.now)) (map name_of roles.now)))
        noted.old noted.new }
{
    among_laws();
    for role in roles {
        let other = role.text.bytes() != sink.text.bytes();
        note_unless(noted, other, TypeRule::SinkRefined, role.at);
    }
}

/// Notes the sink in the lists of some blocks.
fn note_sink(sink: &Name, blocks: &[Refine], noted: &mut Noted)
    ensures { Notes (among sink_refined
        (flat_map (sink_in (name_of sink.now)) (map refine_of blocks.now)))
        noted.old noted.new }
{
    among_laws();
    for block in blocks {
        note_sink_in(sink, &block.roles, noted);
    }
}

/// Notes the sink where it is refined.
pub(crate) fn note_sink_refined(names: &Declarations, design: &Design, noted: &mut Noted)
    requires { Declares names.now (design_of design.now) }
    ensures { Notes (among sink_refined (fails_at sink_refined (design_of design.now)))
        noted.old noted.new }
{
    among_laws();
    match names.host(design) {
        Some(host) => note_sink(&host.sink, &design.refines, noted),
        None => (),
    }
}
