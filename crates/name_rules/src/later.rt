//! Declarations of hosts and of switches after the first.
ghost use Rattle.std.specs.Prelude.{◌≡◌, ◌||◌, false, flat_map, is_some, map, option_map, option_to_list};
ghost use Rattle.cocoon_num.specs.Tree.{HostDecl as Hosts, SwitchDecl as Switches};
ghost use Rattle.cocoon_syntax.specs.TreeOf.{decl_of, design_of, refine_of};
ghost use Rattle.cocoon_types.specs.Design.{as_host, as_switch};
ghost use Rattle.cocoon_types.specs.Noting.{Notes};
ghost use Rattle.cocoon_types.specs.Rules.{twice};
ghost use Rattle.cocoon_types.specs.Among.{among};
ghost use Rattle.name_rules.specs.Among.{any_at, block_hosts, block_switches, host_places, hosts_twice, later, switch_places, switches_twice};

use cocoon_syntax::{Decl, Design, Refine};
use cocoon_types::{Noted, TypeRule, among_laws, note_unless};

/// Notes a token index, where one was found before; says whether one was found by now.
fn note_later(found: bool, at: Option<u32>, noted: &mut Noted) -> bool
    ensures by_now { result ≡ (found || is_some at) }
    ensures notes { Notes (among twice (later found (option_to_list at))) noted.old noted.new }
{
    among_laws();
    match at {
        Some(at) => {
            note_unless(noted, !found, TypeRule::Twice, at);
            true
        }
        None => found,
    }
}

fn host_in(decl: &Decl) -> Option<u32>
    ensures { result ≡ option_map (λ (h : Hosts). h.at) (as_host (decl_of decl.now)) }
{
    match decl {
        Decl::Host(host) => Some(host.at),
        _ => None,
    }
}

fn switch_in(decl: &Decl) -> Option<u32>
    ensures { result ≡ option_map (λ (s : Switches). s.at) (as_switch (decl_of decl.now)) }
{
    match decl {
        Decl::Switch(switch) => Some(switch.at),
        _ => None,
    }
}

fn note_hosts_in(found: bool, decls: &[Decl], noted: &mut Noted)
    ensures { Notes (among twice (later found (flat_map host_places (map decl_of decls.now))))
        noted.old noted.new }
{
    among_laws();
    let mut by_now = found;
    for decl in decls {
        by_now = note_later(by_now, host_in(decl), noted);
    }
}

fn note_hosts_of(blocks: &[Refine], noted: &mut Noted)
    ensures { Notes (among twice (flat_map block_hosts (map refine_of blocks.now)))
        noted.old noted.new }
{
    among_laws();
    for block in blocks {
        note_hosts_in(true, &block.decls, noted);
    }
}

/// Notes declarations of hosts but for the first at level 0.
pub(crate) fn note_hosts(design: &Design, noted: &mut Noted)
    ensures { Notes (among twice (hosts_twice (design_of design.now))) noted.old noted.new }
{
    among_laws();
    note_hosts_in(false, &design.decls, noted);
    note_hosts_of(&design.refines, noted);
}

fn note_switches_in(found: bool, decls: &[Decl], noted: &mut Noted) -> bool
    ensures by_now { result ≡ (found || any_at (flat_map switch_places (map decl_of decls.now))) }
    ensures notes { Notes (among twice (later found
        (flat_map switch_places (map decl_of decls.now))))
        noted.old noted.new }
{
    among_laws();
    let mut by_now = found;
    for decl in decls {
        by_now = note_later(by_now, switch_in(decl), noted);
    }
    by_now
}

fn note_switches_of(found: bool, blocks: &[Refine], noted: &mut Noted)
    ensures { Notes (among twice (later found (flat_map block_switches (map refine_of blocks.now))))
        noted.old noted.new }
{
    among_laws();
    let mut by_now = found;
    for block in blocks {
        by_now = note_switches_in(by_now, &block.decls, noted);
    }
}

/// Notes declarations of switches but for the first.
pub(crate) fn note_switches(design: &Design, noted: &mut Noted)
    ensures { Notes (among twice (switches_twice (design_of design.now))) noted.old noted.new }
{
    among_laws();
    let found = note_switches_in(false, &design.decls, noted);
    note_switches_of(found, &design.refines, noted);
}
