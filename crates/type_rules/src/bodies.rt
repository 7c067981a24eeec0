//! The faults of a statement whose expressions have types.
ghost use Rattle.cocoon_num.specs.Tree as tree;
ghost use Rattle.cocoon_syntax.specs.TreeOf.{name_of, param_of, role_of};
ghost use Rattle.cocoon_types.specs.Design.{field_width, widths_of};
ghost use Rattle.cocoon_types.specs.Noting.{Notes};
ghost use Rattle.cocoon_types.specs.Parts.{count_of};
ghost use Rattle.cocoon_types.specs.TypeRules.{first_role, role_widths};
ghost use Rattle.cocoon_types.specs.Typing.{Scope, with_var};
ghost use Rattle.std.specs.Prelude.{◌≡◌, map, option_map};
ghost use Rattle.type_rules.specs.Tests.{at_stmt};
ghost use Rattle.type_rules.specs.Typed.{AreArgs, IsTyped};

use crate::calls::Args;
use crate::noting::{note_held_if, note_if, note_width};
use crate::sort::{Sort, Typed, is_other};
use cocoon_syntax::{Name, Param, Role};
use cocoon_types::first_faults::noting_laws;
use cocoon_types::{Noted, TypeRule};

/// Of a `let`.
pub(crate) fn note_let(
    at: u32,
    ended: bool,
    name: &Name,
    width: u32,
    value: Typed,
    noted: &mut Noted,
)
    ensures { (s : Scope) (x : tree.Expr) → IsTyped value s x
        → Notes (at_stmt (record {
          scope = s;
          ended = ended;
          s = tree.let_ at (name_of name.now) width x;
        }))
        noted.old noted.new }
{
    noting_laws();
    note_if(noted, ended, TypeRule::AfterSend, at);
    note_width(noted, name, width);
    note_if(
        noted,
        is_other(Sort::Bits(width), value.sort),
        TypeRule::WrongWidth,
        value.at,
    );
}

/// Of a field that is set.
pub(crate) fn note_set_field(
    at: u32,
    ended: bool,
    width: Option<u32>,
    value: Typed,
    noted: &mut Noted,
)
    ensures { (s : Scope) (h f : tree.Name) (x : tree.Expr)
        → width ≡ field_width s.design.headers h.text f.text
        → IsTyped value s x
        → Notes (at_stmt (record { scope = s; ended = ended; s = tree.set_field at h f x }))
        noted.old noted.new }
{
    noting_laws();
    note_if(noted, ended, TypeRule::AfterSend, at);
    if let Some(width) = width {
        note_if(
            noted,
            is_other(Sort::Bits(width), value.sort),
            TypeRule::WrongWidth,
            value.at,
        );
    }
}

/// Of an `if`.
pub(crate) fn note_condition(at: u32, ended: bool, condition: Typed, noted: &mut Noted)
    ensures branch { (s : Scope) (x : tree.Expr) (a b : tree.Block) → IsTyped condition s x
        → Notes (at_stmt (record { scope = s; ended = ended; s = tree.if_ at x a b }))
        noted.old noted.new }
    ensures filter { (s : Scope) (x : tree.Expr) → IsTyped condition s x
        → Notes (at_stmt (record { scope = s; ended = ended; s = tree.filter at x }))
        noted.old noted.new }
    ensures assume { (s : Scope) (x : tree.Expr) → IsTyped condition s x
        → Notes (at_stmt (record { scope = s; ended = ended; s = tree.assume at x }))
        noted.old noted.new }
{
    noting_laws();
    note_if(noted, ended, TypeRule::AfterSend, at);
    note_if(
        noted,
        is_other(Sort::Truth, condition.sort),
        TypeRule::NotBool,
        condition.at,
    );
}

/// Of a variable that is chosen.
pub(crate) fn note_havoc(at: u32, ended: bool, name: &Name, width: u32, noted: &mut Noted)
    ensures { (s : Scope) → Notes
        (at_stmt (record {
          scope = s;
          ended = ended;
          s = tree.havoc_var at (name_of name.now) width;
        }))
        noted.old noted.new }
{
    noting_laws();
    note_if(noted, ended, TypeRule::AfterSend, at);
    note_width(noted, name, width);
}

/// Of a field that is chosen.
pub(crate) fn note_havoc_field(at: u32, ended: bool, noted: &mut Noted)
    ensures { (s : Scope) (h f : tree.Name) → Notes
        (at_stmt (record { scope = s; ended = ended; s = tree.havoc_field at h f }))
        noted.old noted.new }
{
    noting_laws();
    note_if(noted, ended, TypeRule::AfterSend, at);
}

/// Of a fork, whose condition may name its variable.
pub(crate) fn note_fork(
    at: u32,
    ended: bool,
    name: &Name,
    width: u32,
    condition: Typed,
    noted: &mut Noted,
)
    ensures { (s : Scope) (x : tree.Expr) (b : tree.Block)
        → IsTyped condition (with_var (name_of name.now) width s) x
        → Notes (at_stmt (record {
          scope = s;
          ended = ended;
          s = tree.fork at (name_of name.now) width x b;
        }))
        noted.old noted.new }
{
    noting_laws();
    note_if(noted, ended, TypeRule::AfterSend, at);
    note_width(noted, name, width);
    note_if(
        noted,
        is_other(Sort::Truth, condition.sort),
        TypeRule::NotBool,
        condition.at,
    );
}

/// The parameters of a role that is found; none where there is none.
pub(crate) fn role_parameters<'d>(found: Option<&'d Role>) -> &'d [Param]
    ensures { widths_of (map param_of result.now)
        ≡ role_widths (option_map (λ r. role_of r.now) found.entry) }
{
    match found {
        Some(role) => &role.params,
        None => &[],
    }
}

/// Of a `send`, whose values are as many and are found so.
pub(crate) fn note_send(
    at: u32,
    ended: bool,
    found: Option<&Role>,
    count: usize,
    args: &Args,
    noted: &mut Noted,
)
    ensures { (s : Scope) (r : tree.Name) (es : tree.Exprs) → count ≡ count_of es
        → first_role s.design r.text ≡ option_map (λ r. role_of r.now) found.entry
        → AreArgs args.now s (role_widths (first_role s.design r.text)) es
        → Notes (at_stmt (record { scope = s; ended = ended; s = tree.send at r es }))
        noted.old noted.new }
{
    noting_laws();
    note_if(noted, ended, TypeRule::AfterSend, at);
    if let Some(role) = found {
        let fits = role.params.len() == count;
        note_if(noted, !fits, TypeRule::WrongCount, at);
        note_held_if(noted, fits, &args.wrong);
    }
}
