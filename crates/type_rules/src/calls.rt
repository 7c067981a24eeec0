//! The values of calls and sends: they are taken one by one, and tested together.
ghost use Rattle.cocoon_num.specs.Tree as tree;
ghost use Rattle.cocoon_syntax.specs.TreeOf.{function_of, name_of, param_of, result_of};
ghost use Rattle.cocoon_types.specs.Design.{widths_of};
ghost use Rattle.cocoon_types.specs.Noting.{Notes};
ghost use Rattle.cocoon_types.specs.Parts.{count_of};
ghost use Rattle.cocoon_types.specs.Rules.{wrong_width};
ghost use Rattle.cocoon_types.specs.TypeRules.{found_widths, wrong_args};
ghost use Rattle.cocoon_types.specs.Typing as typing;
ghost use Rattle.cocoon_types.specs.Typing.{Scope};
ghost use Rattle.std.specs.Prelude.{◌≡◌, ◌&&◌, drop, if◌then◌else◌, is_none, is_some, map, option_map, true, ℕ};
ghost use Rattle.type_rules.specs.Tests.{at_expr, fails_among};
ghost use Rattle.type_rules.specs.Typed.{AreArgs, IsTyped, sort_of, sort_value};

use crate::noting::{note_held_where, note_if, note_where};
use crate::sort::{Sort, Typed, is_other};
use cocoon_syntax::{FunctionDecl, Name, Param, ResultKind};
use cocoon_types::first_faults::noting_laws;
use cocoon_types::{Noted, TypeRule};

/// What is found of some values: whether all have types, and those that are of another than their parameter.
#[derive(Drop)]
pub(crate) struct Args {
    pub(crate) typed: bool,
    pub(crate) wrong: Noted,
}

impl Args {
    /// Of no values.
    pub(crate) fn new() -> Args
        ensures typed { result.typed ≡ true }
        ensures wrong { result.wrong ≡ None }
    {
        Args {
            typed: true,
            wrong: Noted::new(),
        }
    }

    /// All have types, they are as many as the parameters, and none is of another type.
    fn fit(&self, as_many: bool) -> bool
        ensures { result ≡ ((self.now.typed && as_many) && is_none self.now.wrong) }
    {
        self.typed && as_many && self.wrong.found().is_none()
    }

    /// One more value, for the parameter of this index, if there is one.
    pub(crate) fn add(&mut self, params: &[Param], index: usize, arg: Typed)
        ensures typed { self.new.typed ≡ (self.old.typed && is_some (sort_of arg.sort)) }
        ensures wrong { (s : Scope) (x : tree.Expr) → IsTyped arg s x
            → Notes (fails_among wrong_width
            (wrong_args s (drop index (widths_of (map param_of params.now)))
            (tree.expr x tree.no_exprs)))
            self.old.wrong self.new.wrong }
    {
        noting_laws();
        self.typed = self.typed && arg.sort.is_some();
        if let Some(param) = params.get(index) {
            note_if(
                &mut self.wrong,
                is_other(Sort::Bits(param.width), arg.sort),
                TypeRule::WrongWidth,
                arg.at,
            );
        }
    }
}

/// The parameters of a function that is found; none where there is none.
pub(crate) fn parameters<'d>(found: Option<&'d FunctionDecl>) -> &'d [Param]
    ensures { widths_of (map param_of result.now)
        ≡ found_widths (option_map (λ f. function_of f.now) found.entry) }
{
    match found {
        Some(function) => &function.params,
        None => &[],
    }
}

/// The type of a function's result.
pub(crate) fn result_sort(result_kind: &ResultKind) -> Sort
    ensures { sort_value result ≡ typing.result_sort (result_of result_kind.now) }
{
    match result_kind {
        ResultKind::Width(width) => Sort::Bits(*width),
        ResultKind::Truth => Sort::Truth,
    }
}

/// The same, where the values fit.
fn result_if(fit: bool, result_kind: &ResultKind) -> Option<Sort>
    ensures { sort_of result
        ≡ (if fit then Some (typing.result_sort (result_of result_kind.now)) else None) }
{
    if fit {
        Some(result_sort(result_kind))
    } else {
        None
    }
}

/// The type of a call of a function, whose values are as many and are found so. Its own faults are noted.
fn note_values(
    name: &Name,
    function: &FunctionDecl,
    count: usize,
    args: &Args,
    noted: &mut Noted,
) -> Option<Sort>
    ensures typed { (s : Scope) (at : ℕ) (es : tree.Exprs) → count ≡ count_of es
        → typing.function_named s name.now.text ≡ Some (function_of function.now)
        → AreArgs args.now s (widths_of (map param_of function.now.params.items)) es
        → sort_of result ≡ typing.sort_of s (tree.call at (name_of name.now) es) }
    ensures noted { (s : Scope) (at : ℕ) (es : tree.Exprs) → count ≡ count_of es
        → typing.function_named s name.now.text ≡ Some (function_of function.now)
        → AreArgs args.now s (widths_of (map param_of function.now.params.items)) es
        → Notes (at_expr (record { scope = s; e = tree.call at (name_of name.now) es }))
        noted.old noted.new }
{
    noting_laws();
    let fits = function.params.len() == count;
    note_where(noted, args.typed, !fits, TypeRule::WrongCount, name.at);
    note_held_where(noted, args.typed, fits, &args.wrong);
    result_if(args.fit(fits), &function.result)
}

/// The type of a call, whose values are as many and are found so. Its own faults are noted.
pub(crate) fn note_call(
    name: &Name,
    found: Option<&FunctionDecl>,
    count: usize,
    args: &Args,
    noted: &mut Noted,
) -> Option<Sort>
    ensures typed { (s : Scope) (at : ℕ) (es : tree.Exprs) → count ≡ count_of es
        → typing.function_named s name.now.text ≡ option_map (λ f. function_of f.now) found.entry
        → AreArgs args.now s (found_widths (typing.function_named s name.now.text)) es
        → sort_of result ≡ typing.sort_of s (tree.call at (name_of name.now) es) }
    ensures noted { (s : Scope) (at : ℕ) (es : tree.Exprs) → count ≡ count_of es
        → typing.function_named s name.now.text ≡ option_map (λ f. function_of f.now) found.entry
        → AreArgs args.now s (found_widths (typing.function_named s name.now.text)) es
        → Notes (at_expr (record { scope = s; e = tree.call at (name_of name.now) es }))
        noted.old noted.new }
{
    noting_laws();
    match found {
        Some(function) => note_values(name, function, count, args, noted),
        None => None,
    }
}
