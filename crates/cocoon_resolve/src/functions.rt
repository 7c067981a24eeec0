//! What the calls of a design's functions count.
ghost use Rattle.std.specs.Prelude.{◌≡◌, filter_map, IfOk, map, OnOk, reverse};
ghost use Rattle.cocoon_syntax.specs.TreeOf.{decl_of, expr_of, function_of, param_of};
ghost use Rattle.cocoon_types.specs.Design.{as_function};
ghost use Rattle.cocoon_resolve.specs.Forms.{Adds, declared_form, form_of, known_body_form, Knows};

use crate::forms::{Form, Known};
use crate::nodes::{Counting, weigh};
use cocoon_num::{NoMemory, Text};
use cocoon_syntax::{Decl, Expr, FunctionDecl, Param};
use std::alloc::Global;

/// What the calls of each function among some declarations count.
pub(crate) fn forms_of(alloc: Global, decls: &[&Decl]) -> Result<Vec<Known>, NoMemory>
    ensures { IfOk result (λ known.
        Knows (reverse (filter_map as_function (map (λ d. decl_of d.now) decls.now)))
        (reverse known.items)) }
{
    let mut known = Vec::new(alloc);
    for decl in decls {
        push_known(alloc, &mut known, decl)?;
    }
    Ok(known)
}

fn push_known(alloc: Global, known: &mut Vec<Known>, decl: &Decl) -> Result<(), NoMemory>
    ensures { OnOk result (Adds (as_function (decl_of decl.now)) known.old.items known.new.items) }
{
    match decl {
        Decl::Function(function) => {
            let next = known_of(alloc, known, function)?;
            known.push(next)?;
            Ok(())
        }
        Decl::Assume(_) => Ok(()),
        Decl::Role(_) => Ok(()),
        Decl::Host(_) => Ok(()),
        Decl::Switch(_) => Ok(()),
    }
}

fn known_of(alloc: Global, known: &[Known], function: &FunctionDecl) -> Result<Known, NoMemory>
    ensures name { IfOk result (λ next. next.name ≡ function.now.name.text) }
    ensures form { IfOk result (λ next.
        form_of next.form ≡ declared_form (reverse known.now) (function_of function.now)) }
{
    let form = form_of_function(alloc, known, function)?;
    let name = Text::from(alloc, function.name.text.bytes())?;
    Ok(Known { name, form })
}

fn form_of_function(
    alloc: Global,
    known: &[Known],
    function: &FunctionDecl,
) -> Result<Form, NoMemory>
    ensures { IfOk result (λ form.
        form_of form ≡ declared_form (reverse known.now) (function_of function.now)) }
{
    match &function.body {
        Some(body) => form_of_body(alloc, known, &function.params, body),
        None => Ok(Form::Plain),
    }
}

fn form_of_body(
    alloc: Global,
    known: &[Known],
    params: &[Param],
    body: &Expr,
) -> Result<Form, NoMemory>
    ensures { IfOk result (λ form. form_of form
        ≡ known_body_form (reverse known.now) (map param_of params.now) (expr_of body.now)) }
{
    let mut uses = Vec::new(alloc);
    for slot in 0..params.len() {
        uses.push(weigh(
            &Counting {
                known,
                params,
                slot,
                one: 0,
            },
            body,
        ))?;
    }
    let own = weigh(
        &Counting {
            known,
            params,
            slot: params.len(),
            one: 1,
        },
        body,
    );
    Ok(Form::Body(own, uses))
}
