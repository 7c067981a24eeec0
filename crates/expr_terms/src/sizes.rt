//! How many nodes there are to make a term of, without one: functions with bodies can call one another so often that no memory
//! would hold it.
ghost use Rattle.std.specs.Prelude.{◌≡◌, ◌+◌, ◌<◌, ◌≤◌, ℕ, IfOk, IfSome, length, List, map, option_map, slice_get, Some};
ghost use Rattle.cocoon_syntax.specs.TreeOf.{design_of, expr_of, exprs_of, function_of};
ghost use Rattle.cocoon_types.specs.Design.{functions};
ghost use Rattle.expr_terms.specs.Sizes.{AreSizes, IsCount, body_nodes, expr_nodes, exprs_nodes, most_nodes};
ghost use Rattle.expr_terms.specs.Sizes as spec;
ghost use Rattle.expr_terms.specs.Knowing.{KnowsSizes, calls_known};

use crate::functions::find;
use cocoon_num::NoMemory;
use cocoon_resolve::Checked;
use cocoon_syntax::{Expr, ExprKind, FunctionDecl as Function};
use std::alloc::Global;
use std::marker::Model;

/// More nodes are out of memory.
const MOST_NODES: u64 = 1 << 25;

/// A design has no more functions.
const MOST_FUNCTIONS: usize = 128;

/// How many nodes the bodies of a design's functions have, each with those of its calls; none where they are too many. It is
/// made once, and each body is walked once.
#[derive(Drop)]
pub struct CallSizes {
    sizes: Vec<Option<u32>>,
}

impl Model for CallSizes {
    ghost use Rattle.std.specs.Prelude.{ℕ, Option as Maybe, List as Items};

    ghost Value = { Items (Maybe ℕ) };

    ghost view = { λ s. s.sizes.items };
}

/// What is seen where nodes are counted: the functions whose sizes are known.
#[derive(Clone, Copy, Drop)]
struct Counting<'d> {
    checked: &'d Checked,
    sizes: &'d [Option<u32>],
}

/// The sum of two counts, if it is not too large.
fn within(a: u32, b: u32) -> Option<u32>
    ensures { IsCount (a + b) result }
{
    let sum = u64::from(a) + u64::from(b);
    if sum <= MOST_NODES {
        Some(sum as u32)
    } else {
        None
    }
}

fn plus(a: Option<u32>, b: Option<u32>) -> Option<u32>
    ensures { (m n : ℕ) → IsCount m a → IsCount n b → IsCount (m + n) result }
{
    match a {
        Some(a) => match b {
            Some(b) => within(a, b),
            None => None,
        },
        None => None,
    }
}

/// One node more.
fn one_more(count: Option<u32>) -> Option<u32>
    ensures { (n : ℕ) → IsCount n count → IsCount (1 + n) result }
{
    plus(Some(1), count)
}

#[cycle(count)]
fn count(counting: &Counting<'_>, expr: &Expr) -> Option<u32>
    requires { KnowsSizes counting.now }
    ensures { IsCount (spec.nodes (calls_known counting.now) (expr_of expr.now)) result }
{
    match &expr.kind {
        ExprKind::Name(_) => Some(1),
        ExprKind::Field(_, _) => Some(1),
        ExprKind::Lit(_) => Some(1),
        ExprKind::Truth(_) => Some(1),
        ExprKind::Call(function, args) => {
            let called = call_count(counting, function.text.bytes());
            let args = count_all(counting, args);
            one_more(plus(called, args))
        }
        ExprKind::Unary(_, a) => one_more(count(counting, a)),
        ExprKind::Binary(_, a, b) => {
            let a = count(counting, a);
            let b = count(counting, b);
            one_more(plus(a, b))
        }
        ExprKind::Slice(a, _, _) => one_more(count(counting, a)),
        ExprKind::Pick(condition, a, b) => {
            let condition = count(counting, condition);
            let a = count(counting, a);
            let b = count(counting, b);
            one_more(plus(condition, plus(a, b)))
        }
    }
}

#[cycle(count)]
fn count_all(counting: &Counting<'_>, exprs: &[Expr]) -> Option<u32>
    requires { KnowsSizes counting.now }
    ensures { IsCount (spec.all_nodes (calls_known counting.now)
        (exprs_of (map expr_of exprs.now))) result }
{
    let mut sum = Some(0);
    for expr in exprs {
        sum = plus(sum, count(counting, expr));
    }
    sum
}

/// The nodes of the body of the function of this name.
fn call_count(counting: &Counting<'_>, name: &[u8]) -> Option<u32>
    requires { KnowsSizes counting.now }
    ensures { IsCount (calls_known counting.now name.now) result }
{
    match find(counting.checked, counting.sizes.len() as u32, name) {
        Some(number) => counting.sizes[number as usize],
        None => Some(0),
    }
}

/// The nodes of a body, if there is one.
fn body_count(counting: &Counting<'_>, body: &Option<Expr>) -> Option<u32>
    requires { KnowsSizes counting.now }
    ensures { IsCount (body_nodes (calls_known counting.now) (option_map expr_of body.now)) result }
{
    match body {
        Some(body) => count(counting, body),
        None => Some(0),
    }
}

/// The function of a number, if the design has so many.
fn function_at(checked: &Checked, number: usize) -> Option<&Function>
    ensures is { option_map (λ f. function_of f.now) result
        ≡ slice_get (functions (design_of checked.now)) number }
    ensures few { IfSome result (λ _. number < 128) }
{
    let design = checked.design();
    if number >= MOST_FUNCTIONS {
        return None;
    }
    checked.names().function(design, number as u32)
}

impl CallSizes {
    /// Those of a design.
    pub fn new(alloc: Global, checked: &Checked) -> Result<CallSizes, NoMemory>
        ensures { IfOk result (λ sizes. AreSizes (design_of checked.now) sizes) }
    {
        let mut sizes = Vec::new(alloc);
        'functions: while let Some(function) = function_at(checked, sizes.len()) {
            let counting = Counting {
                checked,
                sizes: &sizes,
            };
            let size = body_count(&counting, &function.body);
            sizes.push(size)?;
        }
        Ok(CallSizes { sizes })
    }

    /// How many functions the design has.
    pub(crate) fn function_count(&self, checked: &Checked) -> u32
        requires { AreSizes (design_of checked.now) self.now }
        ensures { result ≡ length (functions (design_of checked.now)) }
    {
        let _design = checked.design();
        self.sizes.len() as u32
    }

    /// The nodes that there are to make the term of an expression of; none where they are too many.
    pub fn nodes(&self, checked: &Checked, expr: &Expr) -> Option<u32>
        requires { AreSizes (design_of checked.now) self.now }
        ensures { IsCount (expr_nodes (design_of checked.now) (expr_of expr.now)) result }
    {
        let _design = checked.design();
        let sizes = &self.sizes;
        count(&Counting { checked, sizes }, expr)
    }

    /// Those of some expressions together.
    pub fn all_nodes(&self, checked: &Checked, exprs: &[Expr]) -> Option<u32>
        requires { AreSizes (design_of checked.now) self.now }
        ensures { IsCount (exprs_nodes (design_of checked.now)
            (exprs_of (map expr_of exprs.now))) result }
    {
        let _design = checked.design();
        let sizes = &self.sizes;
        count_all(&Counting { checked, sizes }, exprs)
    }
}
