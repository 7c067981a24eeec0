//! Applications in an assumption at exactly its parameters.
ghost use Rattle.std.specs.Prelude.{◌≡◌, ◌<◌, ℕ, IfOk, filter_map, length, map, option_map};
ghost use Rattle.cocoon_resolve.specs.Readers.{all_assumptions};
ghost use Rattle.cocoon_syntax.specs.TreeOf.{design_of};
ghost use Rattle.bv_terms.specs.Arenas.{args_of, term_at};
ghost use Rattle.bv_terms.specs.TermTrees.{apply};
ghost use Rattle.expr_terms.specs.Sizes.{AreSizes};
ghost use Rattle.expr_terms.specs.Variables.{AreThere};
ghost use Rattle.fun_instances.specs.Taking.{OfAssumption};
ghost use Rattle.query_laws.specs.Patterns as spec;
ghost use Rattle.pattern_instances.specs.Found.{found_pattern, found_patterns};

use bv_terms::{FunId, InputId, Node, TermId, Terms, applications};
use cocoon_num::NoMemory;
use cocoon_resolve::Checked;
use expr_terms::CallSizes;
use fun_instances::own_term;
use std::alloc::Global;

/// An application at exactly the parameters of an assumption, each once: for each of these the
/// place of its argument.
#[derive(Drop)]
pub(crate) struct Pattern {
    pub(crate) function: FunId,
    pub(crate) places: Vec<usize>,
}

fn is_input(terms: &Terms, term: TermId, input: InputId) -> bool
    requires { term < length terms.now }
    ensures { result ≡ spec.is_input input (term_at terms.now term) }
{
    match terms.node(term) {
        Node::Input(number, _) => input == *number,
        _ => false,
    }
}

/// Where an input stands first among arguments.
fn place_of(terms: &Terms, args: &[TermId], input: InputId) -> Option<usize>
    requires { AreThere terms.now args.now }
    ensures { result ≡ spec.place_of input (args_of (term_at terms.now) args.now) }
{
    for place in 0..args.len() {
        if is_input(terms, args[place], input) {
            return Some(place);
        }
    }
    None
}

/// The places of the inputs from 0 on, so many, if each is an argument.
fn places(
    alloc: Global,
    terms: &Terms,
    args: &[TermId],
    count: u32,
) -> Result<Option<Vec<usize>>, NoMemory>
    requires { AreThere terms.now args.now }
    ensures { IfOk result (λ found. option_map (λ v. v.items) found
        ≡ spec.places_from 0 count (args_of (term_at terms.now) args.now)) }
{
    let mut places = Vec::new(alloc);
    for input in 0..count {
        match place_of(terms, args, input) {
            Some(place) => places.push(place)?,
            None => return Ok(None),
        }
    }
    Ok(Some(places))
}

/// The pattern of a function at arguments, if these are exactly the parameters: so many inputs from
/// 0 on.
fn pattern_at(
    alloc: Global,
    terms: &Terms,
    function: FunId,
    args: &[TermId],
    count: u32,
) -> Result<Option<Pattern>, NoMemory>
    requires { AreThere terms.now args.now }
    ensures { (w : ℕ) → IfOk result (λ found. option_map found_pattern found
        ≡ spec.pattern_of count (apply function (args_of (term_at terms.now) args.now) w)) }
{
    if args.len() != count as usize {
        return Ok(None);
    }
    match places(alloc, terms, args, count)? {
        Some(places) => Ok(Some(Pattern { function, places })),
        None => Ok(None),
    }
}

/// The pattern of a term, if it is an application at exactly the parameters.
fn pattern_of(
    alloc: Global,
    terms: &Terms,
    term: TermId,
    count: u32,
) -> Result<Option<Pattern>, NoMemory>
    requires { term < length terms.now }
    ensures { IfOk result (λ found. option_map found_pattern found
        ≡ spec.pattern_of count (term_at terms.now term)) }
{
    match terms.node(term) {
        Node::Apply(function, args, _) => {
            pattern_at(alloc, terms, *function, args.items(), count)
        }
        _ => Ok(None),
    }
}

/// The patterns among terms, in their order.
fn patterns_among(
    alloc: Global,
    terms: &Terms,
    among: &[TermId],
    count: u32,
) -> Result<Vec<Pattern>, NoMemory>
    requires { AreThere terms.now among.now }
    ensures { IfOk result (λ patterns. found_patterns patterns.items
        ≡ filter_map (spec.pattern_of count) (map (term_at terms.now) among.now)) }
{
    let mut patterns = Vec::new(alloc);
    for term in among {
        if let Some(pattern) = pattern_of(alloc, terms, *term, count)? {
            patterns.push(pattern)?;
        }
    }
    Ok(patterns)
}

/// The patterns of an assumption, in the order of the walk. Time and memory are those of its term.
pub(crate) fn patterns(
    alloc: Global,
    checked: &Checked,
    sizes: &CallSizes,
    assumption: u32,
) -> Result<Vec<Pattern>, NoMemory>
    requires sizes { AreSizes (design_of checked.now) sizes.now }
    requires number { assumption < length (all_assumptions (design_of checked.now)) }
    ensures { OfAssumption (design_of checked.now) assumption (λ a. IfOk result (λ patterns.
        found_patterns patterns.items ≡ spec.patterns (design_of checked.now) a)) }
{
    let mut own = Terms::new(alloc);
    let term = own_term(alloc, checked, sizes, assumption, &mut own)?;
    let count = own.input_count();
    let applications = applications(alloc, &own, term)?;
    patterns_among(alloc, &own, &applications, count)
}
