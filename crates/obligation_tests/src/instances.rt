//! Instances of assumptions by their patterns.
ghost use Rattle.cocoon_syntax.specs.TreeOf.{design_of};
ghost use Rattle.obligation_gen.specs.Owed.{IsOwed};

use bv_terms::{Node, TermId, Terms, applications};
use case_files::Printer;
use cocoon_num::NoMemory;
use cocoon_resolve::Checked;
use expr_terms::CallSizes;
use obligation_gen::Obligation;
use pattern_instances::pattern_instances;
use query_laws::formula_laws::{formulas_apply_declared_functions, obligations_have_levels};
use sound_types::laws::code_literals_fit;
use std::alloc::Global;

/// So many instances are shown at most, and the last one.
const MOST_SHOWN: usize = 8;

/// The instances that the formula of an obligation takes.
fn taken(
    alloc: Global,
    checked: &Checked,
    terms: &mut Terms,
    obligation: &Obligation,
) -> Result<Vec<TermId>, NoMemory>
    requires { IsOwed (design_of checked.now) terms.old obligation.now }
{
    formulas_apply_declared_functions();
    obligations_have_levels();
    code_literals_fit();
    let _design = checked.design();
    let sizes = CallSizes::new(alloc, checked)?;
    let (level, formula) = (obligation.level, obligation.formula);
    pattern_instances(alloc, checked, &sizes, level, formula, terms)
}

/// Puts an argument: an input, a number, or a dot for any other term.
fn put_argument(terms: &Terms, term: TermId, given: &mut Printer) {
    if term >= terms.count() {
        return given.put("?");
    }
    match terms.node(term) {
        Node::Input(input, _) => {
            given.put("x");
            given.put_number(u64::from(*input));
        }
        Node::Constant(number) => given.put_bits(number.width, number.value),
        _ => given.put("."),
    }
}

/// Puts an application as `FUNCTION(ARGUMENTS)`.
fn put_application(terms: &Terms, term: TermId, given: &mut Printer) {
    if term >= terms.count() {
        return given.put("?");
    }
    let Node::Apply(function, args, _) = terms.node(term) else {
        return given.put("?");
    };
    given.put_number(u64::from(*function));
    given.put("(");
    for (place, arg) in args.items().iter().enumerate() {
        if place > 0 {
            given.put(" ");
        }
        put_argument(terms, *arg, given);
    }
    given.put(")");
}

/// Puts what an instance applies functions to.
fn put_instance(alloc: Global, terms: &Terms, instance: TermId, given: &mut Printer) {
    if instance >= terms.count() {
        return given.put("?");
    }
    match applications(alloc, terms, instance) {
        Ok(found) => {
            for application in &found {
                given.put(" ");
                put_application(terms, *application, given);
            }
        }
        Err(NoMemory) => given.lose(),
    }
}

/// Puts how many instances there are, and what they apply functions to.
pub fn put_instances(
    alloc: Global,
    checked: &Checked,
    terms: &mut Terms,
    obligation: &Obligation,
    given: &mut Printer,
)
    requires { IsOwed (design_of checked.now) terms.old obligation.now }
{
    let Ok(instances) = taken(alloc, checked, terms, obligation) else {
        return given.lose();
    };
    given.put_number(instances.len() as u64);
    for (place, instance) in instances.iter().enumerate() {
        if place < MOST_SHOWN || place + 1 == instances.len() {
            given.put(";");
            put_instance(alloc, terms, *instance, given);
        }
    }
}
